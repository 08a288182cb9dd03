// The checks and attempts under way: the one that began last has its answer first. At most three are when a state is called,
// and a state begins at most two more.
ghost use Rattle.std.specs.Prelude.{◌≡◌, ◌<◌, [], ◌∷◌, length, MatchOption};
ghost use Rattle.tokenizer.specs.Stack.{stack};

use crate::table::Table;
use machine::Attempt;

pub const ATTEMPTS_ROOM: usize = 5;

pub type Attempts = Table<Attempt, ATTEMPTS_ROOM>;

impl Attempts {
    pub fn put(&mut self, attempt: Attempt)
        requires { length (stack self.old) < ATTEMPTS_ROOM }
        ensures { stack self.new ≡ attempt ∷ stack self.old }
    {
        self.push(attempt);
    }

    pub fn take(&mut self) -> Option<Attempt>
        ensures { MatchOption result ((stack self.old ≡ []) × (stack self.new ≡ [])) (λ a. stack self.old ≡ a ∷ stack self.new) }
    {
        self.pop()
    }
}
