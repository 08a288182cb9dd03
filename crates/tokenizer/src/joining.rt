// Neighbouring Data spans joined, once the end of a note has been read.
ghost use Rattle.std.specs.Prelude.{◌≡◌, true};
ghost use Rattle.machine.specs.Joins.{joined};
ghost use Rattle.machine.specs.Moves.{with_tables};
ghost use Rattle.tokenizer.specs.Joining.{paired};
ghost use Rattle.tokenizer.specs.View.{machine};

use crate::tokenizer::Tokenizer;

impl Tokenizer {
    pub fn join(&mut self)
        requires { paired self.old.events.items.items ≡ true }
        ensures { machine self.new ≡ with_tables (joined (machine self.old).events) (machine self.old).names (machine self.old) }
    {
        self.events.join();
    }
}
