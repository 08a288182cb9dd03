// What happens when a state answers Ok or Nok: the latest check or attempt is taken off and puts back what it captured.
ghost use Rattle.std.specs.Prelude.{◌≡◌, Some};
ghost use Rattle.machine.specs.Moves.{restored, resumed, settled};
ghost use Rattle.tokenizer.specs.View.{machine};

use crate::tokenizer::Tokenizer;
use machine::{Attempt, AttemptKind, Progress, State};

impl Tokenizer {
    // Later events and names are dropped. Registers stay.
    pub fn put_back(&mut self, progress: Progress)
        ensures { machine self.new ≡ restored (Some progress) (machine self.old) }
    {
        self.cursor = progress.cursor;
        self.events.truncate(progress.events);
        self.names.truncate(progress.names);
    }

    // The attempt has its answer, and its own answer takes that place.
    pub fn resume(&mut self, ok: bool, attempt: Attempt)
        ensures { machine self.new ≡ resumed ok attempt (machine self.old) }
    {
        if (attempt.kind == AttemptKind::Check || !ok)
            && let Some(progress) = attempt.progress
        {
            self.put_back(progress);
        }
        self.state = if ok { attempt.ok } else { attempt.nok };
    }

    // Until a state is to be called, or nothing is tried any more.
    pub fn settle(&mut self)
        ensures { machine self.new ≡ settled (machine self.old) }
    {
        loop {
            let ok = match self.state {
                State::Ok => true,
                State::Nok => false,
                State::Next(_) | State::Retry(_) => return,
            };
            let Some(attempt) = self.attempts.take() else {
                return;
            };
            self.resume(ok, attempt);
        }
    }
}
