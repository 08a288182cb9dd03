// What the lines of the report say, but for those of events.
ghost use Rattle.std.specs.Prelude.{◌≡◌, Some};
ghost use Rattle.readings.specs.Lines.{step_noun, steps_shown, state_shown, answered_shown};

use machine::{Ran, Until};
use std::fmt;

// State calls made.
#[derive(Clone, Copy)]
pub struct Steps(pub u64);

impl fmt::Display for Steps {
    ghost output = { λ steps. Some (steps_shown steps.0) };

    fn fmt<W: fmt::Write>(&self, f: &mut fmt::Formatter<W>) -> fmt::Result {
        let count = self.0;
        let noun = step_noun(count);
        write!(f, "{count} {noun}")
    }
}

fn step_noun(count: u64) -> &'static str
    ensures { result.now ≡ step_noun count }
{
    if count == 1 { "step" } else { "steps" }
}

// A call of push, to a mark, or of end, and what it answered.
#[derive(Clone, Copy)]
pub struct Answered {
    pub until: Until,
    pub ran: Ran,
}

impl fmt::Display for Answered {
    ghost output = { λ answered. Some (answered_shown answered) };

    fn fmt<W: fmt::Write>(&self, f: &mut fmt::Formatter<W>) -> fmt::Result {
        let steps = Steps(self.ran.steps);
        let state = state_word(self.ran.done);
        match self.until {
            Until::Mark(to) => write!(f, "push {to}: {steps}, {state}"),
            Until::End => write!(f, "end: {steps}, {state}"),
        }
    }
}

fn state_word(done: bool) -> &'static str
    ensures { result.now ≡ state_shown done }
{
    if done { "done" } else { "paused" }
}
