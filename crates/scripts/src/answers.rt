// What a reader answers, as it is told.
ghost use Rattle.std.specs.Prelude.{◌≡◌, Some};
ghost use Rattle.calls.specs.Moments.{done};
ghost use Rattle.scripts.specs.Answers.{answer_shown, state_shown};

use crate::counts::Counted;
use calls::Reply;
use std::fmt;
use text::Fault;

// What a call is answered.
pub type Answer = Result<Reply, Fault>;

// A push or an end that was done.
pub fn is_done(answer: Answer) -> bool
    ensures { result ≡ done answer }
{
    matches!(answer, Ok(Some(ran)) if ran.done)
}

// An answer as it is told.
#[derive(Clone, Copy)]
pub struct Answered(pub Answer);

impl fmt::Display for Answered {
    ghost output = { λ answer. Some (answer_shown answer.0) };

    fn fmt<W: fmt::Write>(&self, f: &mut fmt::Formatter<W>) -> fmt::Result {
        match self.0 {
            Ok(None) => f.write_str("accepted"),
            Ok(Some(ran)) => {
                let steps = Counted {
                    count: ran.steps,
                    noun: "step",
                };
                let state = state_word(ran.done);
                write!(f, "{steps}, {state}")
            }
            Err(fault) => write!(f, "{fault}"),
        }
    }
}

fn state_word(done: bool) -> &'static str
    ensures { result.now ≡ state_shown done }
{
    if done { "done" } else { "paused" }
}
