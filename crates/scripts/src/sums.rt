// What a list of calls has done in all.
ghost use Rattle.std.specs.Prelude.{◌≡◌, ◌+◌, ◌^◌, ◌<◌, ◌≤◌, length, Some};
ghost use Rattle.calls.specs.Moments.{Told, told, nothing, telling};
ghost use Rattle.scripts.specs.Sums.{standing, standing_shown, state_shown, sum_of, sum_shown};

use crate::answers::{Answer, is_done};
use crate::counts::Counted;
use calls::Call;
use std::fmt;

// What the calls and their answers tell, since the last clear.
#[derive(Clone, Copy)]
pub struct Standing {
    // of the note that is loaded
    pub bytes: usize,
    pub links: usize,
    pub ended: bool,
    pub resolved: bool,
}

impl Standing {
    const NOTHING: Standing = Standing {
        bytes: 0,
        links: 0,
        ended: false,
        resolved: false,
    };

    // After one more call, which got this answer.
    fn after(self, call: &Call<'_>, answer: Answer) -> Standing
        requires { self.links < 2 ^ 63 }
        ensures { (t : Told) → self ≡ standing t → result ≡ standing (telling t call.now answer) }
    {
        match call {
            Call::Load(note) if answer.is_ok() => Standing {
                bytes: note.len(),
                ..self
            },
            Call::End { .. } if is_done(answer) => Standing {
                ended: true,
                ..self
            },
            Call::Link { .. } if answer.is_ok() => Standing {
                links: self.links + 1,
                ..self
            },
            Call::Resolve if answer.is_ok() => Standing {
                resolved: true,
                ..self
            },
            Call::Clear => Standing::NOTHING,
            _ => self,
        }
    }

    // After these calls, which got these answers.
    fn after_all(calls: &[Call<'_>], mut answers: &[Answer]) -> Standing
        ensures { result ≡ standing (told nothing calls.now answers.entry.now) }
    {
        let mut standing = Standing::NOTHING;
        for call in calls {
            let [answer, rest @ ..] = answers else {
                return standing;
            };
            standing = standing.after(call, *answer);
            answers = rest;
        }
        standing
    }
}

// How many calls there were, how many of them were accepted, what they tell, and how many events are held then.
#[derive(Clone, Copy)]
pub struct Sum {
    pub calls: usize,
    pub accepted: usize,
    pub refused: usize,
    pub standing: Standing,
    pub events: usize,
}

impl Sum {
    pub fn new(calls: &[Call<'_>], answers: &[Answer], events: usize) -> Sum
        ensures { result ≡ sum_of calls.now answers.now events }
    {
        let accepted = answers.iter().filter(|answer| answer.is_ok()).count();
        Sum {
            calls: calls.len(),
            accepted,
            refused: answers.len() - accepted,
            standing: Standing::after_all(calls, answers),
            events,
        }
    }
}

impl fmt::Display for Sum {
    ghost output = { λ sum. Some (sum_shown sum) };

    fn fmt<W: fmt::Write>(&self, f: &mut fmt::Formatter<W>) -> fmt::Result {
        let calls = Counted {
            count: self.calls as u64,
            noun: "call",
        };
        let accepted = self.accepted;
        let refused = self.refused;
        let standing = self.standing;
        let events = Counted {
            count: self.events as u64,
            noun: "event",
        };
        write!(
            f,
            "{calls}, {accepted} accepted, {refused} refused; {standing}; {events}"
        )
    }
}

impl fmt::Display for Standing {
    ghost output = { λ standing. Some (standing_shown standing) };

    fn fmt<W: fmt::Write>(&self, f: &mut fmt::Formatter<W>) -> fmt::Result {
        let bytes = Counted {
            count: self.bytes as u64,
            noun: "byte",
        };
        let links = Counted {
            count: self.links as u64,
            noun: "link",
        };
        let state = state_word(*self);
        write!(f, "note of {bytes}, {links}, {state}")
    }
}

fn state_word(standing: Standing) -> &'static str
    ensures { result.now ≡ state_shown standing }
{
    if standing.resolved {
        "resolved"
    } else if standing.ended {
        "ended"
    } else {
        "not ended"
    }
}
