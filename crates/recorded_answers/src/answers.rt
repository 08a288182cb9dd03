// What a reader answers of a note, and where two such answers differ.
ghost use Rattle.std.specs.Prelude.{◌≡◌, ◌↔◌, IsOk, IsNone, IfErr, IfSome, Decides};
ghost use Rattle.recorded_answers.specs.Agreement.{said, IsFirstUnlike, IsFirstDifference};

use machine::{Event, Ran};
use thiserror::Error;

// What each push and the end answered, in turn, the events once the end is done, and those once links and mail are resolved.
#[derive(Drop)]
pub struct Answers {
    pub runs: Vec<Ran>,
    pub events: Vec<Event>,
    pub resolved: Vec<Event>,
}

// A place in two lists, from 0, and what each has there.
#[derive(Clone, Copy, Debug)]
pub struct Unlike<T> {
    pub place: usize,
    pub recorded: Option<T>,
    pub given: Option<T>,
}

#[derive(Clone, Copy, Debug, Error)]
pub enum Difference {
    #[error("call {}: {:?} is recorded, {:?} given", .0.place, .0.recorded, .0.given)]
    Run(Unlike<Ran>),
    #[error("event {}: {:?} is recorded, {:?} given", .0.place, .0.recorded, .0.given)]
    Event(Unlike<Event>),
    #[error("resolved event {}: {:?} is recorded, {:?} given", .0.place, .0.recorded, .0.given)]
    Resolved(Unlike<Event>),
}

// Accepts equal answers; otherwise tells the first call that answered something else, or else the first other event at the
// end, or else the first other resolved event.
pub fn check_agreement(recorded: &Answers, given: &Answers) -> Result<(), Difference>
    ensures agree { IsOk result ↔ (said recorded.now ≡ said given.now) }
    ensures first { IfErr result (λ d. IsFirstDifference (said recorded.now) (said given.now) d) }
{
    if let Some(unlike) = first_unlike(&recorded.runs, &given.runs) {
        return Err(Difference::Run(unlike));
    }
    if let Some(unlike) = first_unlike(&recorded.events, &given.events) {
        return Err(Difference::Event(unlike));
    }
    if let Some(unlike) = first_unlike(&recorded.resolved, &given.resolved) {
        return Err(Difference::Resolved(unlike));
    }
    Ok(())
}

// The first place where two lists differ, or where one of them has ended.
fn first_unlike<T: PartialEq + Copy>(recorded: &[T], given: &[T]) -> Option<Unlike<T>>
    requires exact { (x y : T) → Decides (T.eq x y) (x ≡ y) }
    ensures equal { IsNone result ↔ (recorded.now ≡ given.now) }
    ensures first { IfSome result (λ u. IsFirstUnlike recorded.now given.now u) }
{
    for place in 0..recorded.len().max(given.len()) {
        let unlike = Unlike {
            place,
            recorded: recorded.get(place).copied(),
            given: given.get(place).copied(),
        };
        if unlike.recorded != unlike.given {
            return Some(unlike);
        }
    }
    None
}
