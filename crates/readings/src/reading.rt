// A note read by a plan.
ghost use Rattle.std.specs.Prelude.{◌≡◌, ◌<◌, ◌≤◌, length, Ok, IfOk, OnOk};
ghost use Rattle.punctuation.specs.RangeLists.{house};
ghost use Rattle.calls.specs.Calls.{new};
ghost use Rattle.reader.specs.View.{meaning_of, view};
ghost use Rattle.readings.specs.Readings.{called, next_target, Accepts, ReadThrough};

use crate::lines::Answered;
use crate::plans::Plan;
use machine::{Ran, Until};
use punctuation::RangeList;
use reader::Reader;
use std::alloc::{AllocError, Global};

pub type HouseReader = Reader<RangeList<'static>>;

// Reads the whole note, and tells each call that it took.
pub fn read_through(
    heap: Global,
    reader: &mut HouseReader,
    note: &[u8],
    plan: Plan,
) -> Result<Vec<Answered>, AllocError>
    requires new { view reader.old ≡ new }
    requires meaning { meaning_of reader.old ≡ house }
    requires short { length note.now ≤ 1024 }
    ensures read { IfOk result (λ calls. ReadThrough plan note.now calls.items (view reader.new)) }
    ensures meaning_stays { OnOk result (meaning_of reader.new ≡ house) }
{
    reader.load(note).unwrap();
    let mut calls = Vec::new(heap);
    let mut until = Until::Mark(note.len().min(plan.piece.get()));
    // This ends: a paused call has made a step or more of those that the note takes, which are finitely many, and after a
    // call that is done comes one that goes further.
    loop {
        let ran = read_on(reader, until, plan.allowance.get());
        calls.push(Answered { until, ran })?;
        if ran.done {
            match next_target(until, note.len(), plan.piece.get()) {
                Some(next) => until = next,
                None => return Ok(calls),
            }
        }
    }
}

fn read_on(reader: &mut HouseReader, until: Until, allowance: u64) -> Ran
    requires allowed { 0 < allowance }
    requires accepted { Accepts until (view reader.old) }
    requires meaning { meaning_of reader.old ≡ house }
    ensures answer { (view reader.new, Ok result) ≡ called until (view reader.old) allowance }
    ensures meaning_stays { meaning_of reader.new ≡ house }
{
    match until {
        Until::Mark(to) => reader.push(to, allowance),
        Until::End => reader.end(allowance),
    }
    .unwrap()
}

// How far the next call reads, after one to `until` is done.
fn next_target(until: Until, length: usize, piece: usize) -> Option<Until>
    requires { length ≤ 1024 }
    ensures { result ≡ next_target until length piece }
{
    match until {
        Until::Mark(to) if to < length => Some(Until::Mark(to.saturating_add(piece).min(length))),
        Until::Mark(_) => Some(Until::End),
        Until::End => None,
    }
}
