// The calls of a recorded answer made again, on the proved reader.
ghost use Rattle.std.specs.Prelude.{◌≡◌, IfOk};
ghost use Rattle.punctuation.specs.RangeLists.{range_member};
ghost use Rattle.calls.specs.Calls.{load};
ghost use Rattle.reader.specs.View.{meaning_of, view};
ghost use Rattle.recorded_answers.specs.Agreement.{said};
ghost use Rattle.recorded_answers.specs.Replays.{links_marked, pushes_made, reading, replayed, resolving};
ghost use Rattle.recorded_answers.specs.Sets.{set_numbers};

use crate::answers::Answers;
use crate::lines::RecordedNote;
use crate::records::Push;
use calls::MarkedRun;
use machine::{Event, Ran};
use punctuation::range_lists::RangeList;
use punctuation::sets::PunctuationSet;
use reader::Reader;
use std::alloc::{AllocError, AllocFailed, Global};
use text::Fault;
use thiserror::Error;

#[derive(Clone, Copy, Debug, Error)]
pub enum ReplayError {
    #[error("the reader refuses a call: {0}")]
    Refused(Fault),
    #[error("out of memory")]
    OutOfMemory,
}

impl From<Fault> for ReplayError {
    fn from(fault: Fault) -> ReplayError {
        ReplayError::Refused(fault)
    }
}

impl From<AllocError> for ReplayError {
    fn from(_error: AllocError) -> ReplayError {
        ReplayError::OutOfMemory
    }
}

impl<T: Drop> From<AllocFailed<T>> for ReplayError {
    fn from(_error: AllocFailed<T>) -> ReplayError {
        ReplayError::OutOfMemory
    }
}

// Reads the note of a record with its set, and resolves its links.
pub fn replay(heap: Global, recorded: &RecordedNote) -> Result<Answers, ReplayError>
    ensures { IfOk result (λ a. replayed (range_member (set_numbers recorded.now.set)) recorded.now.note.items recorded.now.pushes.items recorded.now.links.items ≡ Ok (said a)) }
{
    let ranges = recorded.set.ranges(heap)?;
    let mut reader = Reader::new(heap, RangeList::new(&ranges))?;
    read_note(
        heap,
        &mut reader,
        &recorded.note,
        &recorded.pushes,
        &recorded.links,
    )
}

// By the pushes and one end without limit; then the links, and resolving.
fn read_note<S: PunctuationSet>(
    heap: Global,
    reader: &mut Reader<S>,
    note: &[u8],
    pushes: &[Push],
    links: &[MarkedRun],
) -> Result<Answers, ReplayError>
    ensures { IfOk result (λ a. reading (meaning_of reader.old) pushes.now links.now (load (view reader.old) note.now) ≡ Ok (said a)) }
{
    reader.load(note)?;
    let mut runs = push_all(heap, reader, pushes)?;
    let ran = reader.end(u64::MAX)?;
    runs.push(ran)?;
    let events = Vec::from_slice(heap, reader.events())?;
    let resolved = resolve_links(heap, reader, links)?;
    Ok(Answers {
        runs,
        events,
        resolved,
    })
}

fn push_all<S: PunctuationSet>(
    heap: Global,
    reader: &mut Reader<S>,
    pushes: &[Push],
) -> Result<Vec<Ran>, ReplayError>
    ensures answer { IfOk result (λ runs. pushes_made (meaning_of reader.old) (view reader.old) pushes.now ≡ Ok (view reader.new, runs.items)) }
    ensures meaning_stays { meaning_of reader.new ≡ meaning_of reader.old }
{
    let mut runs = Vec::new(heap);
    for push in pushes {
        let ran = reader.push(push.to, push.allowance)?;
        runs.push(ran)?;
    }
    Ok(runs)
}

fn resolve_links<S: PunctuationSet>(
    heap: Global,
    reader: &mut Reader<S>,
    links: &[MarkedRun],
) -> Result<Vec<Event>, ReplayError>
    ensures { IfOk result (λ events. resolving (view reader.old) links.now ≡ Ok events.items) }
{
    mark_all(reader, links)?;
    reader.resolve()?;
    let events = Vec::from_slice(heap, reader.events())?;
    Ok(events)
}

fn mark_all<S: PunctuationSet>(
    reader: &mut Reader<S>,
    links: &[MarkedRun],
) -> Result<(), ReplayError>
    ensures { IfOk result (λ _. links_marked (view reader.old) links.now ≡ Ok (view reader.new)) }
{
    for link in links {
        reader.link(link.first, link.last)?;
    }
    Ok(())
}
