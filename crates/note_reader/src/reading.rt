// A note read as it is asked, and what comes out of it as numbers.
use crate::failures::Failure;
use crate::numbers::Numbers;
use machine::Ran;
use punctuation::kinds::{CharacterKind, kind_after_index};
use punctuation::range_lists::{RangeList, house_set};
use reader::Reader;
use std::alloc::Global;
use text::Fault;
use text::lent::check_room;

// What came of a note: the steps of the push and the end, and how many events there are then.
#[derive(Clone, Copy)]
#[repr(C)]
pub struct Reading {
    pub steps: u64,
    pub events: u64,
}

pub fn read_all(heap: Global, note: &[u8]) -> Result<Reading, Failure> {
    let mut reader = Reader::new(heap, house_set())?;
    reader.load(note)?;
    let pushed = reader.push(note.len(), u64::MAX)?;
    let ended = reader.end(u64::MAX)?;
    Ok(Reading {
        steps: pushed.steps.saturating_add(ended.steps),
        events: reader.event_count() as u64,
    })
}

fn put_ran(out: &mut Numbers<'_>, ran: Ran) -> Result<(), Fault> {
    out.put(ran.steps)?;
    out.put(u64::from(ran.done))
}

fn push_all(
    reader: &mut Reader<RangeList<'_>>,
    pushes: &[u64],
    out: &mut Numbers<'_>,
) -> Result<(), Fault> {
    let (pairs, _) = pushes.as_chunks::<2>();
    for [to, allowance] in pairs {
        let ran = reader.push(*to as usize, *allowance)?;
        put_ran(out, ran)?;
    }
    Ok(())
}

fn put_events(reader: &Reader<RangeList<'_>>, out: &mut Numbers<'_>) -> Result<(), Fault> {
    out.put(reader.event_count() as u64)?;
    for event in reader.events() {
        out.put_event(*event)?;
    }
    Ok(())
}

fn mark_all(reader: &mut Reader<RangeList<'_>>, links: &[u64]) -> Result<(), Fault> {
    let (pairs, _) = links.as_chunks::<2>();
    for [first, last] in pairs {
        reader.link(*first as usize, *last as usize)?;
    }
    Ok(())
}

// The pushes (pairs of `to` and allowance) and one end without limit: what each answers, then the events. Then the links (pairs of
// the first and the last event) marked in turn, and the resolved events.
pub fn read_in_parts(
    heap: Global,
    note: &[u8],
    ranges: &[u32],
    pushes: &[u64],
    links: &[u64],
    out: &mut [u64],
) -> Result<usize, Failure> {
    let mut reader = Reader::new(heap, RangeList::new(ranges))?;
    reader.load(note)?;
    let mut numbers = Numbers { out, used: 0 };
    push_all(&mut reader, pushes, &mut numbers)?;
    let ran = reader.end(u64::MAX)?;
    put_ran(&mut numbers, ran)?;
    put_events(&reader, &mut numbers)?;
    mark_all(&mut reader, links)?;
    reader.resolve()?;
    put_events(&reader, &mut numbers)?;
    Ok(numbers.used)
}

// Kept: these numbers are the C interface's.
fn character_code(kind: CharacterKind) -> u8 {
    match kind {
        CharacterKind::Whitespace => 0,
        CharacterKind::Punctuation => 1,
        CharacterKind::Other => 2,
    }
}

// The kind at each place, the end among them.
pub fn put_kinds(note: &[u8], ranges: &[u32], out: &mut [u8]) -> Result<usize, Failure> {
    let places = check_room(note.len().saturating_add(1), out.len())?;
    let mut set = RangeList::new(ranges);
    for (index, code) in out[..places].iter_mut().enumerate() {
        *code = character_code(kind_after_index(note, index, &mut set));
    }
    Ok(places)
}
