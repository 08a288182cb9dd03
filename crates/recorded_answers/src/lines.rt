// Lines of the list: compare/README.md, the fixed list. A line is a note and then numbers, read from left to right.
ghost use Rattle.std.specs.Prelude.{◌≡◌, ◌+◌, drop, length, IfOk};
ghost use Rattle.hex.specs.Hex.{decode_of};
ghost use Rattle.recorded_answers.specs.Agreement.{said};
ghost use Rattle.recorded_answers.specs.Format.{set_number, answer_numbers, line_numbers};

use crate::answers::Answers;
use crate::records::{Listed, Push, read_all, read_counted};
use crate::sets::ListedSet;
use calls::MarkedRun;
use hex::FromHexError;
use machine::Ran;
use std::alloc::{AllocError, AllocFailed, Global};
use thiserror::Error;

// How a note was read, which links were marked, and what was answered.
#[derive(Drop)]
pub struct RecordedNote {
    pub note: Vec<u8>,
    pub set: ListedSet,
    pub pushes: Vec<Push>,
    pub links: Vec<MarkedRun>,
    pub answers: Answers,
}

// What is wrong with a line.
#[derive(Clone, Copy, Debug, PartialEq, Eq, Error)]
pub enum LineError {
    #[error("the first word is no note in hexadecimal")]
    BadNote,
    #[error("a word is no number")]
    BadNumber,
    #[error("there are too few numbers")]
    TooFewNumbers,
    #[error("there are too many numbers")]
    TooManyNumbers,
    #[error("no set has the number {0}")]
    NoSuchSet(u64),
    #[error("{0} is neither done nor paused")]
    NoSuchEnding(u64),
    #[error("no kind of events has the number {0}")]
    NoSuchKind(u64),
    #[error("no name has the number {0}")]
    NoSuchName(u64),
    #[error("out of memory")]
    OutOfMemory,
}

impl From<AllocError> for LineError {
    fn from(_error: AllocError) -> LineError {
        LineError::OutOfMemory
    }
}

impl<T: Drop> From<AllocFailed<T>> for LineError {
    fn from(_error: AllocFailed<T>) -> LineError {
        LineError::OutOfMemory
    }
}

impl From<FromHexError> for LineError {
    fn from(error: FromHexError) -> LineError {
        match error {
            FromHexError::OutOfMemory => LineError::OutOfMemory,
            _ => LineError::BadNote,
        }
    }
}

pub fn parse_line(heap: Global, line: &str) -> Result<RecordedNote, LineError> {
    let (word, numbers) = line.split_once(' ').ok_or(LineError::TooFewNumbers)?;
    let note = parse_note(heap, word)?;
    let numbers = parse_numbers(heap, numbers)?;
    parse_record(heap, note, &numbers)
}

fn parse_note(heap: Global, word: &str) -> Result<Vec<u8>, LineError>
    ensures { IfOk result (λ note. decode_of (drop 1 word.now) ≡ Ok note.items) }
{
    let digits = word.strip_prefix('x').ok_or(LineError::BadNote)?;
    let note = hex::decode(heap, digits)?;
    Ok(note)
}

fn parse_numbers(heap: Global, words: &str) -> Result<Vec<u64>, LineError> {
    words.split(' ').map(parse_number).try_collect(heap)
}

fn parse_number(word: &str) -> Result<u64, LineError> {
    word.parse::<u64>().or(Err(LineError::BadNumber))
}

// The note, and what the numbers behind it say.
fn parse_record(heap: Global, note: Vec<u8>, numbers: &[u64]) -> Result<RecordedNote, LineError>
    ensures numbers { IfOk result (λ r. line_numbers r ≡ numbers.now) }
    ensures runs { IfOk result (λ r. length r.answers.runs.items ≡ length r.pushes.items + 1) }
    ensures note { IfOk result (λ r. r.note ≡ note) }
{
    let [set, rest @ ..] = numbers else {
        return Err(LineError::TooFewNumbers);
    };
    let set = parse_set(*set)?;
    let (pushes, rest) = read_counted(heap, rest)?;
    let (links, rest) = read_counted(heap, rest)?;
    let [answer_count, rest @ ..] = rest else {
        return Err(LineError::TooFewNumbers);
    };
    check_count(rest, *answer_count)?;
    let answers = parse_answers(heap, rest, pushes.len() as u64)?;
    Ok(RecordedNote {
        note,
        set,
        pushes,
        links,
        answers,
    })
}

// The answer of the end stands behind those of the pushes.
fn parse_answers(heap: Global, numbers: &[u64], push_count: u64) -> Result<Answers, LineError>
    ensures numbers { IfOk result (λ a. answer_numbers (said a) ≡ numbers.now) }
    ensures runs { IfOk result (λ a. length a.runs.items ≡ push_count + 1) }
{
    let (mut runs, rest) = read_all(heap, numbers, push_count)?;
    let (end, rest) = Ran::read(rest)?;
    runs.push(end)?;
    let (events, rest) = read_counted(heap, rest)?;
    let (resolved, rest) = read_counted(heap, rest)?;
    check_count(rest, 0)?;
    Ok(Answers {
        runs,
        events,
        resolved,
    })
}

fn check_count(numbers: &[u64], count: u64) -> Result<(), LineError>
    ensures { IfOk result (λ _. length numbers.now ≡ count) }
{
    let length = numbers.len() as u64;
    if length < count {
        return Err(LineError::TooFewNumbers);
    }
    if length > count {
        return Err(LineError::TooManyNumbers);
    }
    Ok(())
}

fn parse_set(number: u64) -> Result<ListedSet, LineError>
    ensures { IfOk result (λ set. set_number set ≡ number) }
{
    match number {
        0 => Ok(ListedSet::Empty),
        1 => Ok(ListedSet::House),
        2 => Ok(ListedSet::Replacement),
        3 => Ok(ListedSet::Many),
        _ => Err(LineError::NoSuchSet(number)),
    }
}
