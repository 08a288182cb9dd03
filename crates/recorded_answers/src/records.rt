// What a line of the list records, written as numbers: compare/README.md, the fixed list.
ghost use Rattle.std.specs.Prelude.{◌≡◌, ℕ, List, ◌∷◌, ◌++◌, length, IfOk};
ghost use Rattle.std.specs.List.{flat_map};
ghost use Rattle.recorded_answers.specs.Format.{done_number, kind_number, name_number, push_numbers, ran_numbers, event_numbers, link_numbers, counted_numbers};

use crate::lines::LineError;
use calls::MarkedRun;
use machine::{Event, EventKind, Name, Ran};
use std::alloc::Global;
use text::{Point, SpanKind};

// How far a push goes, and how many state calls it may make.
#[derive(Clone, Copy)]
pub struct Push {
    pub to: usize,
    pub allowance: u64,
}

// What stands in a line as a few numbers.
pub trait Listed: Sized {
    ghost numbers: { Self → List ℕ };

    // Reads one from the front of a line's numbers, and tells which are left.
    fn read(line: &[u64]) -> Result<(Self, &[u64]), LineError>
        ensures { IfOk result (λ x. numbers x.0 ++ x.1.now ≡ line.now) };
}

impl Listed for Push {
    ghost numbers = { push_numbers };

    fn read(line: &[u64]) -> Result<(Push, &[u64]), LineError> {
        let [to, allowance, rest @ ..] = line else {
            return Err(LineError::TooFewNumbers);
        };
        let push = Push {
            to: *to as usize,
            allowance: *allowance,
        };
        Ok((push, rest))
    }
}

impl Listed for Ran {
    ghost numbers = { ran_numbers };

    fn read(line: &[u64]) -> Result<(Ran, &[u64]), LineError> {
        let [steps, done, rest @ ..] = line else {
            return Err(LineError::TooFewNumbers);
        };
        let ran = Ran {
            steps: *steps,
            done: parse_done(*done)?,
        };
        Ok((ran, rest))
    }
}

impl Listed for MarkedRun {
    ghost numbers = { link_numbers };

    fn read(line: &[u64]) -> Result<(MarkedRun, &[u64]), LineError> {
        let [first, last, rest @ ..] = line else {
            return Err(LineError::TooFewNumbers);
        };
        let link = MarkedRun {
            first: *first as usize,
            last: *last as usize,
        };
        Ok((link, rest))
    }
}

impl Listed for Event {
    ghost numbers = { event_numbers };

    fn read(line: &[u64]) -> Result<(Event, &[u64]), LineError> {
        let [kind, name, line_number, column, index, vs, rest @ ..] = line else {
            return Err(LineError::TooFewNumbers);
        };
        let event = Event {
            kind: parse_kind(*kind)?,
            name: parse_name(*name)?,
            point: Point {
                line: *line_number as usize,
                column: *column as usize,
                index: *index as usize,
                vs: *vs as usize,
            },
        };
        Ok((event, rest))
    }
}

// So many of a kind, one after another, and what is left.
pub fn read_all<T: Listed + Drop>(
    heap: Global,
    line: &[u64],
    count: u64,
) -> Result<(Vec<T>, &[u64]), LineError>
    ensures numbers { IfOk result (λ x. flat_map T.numbers x.0.items ++ x.1.now ≡ line.now) }
    ensures count { IfOk result (λ x. length x.0.items ≡ count) }
{
    let mut all = Vec::new(heap);
    let mut left = line;
    for _ in 0..count {
        let (one, rest) = T::read(left)?;
        all.push(one)?;
        left = rest;
    }
    Ok((all, left))
}

// How many there are of a kind, these, and what is left.
pub fn read_counted<T: Listed + Drop>(
    heap: Global,
    line: &[u64],
) -> Result<(Vec<T>, &[u64]), LineError>
    ensures { IfOk result (λ x. counted_numbers T.numbers x.0.items ++ x.1.now ≡ line.now) }
{
    let [count, rest @ ..] = line else {
        return Err(LineError::TooFewNumbers);
    };
    read_all(heap, rest, *count)
}

fn parse_done(number: u64) -> Result<bool, LineError>
    ensures { IfOk result (λ done. done_number done ≡ number) }
{
    match number {
        0 => Ok(false),
        1 => Ok(true),
        _ => Err(LineError::NoSuchEnding(number)),
    }
}

fn parse_kind(number: u64) -> Result<EventKind, LineError>
    ensures { IfOk result (λ kind. kind_number kind ≡ number) }
{
    match number {
        0 => Ok(EventKind::Enter),
        1 => Ok(EventKind::Exit),
        _ => Err(LineError::NoSuchKind(number)),
    }
}

fn parse_name(number: u64) -> Result<Name, LineError>
    ensures { IfOk result (λ name. name_number name ≡ number) }
{
    match number {
        0 => Ok(Name::Data),
        1 => Ok(Name::LineEnding),
        2 => Ok(Name::Link),
        3 => Ok(Name::Address(SpanKind::Www)),
        4 => Ok(Name::Address(SpanKind::Protocol)),
        5 => Ok(Name::Address(SpanKind::Email)),
        6 => Ok(Name::Address(SpanKind::Mailto)),
        7 => Ok(Name::Address(SpanKind::Xmpp)),
        _ => Err(LineError::NoSuchName(number)),
    }
}
