// Where the machine stands in the note, what it counts there, and how far it may go: docs/ENGINE.md, sections 3 and 8.
ghost use Rattle.std.specs.Prelude.{◌≡◌};
ghost use Rattle.machine.specs.Runs.{at_start, cleared, limit, may_show};

use text::Point;
use text::places::START;

// The point, the byte consumed last as it was shown, and the byte shown: none at the end.
#[derive(Clone, Copy)]
pub struct Cursor {
    pub point: Point,
    pub previous: Option<u8>,
    pub current: Option<u8>,
}

impl Cursor {
    // In front of the first byte, with nothing shown.
    pub fn new() -> Cursor
        ensures { result ≡ at_start }
    {
        Cursor {
            point: START,
            previous: None,
            current: None,
        }
    }
}

// What the states note down. Registers are never put back.
#[derive(Clone, Copy, Default)]
pub struct Registers {
    // `w` or `/` of a prefix, or `(` of a path
    pub size: usize,
    // `)` of a path
    pub size_b: usize,
    // whether the domain has a byte that is no joint
    pub seen: bool,
    // whether the last part of the domain has a `_`
    pub marker: bool,
    // the same of the part before it
    pub marker_b: bool,
    // where the name of a protocol begins
    pub start: usize,
}

impl Registers {
    pub fn new() -> Registers
        ensures { result ≡ cleared }
    {
        Registers::default()
    }
}

// How far a run reads: the bytes before a mark, or all bytes and the end.
// Kept: an Option of the mark would name neither case, and could not have the two methods.
#[derive(Clone, Copy)]
pub enum Until {
    Mark(usize),
    End,
}

impl Until {
    // Of a note of `length` bytes, those before the limit may be read.
    pub fn limit(self, length: usize) -> usize
        ensures { result ≡ limit self length }
    {
        match self {
            Until::Mark(to) => to,
            Until::End => length,
        }
    }

    // Whether what is at the byte `index`, or at the end, may be shown.
    pub fn may_show(self, index: usize) -> bool
        ensures { result ≡ may_show self index }
    {
        match self {
            Until::Mark(to) => index < to,
            Until::End => true,
        }
    }
}
