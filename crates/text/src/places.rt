// Places in a note: docs/RULES.md, the walk.
ghost use Rattle.std.specs.Prelude.{◌≡◌, ◌+◌, ◌-◌, ◌*◌, ◌<◌, ◌≤◌, length, slice_index};
ghost use Rattle.text.specs.Places.{after_tab, past, place_of, point, point_at, shifted, checked_target, shift_answer, LineCountsLineEndings, TabsFillUp, LeadsToPlaces};

use crate::notes::{LONGEST_NOTE, check_length};
use crate::refusals::Fault;

// A note of nothing but line endings has the highest line, and one of nothing but tabs the highest column.
const HIGHEST_LINE: usize = LONGEST_NOTE + 1;

const HIGHEST_COLUMN: usize = 4 * LONGEST_NOTE + 1;

// A place: line and column from 1, the byte's number from 0, and how many columns of a tab have been shown.
#[derive(Clone, Copy, PartialEq, Eq, Debug)]
pub struct Point {
    pub line: usize,
    pub column: usize,
    pub index: usize,
    pub vs: usize,
}

// Where a note begins.
pub const START: Point = Point {
    line: 1,
    column: 1,
    index: 0,
    vs: 0,
};

impl Point {
    // Moves a point on to the byte `index` of its note, or to the end.
    pub fn shift_to(&self, note: &[u8], index: usize) -> Result<Point, Fault>
        ensures answer { result ≡ shift_answer note.now self.now index }
        ensures leads_to_places { LeadsToPlaces note.now self.now index result }
        ensures line_counts_line_endings { LineCountsLineEndings note.now }
        ensures tabs_fill_up { TabsFillUp note.now }
    {
        let length = check_length(note)?;
        check_target(self, index, length)?;
        Ok(walk(*self, note, index))
    }
}

// Refuses a target before the point or past the end, and a point that no note has.
fn check_target(from: &Point, index: usize, length: usize) -> Result<(), Fault>
    ensures { result ≡ checked_target from.now index length }
{
    if from.index > index
        || index > length
        || from.line > HIGHEST_LINE
        || from.column > HIGHEST_COLUMN
        || from.vs > 0
    {
        return Err(Fault::TargetOutOfRange);
    }
    Ok(())
}

fn walk(from: Point, note: &[u8], index: usize) -> Point
    requires forward { from.index ≤ index }
    requires inside { index ≤ length note.now }
    requires short { length note.now ≤ 1024 }
    requires small { (from.line ≤ 1025) × (from.column ≤ 4097) × (from.vs ≡ 0) }
    ensures shifted { result ≡ shifted note.now from index }
    ensures place { from ≡ point_at note.now from.index → result ≡ point_at note.now index }
    ensures line_counts_line_endings { LineCountsLineEndings note.now }
    ensures tabs_fill_up { TabsFillUp note.now }
{
    let mut next = from;
    for at in from.index..index {
        next = pass(next, note[at], byte_at(note, at + 1));
    }
    next
}

// 0 past the end: no byte of a line ending.
fn byte_at(note: &[u8], index: usize) -> u8
    ensures { result ≡ slice_index note.now index }
{
    note.get(index).copied().unwrap_or(0)
}

// Where the walk goes from a point at the byte `byte`, which stands before `after`.
fn pass(from: Point, byte: u8, after: u8) -> Point
    requires { (from.line < 4096) × (from.column < 16384) × (from.index < 1024) }
    ensures { result ≡ point (past byte after (place_of from)) (from.index + 1) }
{
    let index = from.index + 1;
    match byte {
        b'\r' if after == b'\n' => Point {
            index,
            vs: 0,
            ..from
        },
        b'\r' | b'\n' => Point {
            line: from.line + 1,
            column: 1,
            index,
            vs: 0,
        },
        b'\t' => Point {
            column: next_tab_stop(from.column),
            index,
            vs: 0,
            ..from
        },
        _ => Point {
            column: from.column + 1,
            index,
            vs: 0,
            ..from
        },
    }
}

// The column after a tab.
fn next_tab_stop(column: usize) -> usize
    requires { column < 16384 }
    ensures { result ≡ after_tab column }
{
    4 * ((column + 3) / 4) + 1
}
