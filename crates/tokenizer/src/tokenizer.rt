// What the tokenizer holds. All its tables are reserved once, so no move allocates.
ghost use Rattle.std.specs.Prelude.{◌≤◌, vec_len, vec_capacity};
ghost use Rattle.text.specs.declared.notes.TheConstants.{LONGEST_NOTE};

use crate::attempts::Attempts;
use crate::event_table::EventTable;
use crate::table::Table;
use machine::{Cursor, Name, Registers, State};
use text::notes::LONGEST_NOTE;

// Open names: one when a state is called, and a state opens at most one more.
pub const NAMES_ROOM: usize = 2;

#[derive(Drop)]
pub struct Tokenizer {
    // Kept: a Vec and no Table, since it is filled as a whole, and never item by item.
    pub note: Vec<u8>,
    pub state: State,
    pub cursor: Cursor,
    pub registers: Registers,
    pub attempts: Attempts,
    pub events: EventTable,
    pub names: Table<Name, NAMES_ROOM>,
    ghost short: { vec_len note ≤ LONGEST_NOTE },
    ghost reserved: { LONGEST_NOTE ≤ vec_capacity note },
}
