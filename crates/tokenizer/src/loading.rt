// A new tokenizer, and one that begins anew.
ghost use Rattle.std.specs.Prelude.{◌≡◌, ◌≤◌, [], length, IfOk};
ghost use Rattle.machine.specs.Runs.{beginning};
ghost use Rattle.tokenizer.specs.View.{machine};

use crate::table::Table;
use crate::tokenizer::Tokenizer;
use machine::{Cursor, Registers, State, StateName};
use std::alloc::{AllocError, Global};
use text::notes::LONGEST_NOTE;

impl Tokenizer {
    // Reserves all memory that the tokenizer will ever have.
    #[tactic(auto, unfolding(crate::specs::Stack::stack))]
    pub fn new(heap: Global) -> Result<Tokenizer, AllocError>
        ensures { IfOk result (λ t. machine t ≡ beginning []) }
    {
        let note = Vec::with_capacity(heap, LONGEST_NOTE)?;
        let attempts = Table::new(heap)?;
        let events = Table::new(heap)?;
        let names = Table::new(heap)?;
        Ok(Tokenizer {
            note,
            state: State::Next(StateName::Before),
            cursor: Cursor::new(),
            registers: Registers::new(),
            attempts,
            events,
            names,
        })
    }

    fn set_note(&mut self, note: &[u8])
        requires { length note.now ≤ LONGEST_NOTE }
        ensures note { self.new.note.items ≡ note.now }
    {
        self.note.clear();
        self.note.extend_from_slice(note).unwrap();
    }

    // Begins anew with this note.
    #[tactic(auto, unfolding(crate::specs::Stack::stack))]
    pub fn restart(&mut self, note: &[u8])
        requires { length note.now ≤ LONGEST_NOTE }
        ensures { machine self.new ≡ beginning note.now }
    {
        self.set_note(note);
        self.state = State::Next(StateName::Before);
        self.cursor = Cursor::new();
        self.registers = Registers::new();
        self.attempts.clear();
        self.events.clear();
        self.names.clear();
    }
}
