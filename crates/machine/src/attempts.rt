// What is tried, and what is put back afterwards: docs/ENGINE.md, section 5.
use crate::cursors::Cursor;
use crate::states::State;

// The cursor, and how many events and open names there are.
#[derive(Clone, Copy)]
pub struct Progress {
    pub cursor: Cursor,
    pub events: usize,
    pub names: usize,
}

// A check always puts back; an attempt does on Nok.
#[derive(Clone, Copy, PartialEq, Eq, Debug)]
pub enum AttemptKind {
    Attempt,
    Check,
}

// The answers that take the place of Ok and of Nok, and what is put back.
#[derive(Clone, Copy)]
pub struct Attempt {
    pub ok: State,
    pub nok: State,
    pub kind: AttemptKind,
    pub progress: Option<Progress>,
}
