// The step machine that reads a note: its parts, its definition, and what holds at every moment of every run.
// The definition stands in specs/ (Cursors, Moves, States, Runs); docs/ENGINE.md says the same in words.
#![tactic(auto)]

pub mod attempts;
pub mod cursors;
pub mod events;
pub mod joins;
pub mod room;
pub mod runs;
pub mod states;
pub mod worked;

pub use attempts::{Attempt, AttemptKind, Progress};
pub use cursors::{Cursor, Registers, Until};
pub use events::{Event, EventKind, Name};
pub use runs::Ran;
pub use states::{State, StateName};
