// The reader: what a caller holds. It takes a note, reads it in as many parts as the caller likes, and answers events.
#![tactic(auto)]

pub mod reader;
pub mod replaying;

pub use reader::Reader;
pub use replaying::{Watcher, replay};
