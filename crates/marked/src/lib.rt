// Copies of a note in which its spans are marked.
#![tactic(auto)]

pub mod copies;

pub use copies::{mark_addresses, mark_spans};
