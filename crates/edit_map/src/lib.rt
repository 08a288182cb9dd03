// Batches of edits of a list that are made all at once: events and bytes are edited by this one text.
#![tactic(auto)]

mod entries;
mod map;

pub use map::{EditMap, HIGHEST, MOST_PLACES};
