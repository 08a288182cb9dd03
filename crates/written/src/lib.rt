// The written forms of what a reader holds: the saved list, the marked copy, and the listing: docs/FORMATS.md, sections 1 to 5.
#![tactic(auto)]

mod copies;
pub mod examples;
pub mod forms;
mod fronts;
pub mod lines;
mod listing;
mod numbers;
mod saved;
mod spans;

pub use forms::{listing_lines, marked_copy, saved_list};
