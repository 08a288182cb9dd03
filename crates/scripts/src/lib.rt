// Scripts: lists of calls written as text, a call a line, and the text that tells what the calls answered. docs/FORMATS.md,
// section 9, has the format.
#![tactic(auto)]

pub mod answers;
pub mod commands;
pub mod counts;
pub mod errors;
pub mod examples;
mod keywords;
pub mod lines;
pub mod parsing;
mod quotes;
pub mod report;
pub mod sums;
mod texts;
mod words;
