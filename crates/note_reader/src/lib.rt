// The reader for C and Rust: `rt lib` in this crate's folder makes out/libnote_reader.a with these functions.
// They serve comparing and measuring (compare/): what they read is proved, what they hand out is only checked by running.
#![tactic(auto)]

pub mod exports;
pub mod failures;
pub mod numbers;
pub mod reading;
