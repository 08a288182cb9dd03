// Characters: which one stands at a place of some bytes, how many bytes it has, those of all places, and whether one is white space.
#![tactic(auto)]

pub mod char_indices;
pub mod utf8;
pub mod white_space;
pub mod widths;
