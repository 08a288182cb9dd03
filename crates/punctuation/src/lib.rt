// Punctuation sets, and the kinds of characters that they tell.
#![tactic(auto)]

pub mod displays;
pub mod kinds;
pub mod range_lists;
pub mod sets;

pub use kinds::CharacterKind;
pub use range_lists::RangeList;
pub use sets::{Either, EmptySet, PunctuationSet};
