// The attempt engine: a tokenizer with a punctuation set, and its states.
#![tactic(auto)]

pub mod bytes;
pub mod engine;
pub mod state;

pub use engine::Engine;
