// The tokenizer: a note with a place in it, the state, and the tables; and the moves that states are made of.
// Each move is equal to the move of the same meaning in the definition of the machine (`machine/specs`); `specs/View` says which
// machine a tokenizer is.
#![tactic(auto)]

pub mod attempts;
pub mod event_table;
pub mod joining;
pub mod links;
pub mod loading;
pub mod moves;
pub mod settling;
pub mod showing;
pub mod table;
pub mod tokenizer;

pub use tokenizer::Tokenizer;
