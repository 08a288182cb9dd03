// Scripts of calls, made on a new reader with the house set, and what is printed of them: docs/FORMATS.md, section 9.
#![tactic(auto)]

pub mod playing;
mod scribe;

pub use playing::play_script;
