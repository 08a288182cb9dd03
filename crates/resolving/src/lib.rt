// What an ended event list becomes when it is resolved: docs/ENGINE.md, section 9. Links are put in, then mail is cut out of
// the data outside them. Each is a batch of edits, made all at once.
#![tactic(auto)]

pub mod batches;
pub mod buffer;
pub mod links;
pub mod mail;
pub mod resolver;

pub use resolver::Resolver;
