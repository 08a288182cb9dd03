// What the calls of a reader take and answer. What each call does is defined in specs/Calls and specs/Steps; docs/ENGINE.md,
// section 2, says the same in words. What holds at every moment of every list of calls is stated in specs/Moments.
#![tactic(auto)]

pub mod examples;
pub mod links;
pub mod phases;
pub mod room;
pub mod scripts;

pub use links::MarkedRun;
pub use phases::Phase;
pub use scripts::{Call, Reply};
