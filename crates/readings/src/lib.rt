// A whole note read by a reader with the house set: in pieces and with pauses, as a plan says.
#![tactic(auto)]

pub mod lines;
pub mod plans;
pub mod reading;

pub use lines::{Answered, Steps};
pub use plans::Plan;
pub use reading::{HouseReader, read_through};
