// What every other part rests on: the refusals, the spans that the rules name, places, and the classes of bytes.
#![tactic(auto)]

pub mod ascii;
pub mod displays;
pub mod lent;
pub mod notes;
pub mod places;
pub mod refusals;
pub mod spans;

pub use places::Point;
pub use refusals::Fault;
pub use spans::{Span, SpanKind};
