// Marked runs of events: docs/ENGINE.md, section 9.

// The events number `first` to `last` of an ended list, marked as one link.
#[derive(Clone, Copy, PartialEq, Eq, Debug)]
pub struct MarkedRun {
    pub first: usize,
    pub last: usize,
}
