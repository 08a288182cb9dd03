// What a run of state calls answers: docs/ENGINE.md, section 8.

// The state calls made, and whether none is due any more. Where one is, the run paused.
// Kept: `done` is no flag for a value that may be missing: each run answers its steps.
#[derive(Clone, Copy, PartialEq, Eq, Debug)]
pub struct Ran {
    pub steps: u64,
    pub done: bool,
}
