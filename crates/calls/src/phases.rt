// How far a reader has come with its note: docs/ENGINE.md, section 2.
ghost use Rattle.std.specs.Prelude.{◌≡◌};
ghost use Rattle.calls.specs.Calls.{is_empty, is_loaded, is_over};
ghost use Rattle.calls.specs.Steps.{is_ended, is_resolved};

#[derive(Clone, Copy, PartialEq, Eq, Debug)]
pub enum Phase {
    Empty,
    Loaded,
    Ending,
    Ended,
    Resolved,
}

impl Phase {
    // No note is held.
    pub fn is_empty(self) -> bool
        ensures { result ≡ is_empty self }
    {
        self == Phase::Empty
    }

    // Bytes may be pushed.
    pub fn is_loaded(self) -> bool
        ensures { result ≡ is_loaded self }
    {
        self == Phase::Loaded
    }

    // The end was done, and nothing resolved since.
    pub fn is_ended(self) -> bool
        ensures { result ≡ is_ended self }
    {
        self == Phase::Ended
    }

    // Links and mail were resolved.
    pub fn is_resolved(self) -> bool
        ensures { result ≡ is_resolved self }
    {
        self == Phase::Resolved
    }

    // The end was done.
    pub fn is_over(self) -> bool
        ensures { result ≡ is_over self }
    {
        matches!(self, Phase::Ended | Phase::Resolved)
    }
}
