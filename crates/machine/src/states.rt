// The states of the machine, and what a state call answers: docs/ENGINE.md, sections 3, 6 and 7.

// The four text states, then those of a protocol, of `www.`, of a domain, a path and a trail.
#[derive(Clone, Copy)]
pub enum StateName {
    Before,
    Line,
    Data,
    Inside,
    ProtocolStart,
    ProtocolPrefixInside,
    ProtocolSlashesInside,
    ProtocolAfter,
    WwwStart,
    WwwPrefixInside,
    WwwPrefixAfter,
    WwwAfter,
    DomainInside,
    DomainAtPunctuation,
    DomainAfter,
    PathInside,
    PathAtPunctuation,
    PathAfter,
    Trail,
    TrailBracketAfter,
    TrailCharRefStart,
    TrailCharRefInside,
}

// What a state call answers: which state comes next, and whether it is shown the byte at the point anew;
// or that what was tried is there, or is not.
#[derive(Clone, Copy)]
pub enum State {
    Next(StateName),
    Retry(StateName),
    Ok,
    Nok,
}
