// What the machine finds: docs/ENGINE.md, section 1.
use text::{Point, SpanKind};

#[derive(Clone, Copy, PartialEq, Eq, Debug)]
pub enum EventKind {
    Enter,
    Exit,
}

// What a span of events is. A Link is marked by the caller; the machine makes none.
#[derive(Clone, Copy, PartialEq, Eq, Debug)]
pub enum Name {
    Data,
    LineEnding,
    Link,
    Address(SpanKind),
}

#[derive(Clone, Copy, PartialEq, Eq, Debug)]
pub struct Event {
    pub kind: EventKind,
    pub name: Name,
    pub point: Point,
}
