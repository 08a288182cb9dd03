// Parts of a note that the rules name.

// What a span is: the web kinds first, then the mail kinds.
#[derive(Clone, Copy, PartialEq, Eq, Debug)]
pub enum SpanKind {
    Www,
    Protocol,
    Email,
    Mailto,
    Xmpp,
}

// The bytes from `from` to `to` - 1.
#[derive(Clone, Copy, PartialEq, Eq, Debug)]
pub struct Span {
    pub kind: SpanKind,
    pub from: usize,
    pub to: usize,
}

// What a table of spans holds before it is written: no span of a note is empty.
pub const NO_SPAN: Span = Span {
    kind: SpanKind::Email,
    from: 0,
    to: 0,
};
