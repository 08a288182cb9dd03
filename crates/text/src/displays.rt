// How refusals and kinds of spans are printed.
ghost use Rattle.std.specs.Prelude.{Some};
ghost use Rattle.text.specs.Shown.{refusal_shown, kind_shown};

use crate::refusals::Fault;
use crate::spans::SpanKind;
use std::fmt;

impl fmt::Display for Fault {
    ghost output = { λ fault. Some (refusal_shown fault) };

    fn fmt<W: fmt::Write>(&self, f: &mut fmt::Formatter<W>) -> fmt::Result {
        write!(f, "refused {} {}", self.number(), self.place())
    }
}

impl fmt::Display for SpanKind {
    ghost output = { λ kind. Some (kind_shown kind) };

    fn fmt<W: fmt::Write>(&self, f: &mut fmt::Formatter<W>) -> fmt::Result {
        f.write_str(match self {
            SpanKind::Www => "www",
            SpanKind::Protocol => "protocol",
            SpanKind::Email => "email",
            SpanKind::Mailto => "mailto",
            SpanKind::Xmpp => "xmpp",
        })
    }
}
