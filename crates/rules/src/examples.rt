// Data to try the mail rules on, with the addresses in it.
ghost use Rattle.std.specs.Prelude.{◌≡◌};
ghost use Rattle.std.specs.Option.{option_to_list};
ghost use Rattle.rules.specs.MailExamples.{example, EveryExampleComesOut};

use text::{Span, SpanKind};

// How many examples there are.
pub const MAIL_EXAMPLES: usize = 15;

// Data, and the address in it, if there is one.
#[derive(Drop)]
struct MailExample {
    bytes: &'static [u8],
    address: Option<Span>,
}

impl MailExample {
    fn none(bytes: &'static [u8]) -> MailExample
        ensures { result ≡ record { bytes = bytes.entry; address = None } }
    {
        MailExample {
            bytes,
            address: None,
        }
    }

    fn one(bytes: &'static [u8], kind: SpanKind, from: usize, to: usize) -> MailExample
        ensures { result ≡ record { bytes = bytes.entry; address = Some (record { kind = kind; from = from; to = to }) } }
    {
        MailExample {
            bytes,
            address: Some(Span { kind, from, to }),
        }
    }
}

// The data of an example: none past the last.
pub fn example_data(rank: usize) -> &'static [u8]
    ensures { result.now ≡ (example rank).bytes }
{
    mail_example(rank).bytes
}

// The address in an example, if there is one.
pub fn example_address(rank: usize) -> Option<Span>
    ensures answer { option_to_list result ≡ (example rank).spans }
    ensures every_example_comes_out { EveryExampleComesOut }
{
    mail_example(rank).address
}

// Kept: a function; a constant array was tried, but a proof has no name yet for one whose rows hold references.
fn mail_example(rank: usize) -> MailExample
    ensures bytes { result.bytes.now ≡ (example rank).bytes }
    ensures address { option_to_list result.address ≡ (example rank).spans }
{
    match rank {
        0 => MailExample::none(b"a@b.c1"),
        1 => MailExample::one(b"a@b.c.", SpanKind::Email, 0, 5),
        2 => MailExample::none(b"x/a@b.c"),
        3 => MailExample::none(b"a@.b"),
        4 => MailExample::one(b"xmpp:a@b.c/", SpanKind::Xmpp, 0, 10),
        5 => MailExample::one(b"xmpp:a@b.c/d", SpanKind::Xmpp, 0, 12),
        6 => MailExample::one(b"xmpp:a@b.c/d/e", SpanKind::Xmpp, 0, 12),
        7 => MailExample::one(b"xmpp:a@b.c/d@e", SpanKind::Xmpp, 0, 14),
        8 => MailExample::one(b"a@b.c@d.e", SpanKind::Email, 0, 5),
        9 => MailExample::one(b"hello@world.com", SpanKind::Email, 0, 15),
        10 => MailExample::one(b"\tc@d.e", SpanKind::Email, 1, 6),
        11 => MailExample::one(b"(MailTo:a@b.c)", SpanKind::Mailto, 1, 13),
        12 => MailExample::one(b"see:a@b.c", SpanKind::Email, 4, 9),
        13 => MailExample::none(b"@"),
        _ => MailExample::none(b""),
    }
}
