// Runs the mail search: on the examples of the rules, on the limits, and on bytes of every kind.
#![tactic(auto)]

ghost use Rattle.std.specs.Prelude.{◌≡◌};
ghost use Rattle.text.specs.declared.spans.SpanKind.TheVariants.{Email};

use text::{Span, SpanKind};

// The mail address without a scheme name from `from` to `to`.
pub fn email(from: usize, to: usize) -> Span
    ensures { result ≡ record { kind = Email; from = from; to = to } }
{
    Span {
        kind: SpanKind::Email,
        from,
        to,
    }
}

#[cfg(test)]
mod tests {
    use super::email;
    use rules::addresses::find_addresses;
    use rules::examples::{MAIL_EXAMPLES, example_address, example_data};
    use rules::mail::next_address;
    use rules::notes::find_note_addresses;
    use std::test::Fail;
    use text::notes::LONGEST_NOTE;
    use text::{Fault, Span, SpanKind};

    // No rule gives this span, so a slice that still holds it was not written.
    const UNTOUCHED: Span = Span {
        kind: SpanKind::Www,
        from: 7,
        to: 7,
    };

    #[test]
    fn examples_come_out(rt: HostRuntime) {
        for rank in 0..MAIL_EXAMPLES {
            let mut out = [UNTOUCHED; 2];
            let found = find_addresses(example_data(rank), &mut out);
            let address = example_address(rank);
            assert_eq!(rt; found, Ok(usize::from(address.is_some())));
            assert_eq!(rt; out, [address.unwrap_or(UNTOUCHED), UNTOUCHED]);
        }
    }

    #[test]
    fn a_short_slice_stays_as_it_was(rt: HostRuntime) {
        let data = b"a@b.c, d@e.f";
        let mut none: [Span; 0] = [];
        assert_eq!(rt;
            find_addresses(data, &mut none),
            Err(Fault::BufferTooShort(2))
        );
        let mut short = [UNTOUCHED; 1];
        assert_eq!(rt;
            find_addresses(data, &mut short),
            Err(Fault::BufferTooShort(2))
        );
        assert_eq!(rt; short, [UNTOUCHED]);
        let mut full = [UNTOUCHED; 2];
        assert_eq!(rt; find_addresses(data, &mut full), Ok(2));
        assert_eq!(rt; full, [email(0, 5), email(7, 12)]);
    }

    #[test]
    fn the_next_address_is_the_next(rt: HostRuntime) {
        let data = b"a@b.c, d@e.f";
        assert_eq!(rt; next_address(data, 0), Some(email(0, 5)));
        assert_eq!(rt; next_address(data, 2), Some(email(7, 12)));
        assert_eq!(rt; next_address(data, 12), None);
        assert_eq!(rt; next_address(data, usize::MAX), None);
        assert_eq!(rt; next_address(b"", 0), None);
    }

    #[test]
    fn every_line_ending_ends_the_data(rt: HostRuntime) {
        let mut out = [UNTOUCHED; 5];
        let note = b"a@b.c\rd@e.f\ng@h.i\r\n\r\nj@k.l";
        assert_eq!(rt; find_note_addresses(note, &mut out), Ok(4));
        assert_eq!(rt;
            out,
            [
                email(0, 5),
                email(6, 11),
                email(12, 17),
                email(21, 26),
                UNTOUCHED,
            ]
        );
    }

    #[test]
    fn no_address_goes_over_a_line_ending(rt: HostRuntime) {
        let mut out = [UNTOUCHED; 1];
        assert_eq!(rt; find_note_addresses(b"a@b\r.c d\n@e.f", &mut out), Ok(0));
        assert_eq!(rt; out, [UNTOUCHED]);
    }

    #[test]
    fn a_note_may_be_empty(rt: HostRuntime) {
        let mut out = [UNTOUCHED; 1];
        assert_eq!(rt; find_note_addresses(b"", &mut out), Ok(0));
        assert_eq!(rt; out, [UNTOUCHED]);
    }

    #[test]
    fn a_note_may_be_nothing_but_at_signs(rt: HostRuntime) {
        let mut out = [UNTOUCHED; 1];
        assert_eq!(rt; find_note_addresses(&[b'@'; LONGEST_NOTE], &mut out), Ok(0));
        assert_eq!(rt; out, [UNTOUCHED]);
    }

    #[test]
    fn the_longest_note_is_taken(rt: HostRuntime) {
        let mut note = [b'a'; LONGEST_NOTE];
        note[LONGEST_NOTE - 4] = b'@';
        note[LONGEST_NOTE - 2] = b'.';
        let mut out = [UNTOUCHED; 1];
        assert_eq!(rt; find_note_addresses(&note, &mut out), Ok(1));
        assert_eq!(rt; out, [email(0, LONGEST_NOTE)]);
    }

    #[test]
    fn a_longer_note_is_refused_before_a_short_slice(rt: HostRuntime) {
        let mut out = [UNTOUCHED; 1];
        assert_eq!(rt;
            find_note_addresses(&[b'a'; 1025], &mut out),
            Err(Fault::NoteTooLong)
        );
        assert_eq!(rt; out, [UNTOUCHED]);
    }

    #[test]
    fn bytes_of_every_value(rt: HostRuntime) {
        let mut note = [0u8; 256];
        for (byte, value) in note.iter_mut().zip(0..=255u8) {
            *byte = value;
        }
        let mut out = [UNTOUCHED; 1];
        assert_eq!(rt; find_note_addresses(&note, &mut out), Ok(0));
        assert_eq!(rt; out, [UNTOUCHED]);
    }

    // What is found in `a@b.c` behind that byte.
    fn found_behind(value: u8) -> Option<Span> {
        next_address(&[value, b'a', b'@', b'b', b'.', b'c'], 0)
    }

    #[test]
    fn every_byte_before_an_address(rt: HostRuntime) {
        for value in 0..=255u8 {
            let expected = match value {
                b'/' => None,
                b'0'..=b'9' | b'A'..=b'Z' | b'a'..=b'z' | b'+' | b'-' | b'.' | b'_' => Some(email(
                    0, 6,
                )),
                _ => Some(email(1, 6)),
            };
            assert_eq!(rt; found_behind(value), expected);
        }
    }

    #[test]
    fn refusals_are_printed(rt: HostRuntime) -> Result<(), Fail> {
        let heap = rt.alloc();
        assert_eq!(rt; Fault::NoteTooLong.to_string(heap)?.as_str(), "refused 1 0");
        assert_eq!(rt;
            Fault::BufferTooShort(204).to_string(heap)?.as_str(),
            "refused 16 204"
        );
        Ok(())
    }
}
