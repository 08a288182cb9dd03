// All mail addresses of data.
ghost use Rattle.std.specs.Prelude.{◌≡◌, ◌^◌, ◌<◌, List};
ghost use Rattle.std.specs.Iterator.{AlwaysYields, IsFinite, size, YieldsFirst, item_count};
ghost use Rattle.text.specs.declared.spans.Span.{Span as TheSpan};
ghost use Rattle.text.specs.Lent.{written_count, overwritten};
ghost use Rattle.rules.specs.InTurn.{FoundInTurn, InTextOrder};
ghost use Rattle.rules.specs.Mail.{addresses, addresses_left, address_at};
ghost use Rattle.rules.specs.MailLaws.{EachIsAnAddress};

use crate::mail::next_address;
use text::lent::check_room;
use text::{Fault, Span};

// Writes all addresses of the data to the front of `out`, in text order, and answers how many they are.
pub fn find_addresses(bytes: &[u8], out: &mut [Span]) -> Result<usize, Fault>
    ensures answer { result ≡ written_count (addresses bytes.now) out.old }
    ensures written { out.new ≡ overwritten (addresses bytes.now) out.old }
    ensures in_text_order { InTextOrder 0 (addresses bytes.now) }
    ensures each_is_an_address { EachIsAnAddress bytes.now (addresses bytes.now) }
    ensures none_missed_none_added { FoundInTurn (address_at bytes.now) 0 (addresses bytes.now) }
{
    write_front(Addresses::new(bytes), out)
}

// The addresses of data, in text order: those that start at or after `end`.
#[derive(Clone, Copy)]
pub(crate) struct Addresses<'a> {
    pub(crate) bytes: &'a [u8],
    end: usize,
}

impl<'a> Addresses<'a> {
    pub(crate) fn new(bytes: &'a [u8]) -> Addresses<'a>
        ensures { result ≡ record { bytes = bytes.entry; end = 0 } }
    {
        Addresses { bytes, end: 0 }
    }
}

impl<'a> Iterator for Addresses<'a> {
    type Item = Span;

    ghost next_gives = { λ old span new. YieldsFirst (λ it. addresses_left it.bytes.now it.end) old span new × (new.bytes ≡ old.bytes) };

    ghost remaining = { item_count (λ it. addresses_left it.bytes.now it.end) };

    fn next(&mut self) -> Option<Span> {
        let span = next_address(self.bytes, self.end)?;
        self.end = span.to;
        Some(span)
    }
}

// Writes the spans to the front of `out`, and answers how many they are. The clauses hold of the list that the iterator yields.
pub(crate) fn write_front<I: Iterator<Item = Span> + Copy>(
    spans: I,
    out: &mut [Span],
) -> Result<usize, Fault>
    requires can { I.can_next spans }
    requires ends { IsFinite (I.remaining spans) }
    requires few { size (I.remaining spans) < 2 ^ 64 }
    requires yields { (all : List TheSpan) × AlwaysYields I.next_gives (λ x. x) spans all }
    ensures answer { (all : List TheSpan) → AlwaysYields I.next_gives (λ x. x) spans all → result ≡ written_count all out.old }
    ensures written { (all : List TheSpan) → AlwaysYields I.next_gives (λ x. x) spans all → out.new ≡ overwritten all out.old }
{
    let count = check_room(spans.count(), out.len())?;
    // Kept: no zip with `out.iter_mut()`, tried: a proof then has no name for what `out` holds so far.
    for (place, span) in spans.enumerate() {
        out[place] = span;
    }
    Ok(count)
}
