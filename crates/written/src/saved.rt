// The saved list: docs/FORMATS.md, section 3.
ghost use Rattle.std.specs.Prelude.{ℕ, List, ◌≡◌, ◌+◌, ◌*◌, ◌<◌, ◌≤◌, length, Some};
ghost use Rattle.text.specs.Lent.{written_count, overwritten};
ghost use Rattle.machine.specs.Laws.{kind_number};
ghost use Rattle.marked.specs.Marks.{IsInTurn};
ghost use Rattle.written.specs.Fronts.{placed};
ghost use Rattle.written.specs.Numbers.{number, NumbersAreShortest};
ghost use Rattle.written.specs.SavedLists.{saved_list, saved_span, read_list};
ghost use Rattle.written.specs.Spans.{written_spans, IsResolved};

use crate::numbers::{number_size, put_number};
use crate::spans::find_spans;
use machine::Event;
use marked::copies::MOST_SPANS;
use text::lent::check_room;
use text::notes::LONGEST_NOTE;
use text::spans::NO_SPAN;
use text::{Fault, Span, SpanKind};

// Writes the saved list of resolved events to the front of `out`, and answers how many bytes that is. Refused is 16 an `out`
// that is too short. Nothing is changed then.
pub(crate) fn save_events(events: &[Event], out: &mut [u8]) -> Result<usize, Fault>
    requires { (note : List ℕ) × (length note ≤ LONGEST_NOTE) × ∥ IsResolved note events.now ∥₁ }
    ensures answer { result ≡ written_count (saved_list (written_spans events.now)) out.old }
    ensures written { out.new ≡ overwritten (saved_list (written_spans events.now)) out.old }
    ensures read_back { read_list (saved_list (written_spans events.now)) ≡ Some (written_spans events.now) }
    ensures numbers_are_shortest { NumbersAreShortest }
{
    let mut spans = [NO_SPAN; MOST_SPANS];
    let count = find_spans(events, &mut spans);
    save_spans(&spans[..count], out)
}

// Writes the saved list of spans of a note to the front of `out`, and answers how many bytes that is. Refused is 16 an `out`
// that is too short. Nothing is changed then.
#[tactic(auto, using(crate::proofs::SavedLists::read_back, crate::proofs::Groups::numbers_are_shortest))]
fn save_spans(spans: &[Span], out: &mut [u8]) -> Result<usize, Fault>
    requires few { length spans.now ≤ LONGEST_NOTE }
    requires in_turn { IsInTurn 0 LONGEST_NOTE spans.now }
    ensures answer { result ≡ written_count (saved_list spans.now) out.old }
    ensures written { out.new ≡ overwritten (saved_list spans.now) out.old }
    ensures read_back { read_list (saved_list spans.now) ≡ Some spans.now }
    ensures numbers_are_shortest { NumbersAreShortest }
{
    let needed = saved_size(spans);
    check_room(needed, out.len())?;
    put_spans(out, spans);
    Ok(needed)
}

fn saved_size(spans: &[Span]) -> usize
    requires few { length spans.now ≤ LONGEST_NOTE }
    requires in_turn { IsInTurn 0 LONGEST_NOTE spans.now }
    ensures { result ≡ length (saved_list spans.now) }
{
    let mut size = 0;
    let mut end = 0;
    for span in spans {
        size += span_size(span, end);
        end = span.to;
    }
    size
}

fn put_spans(out: &mut [u8], spans: &[Span])
    requires in_turn { IsInTurn 0 LONGEST_NOTE spans.now }
    requires room { length (saved_list spans.now) ≤ length out.old }
    ensures { out.new ≡ overwritten (saved_list spans.now) out.old }
{
    let mut at = 0;
    let mut end = 0;
    for span in spans {
        at = put_span(out, at, span, end);
        end = span.to;
    }
}

// The three numbers of a span, where the span before it ends at `end`.
fn put_span(out: &mut [u8], at: usize, span: &Span, end: usize) -> usize
    requires forward { (end ≤ span.now.from) × (span.now.from ≤ span.now.to) × (span.now.to ≤ LONGEST_NOTE) }
    requires room { at + length (saved_span end span.now) ≤ length out.old }
    ensures next { result ≡ at + length (saved_span end span.now) }
    ensures written { out.new ≡ placed (saved_span end span.now) at out.old }
{
    let gap_at = put_number(out, at, kind_number(span.kind));
    let length_at = put_number(out, gap_at, span.from - end);
    put_number(out, length_at, span.to - span.from)
}

fn span_size(span: &Span, end: usize) -> usize
    requires forward { (end ≤ span.now.from) × (span.now.from ≤ span.now.to) × (span.now.to ≤ LONGEST_NOTE) }
    ensures size { result ≡ length (saved_span end span.now) }
    ensures few { result ≤ 6 }
{
    number_size(kind_number(span.kind))
        + number_size(span.from - end)
        + number_size(span.to - span.from)
}

fn kind_number(kind: SpanKind) -> usize
    ensures number { result ≡ kind_number kind }
    ensures few { result < 5 }
{
    match kind {
        SpanKind::Www => 0,
        SpanKind::Protocol => 1,
        SpanKind::Email => 2,
        SpanKind::Mailto => 3,
        SpanKind::Xmpp => 4,
    }
}
