// The marked copy of a note: `{` and the letter of its kind before each span, and `}` after it.
ghost use Rattle.std.specs.Prelude.{◌≡◌, ◌+◌, ◌*◌, ◌<◌, ◌≤◌, length, Ok, OnErr, OnOk};
ghost use Rattle.text.specs.Lent.{written_count, overwritten};
ghost use Rattle.edit_map.specs.Edits.{put};
ghost use Rattle.edit_map.specs.Laws.{InOrder};
ghost use Rattle.edit_map.specs.View.{kept_count, edits_of, AsNew};
ghost use Rattle.edit_map.specs.declared.entries.Side.TheVariants.{Front};
ghost use Rattle.marked.specs.Marked.{letter_of, marked_copy, marked_answer, marked_written, OnlyMarks, Faithful};
ghost use Rattle.marked.specs.Marks.{IsInTurn, with_marks, marks};

use edit_map::{EditMap, MOST_PLACES};
use rules::notes::find_note_addresses;
use text::lent::check_room;
use text::notes::LONGEST_NOTE;
use text::spans::NO_SPAN;
use text::{Fault, Span, SpanKind};

// A note of 1,024 bytes has no more spans: each has at least 3 bytes.
pub const MOST_SPANS: usize = 341;

// And no more addresses: each has at least 5 bytes.
const MOST_ADDRESSES: usize = 204;

// The bytes of the two marks of a span.
pub const MARK_SIZE: usize = 3;

// No marked copy of a note's addresses has more bytes.
pub const LONGEST_COPY: usize = LONGEST_NOTE + MARK_SIZE * MOST_ADDRESSES;

// Writes the copy of a note in which its mail addresses are marked to the front of `out`, and answers how many bytes that is.
//
// Refused are 1 a note that is too long, and 16 an `out` that is too short. Nothing is changed then.
pub fn mark_addresses(map: &mut EditMap, note: &[u8], out: &mut [u8]) -> Result<usize, Fault>
    ensures answer { result ≡ marked_answer note.now out.old }
    ensures written { out.new ≡ marked_written note.now out.old }
    ensures as_new { OnOk result (AsNew map.new) }
    ensures refused { OnErr result (map.new ≡ map.old) }
    ensures faithful { Faithful note.now }
{
    // Kept: fixed arrays of spans and of marks, since the library allocates nothing after `new`.
    let mut spans = [NO_SPAN; MOST_ADDRESSES];
    let count = find_note_addresses(note, &mut spans)?;
    mark_spans(map, note, &spans[..count], out)
}

// Writes the copy of a note in which these spans are marked to the front of `out`, and answers how many bytes that is. The
// copy is made by edits in `map`, which forgets the edits that it has kept.
//
// Refused is 16 an `out` that is too short. Nothing is changed then.
pub fn mark_spans(
    map: &mut EditMap,
    note: &[u8],
    spans: &[Span],
    out: &mut [u8],
) -> Result<usize, Fault>
    requires short { length note.now ≤ LONGEST_NOTE }
    requires few { length spans.now ≤ MOST_SPANS }
    requires in_turn { IsInTurn 0 (length note.now) spans.now }
    ensures answer { result ≡ written_count (marked_copy note.now spans.now) out.old }
    ensures written { out.new ≡ overwritten (marked_copy note.now spans.now) out.old }
    ensures as_new { OnOk result (AsNew map.new) }
    ensures refused { OnErr result (map.new ≡ map.old) }
    ensures only_marks { OnlyMarks note.now spans.now }
{
    check_room(note.len() + MARK_SIZE * spans.len(), out.len())?;
    write_copy(map, note, spans, out)
}

// Where there is room for the copy.
fn write_copy(
    map: &mut EditMap,
    note: &[u8],
    spans: &[Span],
    out: &mut [u8],
) -> Result<usize, Fault>
    requires short { length note.now ≤ LONGEST_NOTE }
    requires few { length spans.now ≤ MOST_SPANS }
    requires in_turn { IsInTurn 0 (length note.now) spans.now }
    requires room { length (marked_copy note.now spans.now) ≤ length out.old }
    ensures answer { result ≡ Ok (length (marked_copy note.now spans.now)) }
    ensures written { out.new ≡ overwritten (marked_copy note.now spans.now) out.old }
    ensures as_new { AsNew map.new }
{
    let mut store = [0u8; MARK_SIZE * MOST_SPANS];
    map.clear();
    put_marks(map, &mut store, spans)?;
    map.consume(&store, note, out)
}

// Kept: no struct of map and store, tried: the proof of `write_copy` then lacks that the map lent to it is the one changed.
// From the last span to the first: so each mark goes before all that are kept, and an end before a start at its place.
fn put_marks(map: &mut EditMap, store: &mut [u8], spans: &[Span]) -> Result<(), Fault>
    requires as_new { AsNew map.old }
    requires few { length spans.now ≤ MOST_SPANS }
    requires in_turn { IsInTurn 0 LONGEST_NOTE spans.now }
    requires room { MARK_SIZE * length spans.now ≤ length store.old }
    ensures answer { result ≡ Ok tt }
    ensures edits { edits_of map.new store.new ≡ marks spans.now }
    ensures kept { kept_count map.new ≡ MARK_SIZE * length spans.now }
{
    for span in spans.iter().rev() {
        mark_span(map, store, *span)?;
    }
    Ok(())
}

// The two marks of one span, behind which all kept edits lie.
fn mark_span(map: &mut EditMap, store: &mut [u8], span: Span) -> Result<(), Fault>
    requires forward { (span.from ≤ span.to) × (span.to ≤ LONGEST_NOTE) }
    requires order { InOrder span.to LONGEST_NOTE (edits_of map.old store.old) }
    requires few { length (edits_of map.old store.old) + 2 ≤ MOST_PLACES }
    requires room { kept_count map.old + MARK_SIZE ≤ length store.old }
    ensures answer { result ≡ Ok tt }
    ensures edits { edits_of map.new store.new ≡ with_marks span (edits_of map.old store.old) }
    ensures kept { kept_count map.new ≡ kept_count map.old + MARK_SIZE }
{
    put_mark(map, store, span.to, b"}")?;
    put_mark(map, store, span.from, &[b'{', letter_of(span.kind)])
}

// One mark, behind which all kept edits lie: no such edit is refused.
fn put_mark(map: &mut EditMap, store: &mut [u8], place: usize, mark: &[u8]) -> Result<(), Fault>
    requires low { place ≤ LONGEST_NOTE }
    requires some { 0 < length mark.now }
    requires order { InOrder place LONGEST_NOTE (edits_of map.old store.old) }
    requires few { length (edits_of map.old store.old) < MOST_PLACES }
    requires room { kept_count map.old + length mark.now ≤ length store.old }
    ensures answer { result ≡ Ok tt }
    ensures edits { edits_of map.new store.new ≡ put Front place 0 mark.now (edits_of map.old store.old) }
    ensures kept { kept_count map.new ≡ kept_count map.old + length mark.now }
{
    map.add_before(store, place, 0, mark)
}

// Kept: the letter is what the marked copy writes.
fn letter_of(kind: SpanKind) -> u8
    ensures { result ≡ letter_of kind }
{
    match kind {
        SpanKind::Www => b'w',
        SpanKind::Protocol => b'p',
        SpanKind::Email => b'e',
        SpanKind::Mailto => b'm',
        SpanKind::Xmpp => b'x',
    }
}
