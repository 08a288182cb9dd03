// The marked copy of what a reader holds: docs/FORMATS.md, section 4.
ghost use Rattle.std.specs.Prelude.{◌≡◌, ◌≤◌, length, OnErr, OnOk};
ghost use Rattle.text.specs.Lent.{written_count, overwritten};
ghost use Rattle.edit_map.specs.View.{AsNew};
ghost use Rattle.marked.specs.Marked.{marked_copy, OnlyMarks};
ghost use Rattle.written.specs.Spans.{written_spans, IsResolved};

use crate::spans::find_spans;
use edit_map::EditMap;
use machine::Event;
use marked::copies::MOST_SPANS;
use marked::mark_spans;
use text::Fault;
use text::notes::LONGEST_NOTE;
use text::spans::NO_SPAN;

// Writes the copy of a note in which the addresses of its resolved events are marked to the front of `out`, and answers how
// many bytes that is. The copy is made by edits in `map`, which forgets the edits that it has kept.
//
// Refused is 16 an `out` that is too short. Nothing is changed then.
pub(crate) fn mark_events(
    map: &mut EditMap,
    note: &[u8],
    events: &[Event],
    out: &mut [u8],
) -> Result<usize, Fault>
    requires short { length note.now ≤ LONGEST_NOTE }
    requires resolved { ∥ IsResolved note.now events.now ∥₁ }
    ensures answer { result ≡ written_count (marked_copy note.now (written_spans events.now)) out.old }
    ensures written { out.new ≡ overwritten (marked_copy note.now (written_spans events.now)) out.old }
    ensures as_new { OnOk result (AsNew map.new) }
    ensures refused { OnErr result (map.new ≡ map.old) }
    ensures only_marks { OnlyMarks note.now (written_spans events.now) }
{
    let mut spans = [NO_SPAN; MOST_SPANS];
    let count = find_spans(events, &mut spans);
    mark_spans(map, note, &spans[..count], out)
}
