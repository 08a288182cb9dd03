// The calls that write a form of what a reader holds: docs/FORMATS.md, sections 3 to 5. Refused, in this order, are 12 unless
// the reader is resolved, and 16 an `out` that is too short. A refused call changes nothing.
ghost use Rattle.std.specs.Prelude.{◌≡◌, Some, OnErr, OnOk};
ghost use Rattle.edit_map.specs.View.{AsNew};
ghost use Rattle.marked.specs.Marked.{OnlyMarks};
ghost use Rattle.reader.specs.View.{events_held, meaning_of, view};
ghost use Rattle.written.specs.Forms.{spans_held, HeldAreNamed, saved_form, marked_form, listed_form, form_answer, form_written, IfResolved};
ghost use Rattle.written.specs.Listing.{ALineForEachEvent};
ghost use Rattle.written.specs.Numbers.{NumbersAreShortest};
ghost use Rattle.written.specs.SavedLists.{read_list};

use crate::copies::mark_events;
use crate::listing::list_events;
use crate::saved::save_events;
use edit_map::EditMap;
use punctuation::sets::PunctuationSet;
use reader::Reader;
use text::Fault;

// Writes the saved list to the front of `out`, and answers how many bytes that is.
#[tactic(auto, using(crate::proofs::Groups::numbers_are_shortest))]
pub fn saved_list<S: PunctuationSet>(reader: &Reader<S>, out: &mut [u8]) -> Result<usize, Fault>
    ensures answer { result ≡ form_answer saved_form (view reader.now) out.old }
    ensures written { out.new ≡ form_written saved_form (view reader.now) out.old }
    ensures read_back { IfResolved (view reader.now) (read_list (saved_form (view reader.now)) ≡ Some (spans_held (view reader.now))) }
    ensures named { IfResolved (view reader.now) ∥ HeldAreNamed (meaning_of reader.now) (view reader.now) ∥₁ }
    ensures numbers_are_shortest { NumbersAreShortest }
{
    if !reader.phase().is_resolved() {
        return Err(Fault::NotResolved);
    }
    save_events(reader.events(), out)
}

// Writes the marked copy to the front of `out`, and answers how many bytes that is. The copy is made by edits in `map`, which
// forgets the edits that it has kept.
pub fn marked_copy<S: PunctuationSet>(
    map: &mut EditMap,
    reader: &Reader<S>,
    out: &mut [u8],
) -> Result<usize, Fault>
    ensures answer { result ≡ form_answer marked_form (view reader.now) out.old }
    ensures written { out.new ≡ form_written marked_form (view reader.now) out.old }
    ensures as_new { OnOk result (AsNew map.new) }
    ensures refused { OnErr result (map.new ≡ map.old) }
    ensures named { IfResolved (view reader.now) ∥ HeldAreNamed (meaning_of reader.now) (view reader.now) ∥₁ }
    ensures only_marks { IfResolved (view reader.now) (OnlyMarks (view reader.now).machine.note (spans_held (view reader.now))) }
{
    if !reader.phase().is_resolved() {
        return Err(Fault::NotResolved);
    }
    mark_events(map, reader.note(), reader.events(), out)
}

// Writes the listing to the front of `out`, and answers how many bytes that is.
#[tactic(auto, using(crate::proofs::LineEnds::a_line_for_each_event))]
pub fn listing_lines<S: PunctuationSet>(reader: &Reader<S>, out: &mut [u8]) -> Result<usize, Fault>
    ensures answer { result ≡ form_answer listed_form (view reader.now) out.old }
    ensures written { out.new ≡ form_written listed_form (view reader.now) out.old }
    ensures a_line_for_each_event { ALineForEachEvent (events_held reader.now) }
{
    if !reader.phase().is_resolved() {
        return Err(Fault::NotResolved);
    }
    list_events(reader.events(), out)
}
