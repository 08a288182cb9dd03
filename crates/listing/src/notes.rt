// A note that is read to its end and resolved, with no links marked.
ghost use Rattle.std.specs.Prelude.{◌≡◌, IfOk, IfErr};
ghost use Rattle.reader.specs.View.{view};
ghost use Rattle.listing.specs.Notes.{HoldsResolved, TooLong};
ghost use Rattle.listing.specs.Stops.{WhereRefused};

use crate::stops::Stop;
use punctuation::range_lists::house_set;
use reader::Reader;
use readings::{HouseReader, Plan, read_through};
use std::alloc::Global;
use text::notes::check_length;

// Refused is 1 a note that is too long.
pub fn resolve_note(heap: Global, note: &[u8]) -> Result<HouseReader, Stop>
    ensures resolved { IfOk result (λ reader. HoldsResolved note.now (view reader)) }
    ensures refused { IfErr result (WhereRefused (TooLong note.now)) }
{
    check_length(note)?;
    let mut reader = Reader::new(heap, house_set())?;
    read_through(heap, &mut reader, note, Plan::PLAIN)?;
    reader.resolve()?;
    Ok(reader)
}
