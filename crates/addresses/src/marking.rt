// What the program prints of a note where its marked copy is asked for.
ghost use Rattle.std.specs.Prelude.{◌≡◌, IfOk};
ghost use Rattle.addresses.specs.Report.{copy};

use crate::report::report_refusal;
use edit_map::EditMap;
use marked::copies::LONGEST_COPY;
use marked::mark_addresses;
use std::alloc::{AllocError, Global};

pub fn make_copy(heap: Global, note: &[u8]) -> Result<Vec<u8>, AllocError>
    ensures { IfOk result (λ v. v.items ≡ copy note.now) }
{
    let mut map = EditMap::new(heap)?;
    // Kept: an array to lend; a Vec of as many would add an allocation that may fail, and is no plainer.
    let mut out = [0u8; LONGEST_COPY];
    match mark_addresses(&mut map, note, &mut out) {
        Ok(count) => Vec::from_slice(heap, &out[..count]),
        Err(fault) => report_refusal(heap, fault),
    }
}
