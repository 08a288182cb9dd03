// How long a note may be.
ghost use Rattle.std.specs.Prelude.{◌≡◌};
ghost use Rattle.text.specs.Notes.{checked_length};

use crate::refusals::Fault;

// The most bytes that a note has.
pub const LONGEST_NOTE: usize = 1024;

// Refuses what is too long for a note; else answers its length.
pub fn check_length(note: &[u8]) -> Result<usize, Fault>
    ensures { result ≡ checked_length note.now }
{
    if note.len() > LONGEST_NOTE {
        return Err(Fault::NoteTooLong);
    }
    Ok(note.len())
}
