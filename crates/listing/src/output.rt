// What the program prints of a note.
ghost use Rattle.std.specs.Prelude.{◌≡◌, IfOk, IfErr};
ghost use Rattle.reader.specs.View.{view};
ghost use Rattle.listing.specs.Forms.{written_as, bytes_needed};
ghost use Rattle.listing.specs.Notes.{TooLong};
ghost use Rattle.listing.specs.Output.{refusal_line, output, Laws};
ghost use Rattle.listing.specs.Stops.{WhereRefused, Unresolved};

use crate::forms::Form;
use crate::notes::resolve_note;
use crate::stops::Stop;
use edit_map::EditMap;
use readings::HouseReader;
use std::alloc::{AllocError, Global};
use text::Fault;

// The form of the note, or the line of a refusal.
pub fn make_output(heap: Global, note: &[u8], form: Form) -> Result<Vec<u8>, AllocError>
    ensures printed { IfOk result (λ v. v.items ≡ output form note.now) }
    ensures laws { Laws form note.now }
{
    match write_note(heap, note, form) {
        Ok(bytes) => Ok(bytes),
        Err(Stop::Refused(fault)) => write_refusal(heap, fault),
        Err(Stop::OutOfMemory) => Err(AllocError),
    }
}

fn write_refusal(heap: Global, fault: Fault) -> Result<Vec<u8>, AllocError>
    ensures { IfOk result (λ v. v.items ≡ refusal_line fault) }
{
    let line = format!(in heap; "{fault}\n")?;
    Vec::from_slice(heap, line.as_bytes())
}

// Refused is 1 a note that is too long.
fn write_note(heap: Global, note: &[u8], form: Form) -> Result<Vec<u8>, Stop>
    ensures written { IfOk result (λ v. v.items ≡ output form note.now) }
    ensures refused { IfErr result (WhereRefused (TooLong note.now)) }
{
    let reader = resolve_note(heap, note)?;
    write_form(heap, &reader, form)
}

// The form in a Vec that has room for it and no more.
fn write_form(heap: Global, reader: &HouseReader, form: Form) -> Result<Vec<u8>, Stop>
    ensures written { IfOk result (λ v. v.items ≡ written_as form (view reader.now)) }
    ensures refused { IfErr result (WhereRefused (Unresolved (view reader.now))) }
{
    let mut map = EditMap::new(heap)?;
    let size = bytes_needed(form.write(&mut map, reader, &mut []))?;
    let mut out = vec![in heap; 0; size]?;
    form.write(&mut map, reader, &mut out)?;
    Ok(out)
}

// How many bytes a form takes, told by what was answered where there was no room.
fn bytes_needed(answer: Result<usize, Fault>) -> Result<usize, Fault>
    ensures { result ≡ bytes_needed answer }
{
    match answer {
        Err(Fault::BufferTooShort(needed)) => Ok(needed),
        _ => answer,
    }
}
