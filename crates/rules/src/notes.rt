// The mail addresses of a note, line by line.
ghost use Rattle.std.specs.Prelude.{◌≡◌, ◌+◌, ◌≤◌, length};
ghost use Rattle.std.specs.Iterator.{YieldsFirst, item_count};
ghost use Rattle.std.specs.List.{position_or_len};
ghost use Rattle.rules.specs.InTurn.{InTextOrder};
ghost use Rattle.rules.specs.MailLaws.{EachIsAnAddress};
ghost use Rattle.rules.specs.Notes.{line_ending_byte, lines_from, note_addresses, note_addresses_left, note_answer, note_written};

use crate::addresses::{Addresses, write_front};
use text::notes::check_length;
use text::{Fault, Span};

// Writes the addresses in the data of each line to the front of `out`, in text order, and answers how many they are.
pub fn find_note_addresses(note: &[u8], out: &mut [Span]) -> Result<usize, Fault>
    ensures answer { result ≡ note_answer note.now out.old }
    ensures written { out.new ≡ note_written note.now out.old }
    ensures in_text_order { InTextOrder 0 (note_addresses note.now) }
    ensures each_is_an_address { EachIsAnAddress note.now (note_addresses note.now) }
{
    check_length(note)?;
    let count = write_front(NoteAddresses::starting_at(note, 0), out)?;
    Ok(count)
}

// The addresses of a note, line by line.
#[derive(Clone, Copy)]
struct NoteAddresses<'a> {
    note: &'a [u8],
    // Where the line at hand starts, and its addresses that are still to come.
    start: usize,
    line: Addresses<'a>,
    // The line lies within the note.
    ghost within: { start + length line.bytes.now ≤ length note.now },
}

impl<'a> NoteAddresses<'a> {
    // Those from the line at `start` on.
    fn starting_at(note: &'a [u8], start: usize) -> NoteAddresses<'a>
        requires { start ≤ length note.now }
        ensures place { (result.note ≡ note.entry) × (result.start ≡ start) }
        ensures left { note_addresses_left result.note.now result.start result.line.bytes.now result.line.end ≡ lines_from note.now (length note.now) start }
    {
        let stop = start + line_length(&note[start..]);
        NoteAddresses {
            note,
            start,
            line: Addresses::new(&note[start..stop]),
        }
    }
}

impl<'a> Iterator for NoteAddresses<'a> {
    type Item = Span;

    ghost next_gives = { YieldsFirst (λ it. note_addresses_left it.note.now it.start it.line.bytes.now it.line.end) };

    ghost remaining = { item_count (λ it. note_addresses_left it.note.now it.start it.line.bytes.now it.line.end) };

    fn next(&mut self) -> Option<Span> {
        loop {
            if let Some(span) = self.line.next() {
                return Some(Span {
                    kind: span.kind,
                    from: self.start + span.from,
                    to: self.start + span.to,
                });
            }
            let next = self.start + self.line.bytes.len() + 1;
            if next > self.note.len() {
                return None;
            }
            *self = NoteAddresses::starting_at(self.note, next);
        }
    }
}

// How many bytes lie before the first line ending, or all where there is none.
fn line_length(bytes: &[u8]) -> usize
    ensures first { result ≡ position_or_len line_ending_byte bytes.now }
    ensures within { result ≤ length bytes.now }
{
    bytes
        .iter()
        .take_while(|b| !matches!(**b, b'\r' | b'\n'))
        .count()
}
