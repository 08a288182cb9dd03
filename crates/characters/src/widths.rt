// How many bytes a character has.
ghost use Rattle.std.specs.Prelude.{◌≡◌, ◌<◌, ◌≤◌, length};
ghost use Rattle.characters.specs.Widths.{replacement_width, character_width, EndsWithin};

use crate::utf8::char_at;

// The bytes of the character at `index`: one where the byte there begins none, and 0 at the end of the bytes and past it.
// Kept: 0 and no Option at the end, since that is what the call has promised; who goes on by it stays at the end.
pub fn char_width(bytes: &[u8], index: usize) -> usize
    ensures answer { result ≡ character_width bytes.now index }
    ensures ends_within { EndsWithin bytes.now index result }
{
    match char_at(bytes, index) {
        None => 0,
        Some(char::REPLACEMENT_CHARACTER) => measure_replacement(&bytes[index..]),
        Some(c) => c.len_utf8(),
    }
}

fn measure_replacement(rest: &[u8]) -> usize
    ensures answer { result ≡ replacement_width rest.now }
    ensures within { 0 < length rest.now → (0 < result) × (result ≤ length rest.now) }
{
    match rest {
        [0xEF, 0xBF, 0xBD, ..] => 3,
        _ => 1,
    }
}
