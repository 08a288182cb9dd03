// The character at a place of some bytes, by Unicode's table of well-formed byte sequences.
ghost use Rattle.std.specs.Prelude.{◌≡◌, ◌+◌, ◌-◌, ◌*◌, ◌<◌, ◌≤◌};
ghost use Rattle.characters.specs.CharacterExamples.{CharactersRead};
ghost use Rattle.characters.specs.Utf8.{rows_of, shaped, character, character_at, EncodedIsRead, ReadIsEncoded};

// The character that begins at `index`, `None` at the end of the bytes and past it.
// A byte that begins no well-formed sequence counts as U+FFFD.
pub fn char_at(bytes: &[u8], index: usize) -> Option<char>
    ensures answer { result ≡ character_at bytes.now index }
    ensures encoded_is_read { EncodedIsRead bytes.now index result }
    ensures read_is_encoded { ReadIsEncoded bytes.now index result }
    ensures examples { CharactersRead }
{
    if index >= bytes.len() {
        return None;
    }
    char::from_u32(decode(&bytes[index..]))
}

// The number of the first character.
fn decode(bytes: &[u8]) -> u32
    ensures { result ≡ character bytes.now }
{
    match bytes {
        [a, _rest @ ..] if is_well_formed([*a]) => u32::from(*a),
        [a, b, _rest @ ..] if is_well_formed([*a, *b]) => add_six(u32::from(*a - 0xC0), *b),
        [a, b, c, _rest @ ..] if is_well_formed([*a, *b, *c]) => {
            add_six(add_six(u32::from(*a - 0xE0), *b), *c)
        }
        [a, b, c, d, _rest @ ..] if is_well_formed([*a, *b, *c, *d]) => {
            add_six(add_six(add_six(u32::from(*a - 0xF0), *b), *c), *d)
        }
        _ => 0xFFFD,
    }
}

// Whether the bytes are those of one character: each line of the patterns is a row of the table.
fn is_well_formed<const N: usize>(bytes: [u8; N]) -> bool
    ensures { result ≡ shaped (rows_of N) bytes.entry }
{
    matches!(
        bytes.as_slice(),
        [0x00..=0x7F]
            | [0xC2..=0xDF, 0x80..=0xBF]
            | [0xE0, 0xA0..=0xBF, 0x80..=0xBF]
            | [0xE1..=0xEC, 0x80..=0xBF, 0x80..=0xBF]
            | [0xED, 0x80..=0x9F, 0x80..=0xBF]
            | [0xEE..=0xEF, 0x80..=0xBF, 0x80..=0xBF]
            | [0xF0, 0x90..=0xBF, 0x80..=0xBF, 0x80..=0xBF]
            | [0xF1..=0xF3, 0x80..=0xBF, 0x80..=0xBF, 0x80..=0xBF]
            | [0xF4, 0x80..=0x8F, 0x80..=0xBF, 0x80..=0xBF]
    )
}

// The bits so far, and after them the six of a further byte.
fn add_six(bits: u32, further: u8) -> u32
    requires few { bits < 0x10000 }
    requires marked { 0x80 ≤ further }
    ensures { result ≡ bits * 64 + (further - 0x80) }
{
    bits * 64 + u32::from(further - 0x80)
}
