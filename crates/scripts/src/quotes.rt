// Texts in double quotes, which stand for the bytes of a note.
ghost use Rattle.std.specs.Prelude.{◌≡◌, ◌++◌, string_bytes, Some, OnOk};
ghost use Rattle.scripts.specs.Quotes.{escaped, hex_byte, escape_of, step, closed, quoted, written};
ghost use Rattle.scripts.specs.Meets.{Meets, items};

use crate::errors::{Expected, LineError};
use std::alloc::{AllocError, Global};
use std::fmt;
use std::fmt::Write;

// Where the reading of such a text stands.
#[derive(Clone, Copy)]
pub enum Place {
    // in front of the opening quote
    Front,
    Inside,
    // behind a backslash
    Escape,
    // behind `\x`
    Hex,
    // behind `\x` and this byte
    HexPair(u8),
    // behind the closing quote
    Behind,
}

// Reads a text in quotes, with nothing but white space around it.
pub fn parse_quoted(heap: Global, text: &[u8]) -> Result<Vec<u8>, LineError>
    ensures { Meets items result (quoted text.now) }
{
    let mut note = Vec::new(heap);
    let mut place = Place::Front;
    for byte in text {
        let (next, read) = step(place, *byte)?;
        if let Some(byte) = read {
            note.push(byte)?;
        }
        place = next;
    }
    check_closed(place)?;
    Ok(note)
}

// Where the reading stands behind one more byte, and the byte of the note that is read then.
fn step(place: Place, byte: u8) -> Result<(Place, Option<u8>), Expected>
    ensures { result ≡ step place byte }
{
    match place {
        Place::Front => match byte {
            b'"' => Ok((Place::Inside, None)),
            _ if byte.is_ascii_whitespace() => Ok((Place::Front, None)),
            _ => Err(Expected::Text),
        },
        Place::Inside => match byte {
            b'"' => Ok((Place::Behind, None)),
            b'\\' => Ok((Place::Escape, None)),
            _ => Ok((Place::Inside, Some(byte))),
        },
        Place::Escape => match byte {
            b'x' => Ok((Place::Hex, None)),
            _ => Ok((Place::Inside, Some(unescape(byte).ok_or(Expected::Escape)?))),
        },
        Place::Hex => Ok((Place::HexPair(byte), None)),
        Place::HexPair(high) => {
            let read = parse_hex(high, byte).ok_or(Expected::Escape)?;
            Ok((Place::Inside, Some(read)))
        }
        Place::Behind => {
            if !byte.is_ascii_whitespace() {
                return Err(Expected::EndOfLine);
            }
            Ok((Place::Behind, None))
        }
    }
}

fn check_closed(place: Place) -> Result<(), Expected>
    ensures { result ≡ closed place }
{
    match place {
        Place::Front => Err(Expected::Text),
        Place::Behind => Ok(()),
        _ => Err(Expected::ClosingQuote),
    }
}

// The byte that a letter behind a backslash stands for.
fn unescape(letter: u8) -> Option<u8>
    ensures { result ≡ escape_of letter }
{
    match letter {
        b'n' => Some(b'\n'),
        b'r' => Some(b'\r'),
        b't' => Some(b'\t'),
        b'"' => Some(b'"'),
        b'\\' => Some(b'\\'),
        _ => None,
    }
}

// The byte that two hexadecimal digits write.
fn parse_hex(high: u8, low: u8) -> Option<u8>
    ensures { result ≡ hex_byte high low }
{
    let high = char::from(high).to_digit(16)?;
    let low = char::from(low).to_digit(16)?;
    Some((high * 16 + low) as u8)
}

// Writes a note as a text in quotes, which reads back as this note.
pub fn write_quoted(out: &mut String, note: &[u8]) -> Result<(), AllocError>
    ensures { OnOk result (string_bytes out.new ≡ string_bytes out.old ++ written note.now) }
{
    out.push('"')?;
    for byte in note {
        write!(out, "{}", Escaped(*byte))?;
    }
    out.push('"')
}

// A byte of a note as a text in quotes has it.
#[derive(Clone, Copy)]
struct Escaped(u8);

impl fmt::Display for Escaped {
    ghost output = { λ byte. Some (escaped byte.0) };

    fn fmt<W: fmt::Write>(&self, f: &mut fmt::Formatter<W>) -> fmt::Result {
        let byte = self.0;
        match byte {
            b'\n' => f.write_str("\\n"),
            b'\r' => f.write_str("\\r"),
            b'\t' => f.write_str("\\t"),
            b'"' => f.write_str("\\\""),
            b'\\' => f.write_str("\\\\"),
            b' '..=b'~' => f.write_char(char::from(byte)),
            _ => write!(f, "\\x{byte:02x}"),
        }
    }
}
