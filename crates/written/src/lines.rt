// What a line of the listing says.
ghost use Rattle.std.specs.Prelude.{◌≡◌, ◌+◌, ◌≤◌, ◌++◌, length, Some, [], ◌∷◌, decimal, string_bytes, OnOk};
ghost use Rattle.written.specs.Fronts.{placed};
ghost use Rattle.written.specs.Listing.{edge_shown, name_shown, event_shown, event_lines, newline};

use crate::fronts::put;
use itoa::Buffer;
use machine::{Event, EventKind, Name};
use std::alloc::AllocError;
use std::fmt;
use std::fmt::Write;
use text::SpanKind;

// An event as the listing has it.
#[derive(Clone, Copy)]
pub struct Listed(pub Event);

impl fmt::Display for Listed {
    ghost output = { λ listed. Some (event_shown listed.0) };

    fn fmt<W: fmt::Write>(&self, f: &mut fmt::Formatter<W>) -> fmt::Result {
        let Event { kind, name, point } = self.0;
        let edge = edge_word(kind);
        let name = name_word(name);
        let line = point.line;
        let column = point.column;
        let index = point.index;
        write!(f, "{edge} {name} {line}:{column} {index}")
    }
}

// Writes a line for each event behind a text.
pub fn write_lines(text: &mut String, events: &[Event]) -> Result<(), AllocError>
    ensures { OnOk result (string_bytes text.new ≡ string_bytes text.old ++ event_lines events.now) }
{
    for event in events {
        let line = Listed(*event);
        writeln!(text, "{line}")?;
    }
    Ok(())
}

// Writes the line of an event at `at`, and answers the place after it.
pub(crate) fn put_line(out: &mut [u8], at: usize, event: &Event) -> usize
    requires { at + length (event_shown event.now ++ newline) ≤ length out.old }
    ensures next { result ≡ at + length (event_shown event.now ++ newline) }
    ensures written { out.new ≡ placed (event_shown event.now ++ newline) at out.old }
{
    let Event { kind, name, point } = *event;
    let name_at = put_ended(out, at, edge_word(kind).as_bytes(), b' ');
    let line_at = put_ended(out, name_at, name_word(name).as_bytes(), b' ');
    let column_at = put_decimal(out, line_at, point.line, b':');
    let index_at = put_decimal(out, column_at, point.column, b' ');
    put_decimal(out, index_at, point.index, b'\n')
}

// How many bytes it takes.
pub(crate) fn line_size(event: &Event) -> usize
    ensures size { result ≡ length (event_shown event.now ++ newline) }
    ensures few { result ≤ 81 }
{
    let Event { kind, name, point } = *event;
    let words = edge_word(kind).len() + name_word(name).len();
    let numbers = decimal_size(point.line) + decimal_size(point.column) + decimal_size(point.index);
    words + numbers + 5
}

fn put_decimal(out: &mut [u8], at: usize, n: usize, mark: u8) -> usize
    requires { at + length (decimal n ++ mark ∷ []) ≤ length out.old }
    ensures next { result ≡ at + length (decimal n ++ mark ∷ []) }
    ensures written { out.new ≡ placed (decimal n ++ mark ∷ []) at out.old }
{
    put_ended(out, at, Buffer::new().format(n).as_bytes(), mark)
}

fn decimal_size(n: usize) -> usize
    ensures size { result ≡ length (decimal n) }
    ensures few { result ≤ 20 }
{
    Buffer::new().format(n).len()
}

// A word or a number, and the mark after it.
fn put_ended(out: &mut [u8], at: usize, bytes: &[u8], mark: u8) -> usize
    requires { at + length (bytes.now ++ mark ∷ []) ≤ length out.old }
    ensures next { result ≡ at + length (bytes.now ++ mark ∷ []) }
    ensures written { out.new ≡ placed (bytes.now ++ mark ∷ []) at out.old }
{
    let mark_at = put(out, at, bytes);
    put(out, mark_at, &[mark])
}

fn edge_word(kind: EventKind) -> &'static str
    ensures word { result.now ≡ edge_shown kind }
    ensures short { length result.now ≤ 5 }
{
    match kind {
        EventKind::Enter => "enter",
        EventKind::Exit => "exit",
    }
}

fn name_word(name: Name) -> &'static str
    ensures word { result.now ≡ name_shown name }
    ensures short { length result.now ≤ 11 }
{
    match name {
        Name::Data => "data",
        Name::LineEnding => "line-ending",
        Name::Link => "link",
        Name::Address(SpanKind::Www) => "www",
        Name::Address(SpanKind::Protocol) => "protocol",
        Name::Address(SpanKind::Email) => "email",
        Name::Address(SpanKind::Mailto) => "mailto",
        Name::Address(SpanKind::Xmpp) => "xmpp",
    }
}
