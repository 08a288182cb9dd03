// Mail addresses in data: docs/RULES.md has the rules in words.
ghost use Rattle.std.specs.Prelude.{◌≡◌, ◌+◌, ◌-◌, ◌<◌, ◌≤◌, length};
ghost use Rattle.rules.specs.InTurn.{found, next, or_else};
ghost use Rattle.rules.specs.Mail.{atext, local_start, scheme, inner_dot, in_domain, in_resource, resource_stop, address_end, is_xmpp, address_at};

use text::ascii::{is_letter, is_letter_or_digit};
use text::{Span, SpanKind};

// The next address whose `@` stands at or after `from`, where the address before ends at `from`.
pub fn next_address(bytes: &[u8], from: usize) -> Option<Span>
    ensures { result ≡ next (address_at bytes.now) bytes.now from }
{
    // Kept: the search over `@` leaves by a label, which is a rule of the project.
    'search: {
        for at in from..bytes.len() {
            if let Some(span) = address_at(bytes, from, at) {
                break 'search Some(span);
            }
        }
        None
    }
}

// The address whose `@` stands at `at`, where the one before ends at `min`: if there is one, it is the first from `at` on.
fn address_at(bytes: &[u8], min: usize, at: usize) -> Option<Span>
    requires { (min ≤ at) × (at < length bytes.now) }
    ensures answer { result ≡ address_at bytes.now min at }
    ensures first { found (address_at bytes.now min) bytes.now at ≡ or_else result (found (address_at bytes.now min) bytes.now (at + 1)) }
{
    if bytes[at] != b'@' {
        return None;
    }
    let before = &bytes[min..at];
    let local = peek_bytes_atext(before)?;
    let (start, kind) = peek_protocol(&before[..local]);
    let to = peek_bytes_email_domain(bytes, at + 1, kind)?;
    Some(Span {
        kind,
        from: min + start,
        to,
    })
}

// Where the local part starts with which these bytes end, those before an `@`.
fn peek_bytes_atext(before: &[u8]) -> Option<usize>
    ensures { result ≡ local_start before.now 0 (length before.now) }
{
    let run = before.iter().rev().take_while(|b| is_atext(**b)).count();
    let start = before.len() - run;
    // Kept: no `ends_with` with `then_some`, tried: the search for a proof gave up at what is returned.
    if run == 0 || (start > 0 && before[start - 1] == b'/') {
        None
    } else {
        Some(start)
    }
}

fn is_atext(b: u8) -> bool
    ensures { result ≡ atext b }
{
    is_letter_or_digit(b) || matches!(b, b'+' | b'-' | b'.' | b'_')
}

// Where the address starts whose local part follows these bytes, and its kind.
fn peek_protocol(before: &[u8]) -> (usize, SpanKind)
    ensures { result ≡ scheme before.now 0 (length before.now) }
{
    if let [front @ .., b':'] = before {
        let run = front
            .iter()
            .rev()
            .take_while(|b| is_letter_or_digit(**b))
            .count();
        let start = front.len() - run;
        let name = &front[start..];
        if name.eq_ignore_ascii_case(b"xmpp") {
            return (start, SpanKind::Xmpp);
        }
        if name.eq_ignore_ascii_case(b"mailto") {
            return (start, SpanKind::Mailto);
        }
    }
    (before.len(), SpanKind::Email)
}

// Where the address of this kind ends whose domain starts at `start`: `None` where the domain makes no address.
fn peek_bytes_email_domain(bytes: &[u8], start: usize, kind: SpanKind) -> Option<usize>
    requires { start ≤ length bytes.now }
    ensures { result ≡ address_end bytes.now (is_xmpp kind) start }
{
    // Kept: the search yields its end by `break` with a value, which is a rule of the project.
    let stop = 'domain: {
        for index in start..bytes.len() {
            if !in_domain(&bytes[index..]) {
                break 'domain index;
            }
        }
        bytes.len()
    };
    if !bytes[start..stop].contains(&b'.') || bytes[start] == b'.' || !is_letter(bytes[stop - 1]) {
        return None;
    }
    // Kept: no `get` compared with `Some`, tried: the proof for the last case did not close.
    if kind == SpanKind::Xmpp && stop < bytes.len() && bytes[stop] == b'/' {
        let end = peek_resource(bytes, stop + 1);
        if end > stop + 1 {
            return Some(end);
        }
    }
    Some(stop)
}

// Whether a domain goes on over the first of these bytes.
fn in_domain(rest: &[u8]) -> bool
    ensures { result ≡ in_domain rest.now 0 }
{
    match rest {
        [b'-' | b'_', ..] => true,
        [b, ..] => is_letter_or_digit(*b) || is_inner_dot(rest),
        [] => false,
    }
}

// A `.` before a letter or digit.
fn is_inner_dot(rest: &[u8]) -> bool
    ensures { result ≡ inner_dot rest.now 0 }
{
    matches!(rest, [b'.', next, ..] if is_letter_or_digit(*next))
}

// Where the resource from `start` stops.
fn peek_resource(bytes: &[u8], start: usize) -> usize
    requires { start ≤ length bytes.now }
    ensures { result ≡ resource_stop bytes.now start }
{
    (start..bytes.len())
        .find(|at| !in_resource(&bytes[*at..]))
        .unwrap_or(bytes.len())
}

// Whether a resource goes on over the first of these bytes.
fn in_resource(rest: &[u8]) -> bool
    ensures { result ≡ in_resource rest.now 0 }
{
    match rest {
        [b'@', ..] => true,
        [b, ..] => is_letter_or_digit(*b) || is_inner_dot(rest),
        [] => false,
    }
}
