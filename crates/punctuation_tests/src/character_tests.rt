// Characters at the limits of each row of the table of well-formed sequences, bytes that begin no row, and white space.
use characters::char_indices::char_indices;
use characters::utf8::char_at;
use characters::white_space::is_white_space;
use characters::widths::char_width;
use std::process::Abort;

fn reads_at(rt: &impl Abort, bytes: &[u8], index: usize, c: Option<char>) {
    assert_eq!(rt; char_at(bytes, index), c, "at {index} in {bytes:?}");
}

fn reads(rt: &impl Abort, bytes: &[u8], c: char) {
    reads_at(rt, bytes, 0, Some(c));
}

fn reads_nothing(rt: &impl Abort, bytes: &[u8]) {
    reads(rt, bytes, '\u{FFFD}');
}

#[test]
fn one_and_two_bytes(rt: HostRuntime) {
    reads(&rt, &[0x00], '\u{0}');
    reads(&rt, &[0x7F, 0x80], '\u{7F}');
    reads(&rt, &[0xC2, 0x80], '\u{80}');
    reads(&rt, &[0xDF, 0xBF, 0xBF], '\u{7FF}');
}

#[test]
fn three_bytes(rt: HostRuntime) {
    reads(&rt, &[0xE0, 0xA0, 0x80], '\u{800}');
    reads(&rt, &[0xE0, 0xBF, 0xBF], '\u{FFF}');
    reads(&rt, &[0xE1, 0x80, 0x80], '\u{1000}');
    reads(&rt, &[0xEC, 0xBF, 0xBF], '\u{CFFF}');
    reads(&rt, &[0xED, 0x80, 0x80], '\u{D000}');
    reads(&rt, &[0xED, 0x9F, 0xBF], '\u{D7FF}');
    reads(&rt, &[0xEE, 0x80, 0x80], '\u{E000}');
    reads(&rt, &[0xEF, 0xBF, 0xBF], '\u{FFFF}');
    reads(&rt, &[0xEF, 0xBF, 0xBD], '\u{FFFD}');
}

#[test]
fn four_bytes(rt: HostRuntime) {
    reads(&rt, &[0xF0, 0x90, 0x80, 0x80], '\u{10000}');
    reads(&rt, &[0xF0, 0xBF, 0xBF, 0xBF], '\u{3FFFF}');
    reads(&rt, &[0xF1, 0x80, 0x80, 0x80], '\u{40000}');
    reads(&rt, &[0xF3, 0xBF, 0xBF, 0xBF], '\u{FFFFF}');
    reads(&rt, &[0xF4, 0x80, 0x80, 0x80], '\u{100000}');
    reads(&rt, &[0xF4, 0x8F, 0xBF, 0xBF, 0x61], '\u{10FFFF}');
}

#[test]
fn overlong_sequences(rt: HostRuntime) {
    reads_nothing(&rt, &[0xC0, 0x80]);
    reads_nothing(&rt, &[0xC1, 0xBF]);
    reads_nothing(&rt, &[0xE0, 0x9F, 0xBF]);
    reads_nothing(&rt, &[0xF0, 0x8F, 0xBF, 0xBF]);
}

#[test]
fn surrogates_and_numbers_past_the_last(rt: HostRuntime) {
    reads_nothing(&rt, &[0xED, 0xA0, 0x80]);
    reads_nothing(&rt, &[0xED, 0xBF, 0xBF]);
    reads_nothing(&rt, &[0xF4, 0x90, 0x80, 0x80]);
    reads_nothing(&rt, &[0xF5, 0x80, 0x80, 0x80]);
    reads_nothing(&rt, &[0xFF]);
}

#[test]
fn truncated_and_broken_sequences(rt: HostRuntime) {
    reads_nothing(&rt, &[0x80]);
    reads_nothing(&rt, &[0xC2]);
    reads_nothing(&rt, &[0xE2, 0x80]);
    reads_nothing(&rt, &[0xF0, 0x9F, 0x91]);
    reads_nothing(&rt, &[0xC2, 0x7F]);
    reads_nothing(&rt, &[0xE1, 0x80, 0xC0]);
    reads_nothing(&rt, &[0xF1, 0x80, 0x80, 0x7F]);
}

#[test]
fn a_place_inside_at_and_past_the_end(rt: HostRuntime) {
    let bytes = [0x61, 0xE2, 0x80, 0x94];
    reads_at(&rt, &bytes, 1, Some('\u{2014}'));
    reads_at(&rt, &bytes, 2, Some('\u{FFFD}'));
    reads_at(&rt, &bytes, 4, None);
    reads_at(&rt, &bytes, usize::MAX, None);
}

#[test]
fn characters_in_turn(rt: HostRuntime) {
    let mut characters = char_indices(&[0x61, 0xE2, 0x80, 0x94, 0x80, 0xC3, 0xA9]);
    for expected in [
        Some((0, 'a')),
        Some((1, '\u{2014}')),
        Some((4, '\u{FFFD}')),
        Some((5, '\u{E9}')),
        None,
    ] {
        assert_eq!(rt; characters.next(), expected);
    }
    assert_eq!(rt; char_indices(&[]).next(), None);
}

// The first and the last character of each range of white space.
const ENDS: [char; 13] = [
    '\u{9}', '\u{D}', '\u{20}', '\u{85}', '\u{A0}', '\u{1680}', '\u{2000}', '\u{200A}', '\u{2028}',
    '\u{2029}', '\u{202F}', '\u{205F}', '\u{3000}',
];

// The characters beside them.
const BESIDE: [char; 19] = [
    '\u{8}', '\u{E}', '\u{1F}', '\u{21}', '\u{84}', '\u{86}', '\u{9F}', '\u{A1}', '\u{167F}',
    '\u{1681}', '\u{1FFF}', '\u{200B}', '\u{2027}', '\u{202A}', '\u{202E}', '\u{2030}', '\u{205E}',
    '\u{2060}', '\u{3001}',
];

#[test]
fn white_space_ends(rt: HostRuntime) {
    for c in ENDS {
        assert!(rt; is_white_space(c));
    }
    for c in BESIDE {
        assert!(rt; !is_white_space(c));
    }
}

fn has_width(rt: &impl Abort, bytes: &[u8], index: usize, width: usize) {
    assert_eq!(rt; char_width(bytes, index), width, "at {index} in {bytes:?}");
}

#[test]
fn widths(rt: HostRuntime) {
    has_width(&rt, b"a", 0, 1);
    has_width(&rt, &[0xC3, 0xA9], 0, 2);
    has_width(&rt, &[0xE2, 0x80, 0x94], 0, 3);
    has_width(&rt, &[0xEF, 0xBF, 0xBD], 0, 3);
    has_width(&rt, &[0xF0, 0x9F, 0x91, 0x8D], 0, 4);
    has_width(&rt, &[0xE2, 0x80], 0, 1);
    has_width(&rt, b"a", 1, 0);
}
