// Kinds of characters under several sets.
use crate::counting_set::CountingSet;
use CharacterKind::{Other, Punctuation, Whitespace};
use punctuation::kinds::kind_after_index;
use punctuation::range_lists::house_set;
use punctuation::{CharacterKind, Either, EmptySet, PunctuationSet, RangeList};
use std::process::Abort;

// U+2014, a dash.
const DASH: [u8; 3] = [0xE2, 0x80, 0x94];

fn has_kind<S: PunctuationSet>(
    rt: &impl Abort,
    bytes: &[u8],
    index: usize,
    set: &mut S,
    kind: CharacterKind,
) {
    assert_eq!(rt;
        kind_after_index(bytes, index, set),
        kind,
        "at {index} in {bytes:?}"
    );
}

#[test]
fn a_dash_is_punctuation_by_the_house_set_alone(rt: HostRuntime) {
    has_kind(&rt, &DASH, 0, &mut house_set(), Punctuation);
    has_kind(&rt, &DASH, 0, &mut EmptySet, Other);
    // The byte 80 alone is no character.
    has_kind(&rt, &DASH, 1, &mut house_set(), Other);
}

#[test]
fn the_end_is_white_space(rt: HostRuntime) {
    has_kind(&rt, &DASH, 3, &mut house_set(), Whitespace);
    has_kind(&rt, &DASH, 9, &mut house_set(), Whitespace);
    has_kind(&rt, &[], 0, &mut EmptySet, Whitespace);
}

#[test]
fn ascii_kinds_at_the_limits_of_their_ranges(rt: HostRuntime) {
    for b in [33, 47, 58, 64, 91, 96, 123, 126] {
        has_kind(&rt, &[b], 0, &mut EmptySet, Punctuation);
    }
    for b in [8, 14, 31, 48, 57, 65, 90, 97, 122, 127] {
        has_kind(&rt, &[b], 0, &mut EmptySet, Other);
    }
    for b in [9, 13, 32] {
        has_kind(&rt, &[b], 0, &mut EmptySet, Whitespace);
    }
}

#[test]
fn no_set_makes_white_space_punctuation(rt: HostRuntime) {
    let mut all = RangeList::new(&[0x80, 0x10FFFF]);
    has_kind(&rt, &[0xC2, 0xA0], 0, &mut all, Whitespace);
    has_kind(&rt, &[0xC3, 0xA9], 0, &mut all, Punctuation);
    has_kind(&rt, b"a", 0, &mut all, Other);
}

#[test]
fn a_set_with_the_replacement_character_tells_ill_formed_bytes(rt: HostRuntime) {
    let mut set = RangeList::new(&[0xFFFD, 0xFFFD]);
    for bytes in [
        [0xED, 0xA0, 0x80, 0x61],
        [0xF4, 0x90, 0x80, 0x80],
        [0xC0, 0x80, 0x61, 0x61],
        [0xEF, 0xBF, 0xBD, 0x61],
    ] {
        has_kind(&rt, &bytes, 0, &mut set, Punctuation);
    }
    for bytes in [
        [0xED, 0x9F, 0xBF, 0x61],
        [0xF4, 0x8F, 0xBF, 0xBF],
        [0xC2, 0x80, 0x61, 0x61],
        [0xEF, 0xBF, 0xBC, 0x61],
    ] {
        has_kind(&rt, &bytes, 0, &mut set, Other);
    }
}

#[test]
fn either_of_two_sets_in_depth_two(rt: HostRuntime) {
    let mut set = Either(
        Either(EmptySet, RangeList::new(&[0xA7, 0xA7])),
        Either(house_set(), EmptySet),
    );
    for c in ['\u{A7}', '\u{2014}'] {
        assert!(rt; set.contains(c), "{c:?}");
    }
    for c in ['\u{B6}', '\u{A6}'] {
        assert!(rt; !set.contains(c), "{c:?}");
    }
}

#[test]
fn a_set_may_change_while_its_meaning_stays(rt: HostRuntime) {
    let mut set = CountingSet {
        set: house_set(),
        questions: 0,
    };
    has_kind(&rt, &DASH, 0, &mut set, Punctuation);
    assert_eq!(rt; set.questions, 1);
    has_kind(&rt, &DASH, 0, &mut set, Punctuation);
    assert_eq!(rt; set.questions, 2);
    // Neither ASCII nor white space is asked for.
    has_kind(&rt, b"a", 0, &mut set, Other);
    has_kind(&rt, &[0xC2, 0xA0], 0, &mut set, Whitespace);
    assert_eq!(rt; set.questions, 2);
}
