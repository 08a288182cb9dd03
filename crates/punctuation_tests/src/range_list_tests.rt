// Range lists: what the check says of them, and which characters they have.
use punctuation::range_lists::{check_range_list, house_set};
use punctuation::{PunctuationSet, RangeList};
use std::array;
use std::process::Abort;
use text::Fault;

fn answers(rt: &impl Abort, numbers: &[u32], answer: Result<(), Fault>) {
    assert_eq!(rt; check_range_list(numbers), answer, "{numbers:?}");
}

// The set has all of the members and none of the others.
fn parts<S: PunctuationSet>(rt: &impl Abort, set: &mut S, members: &[char], others: &[char]) {
    for &c in members {
        assert!(rt; set.contains(c), "{c:?} is no member");
    }
    for &c in others {
        assert!(rt; !set.contains(c), "{c:?} is a member");
    }
}

#[test]
fn lists_that_are_accepted(rt: HostRuntime) {
    answers(&rt, &[], Ok(()));
    answers(&rt, &[200, 300, 301, 400], Ok(()));
    answers(&rt, &[128, 1114111], Ok(()));
    answers(&rt, &[0xD7FF, 0xE000], Ok(()));
}

#[test]
fn lists_of_a_bad_length(rt: HostRuntime) {
    answers(&rt, &[200], Err(Fault::BadRangeListLength));
    answers(&rt, &[300, 200, 400], Err(Fault::BadRangeListLength));
}

#[test]
fn lists_with_an_unlawful_range(rt: HostRuntime) {
    answers(&rt, &[127, 200], Err(Fault::UnlawfulRange(0)));
    answers(&rt, &[300, 200], Err(Fault::UnlawfulRange(0)));
    answers(&rt, &[128, 1114112], Err(Fault::UnlawfulRange(0)));
    answers(&rt, &[200, 300, 300, 400], Err(Fault::UnlawfulRange(1)));
    answers(
        &rt,
        &[200, 300, 100, 150, 400, 500],
        Err(Fault::UnlawfulRange(1)),
    );
    answers(
        &rt,
        &[200, 300, 400, 500, 450, 600, 1, 0],
        Err(Fault::UnlawfulRange(2)),
    );
}

// 513 ranges of two characters each, which touch.
fn many_numbers() -> [u32; 1026] {
    array::from_fn(|i| 200 + i as u32)
}

#[test]
fn the_longest_lists(rt: HostRuntime) {
    let numbers = many_numbers();
    answers(&rt, &numbers[0..1024], Ok(()));
    answers(&rt, &numbers[0..1025], Err(Fault::BadRangeListLength));
    answers(&rt, &numbers[0..1026], Err(Fault::BadRangeListLength));
}

#[test]
fn at_most_512_ranges_are_taken_up(rt: HostRuntime) {
    let numbers = many_numbers();
    let mut set = RangeList::new(&numbers);
    // The first of range 0 and the last of range 511, the one before and the one after.
    parts(
        &rt,
        &mut set,
        &['\u{C8}', '\u{4C7}'],
        &['\u{C7}', '\u{4C8}'],
    );
}

#[test]
fn the_front_up_to_the_first_unlawful_range_is_taken_up(rt: HostRuntime) {
    let mut set = RangeList::new(&[200, 300, 400, 500, 450, 600, 700, 800]);
    parts(
        &rt,
        &mut set,
        &['\u{12C}', '\u{1F4}'],
        &['\u{12D}', '\u{1F5}', '\u{2BC}'],
    );
}

#[test]
fn an_odd_last_number_is_ignored(rt: HostRuntime) {
    let mut set = RangeList::new(&[200, 300, 400]);
    parts(&rt, &mut set, &['\u{C8}'], &['\u{190}']);
    parts(&rt, &mut RangeList::new(&[200]), &[], &['\u{C8}']);
}

#[test]
fn a_range_around_the_surrogates(rt: HostRuntime) {
    let mut set = RangeList::new(&[0xD7FF, 0xE000]);
    parts(
        &rt,
        &mut set,
        &['\u{D7FF}', '\u{E000}'],
        &['\u{D7FE}', '\u{E001}'],
    );
}

#[test]
fn the_house_set_at_its_limits(rt: HostRuntime) {
    let mut set = house_set();
    parts(
        &rt,
        &mut set,
        &['\u{2010}', '\u{2014}', '\u{2027}', '\u{2030}', '\u{205E}'],
        &['\u{A7}', '\u{200F}', '\u{2028}', '\u{202F}', '\u{205F}'],
    );
}
