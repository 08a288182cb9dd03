// A dash behind `http://`: a web link goes on over it unless the set has it.
use crate::forms::{Form, Row, check_rows};
use punctuation::range_lists::{RangeList, house_set};
use punctuation::sets::{Either, EmptySet};
use std::test::Fail;

// U+2014 is the dash.
const LINK: Row<'static> = Row {
    note: b"http://\xE2\x80\x94",
    links: &[],
    form: Form::SavedList,
    written: &[1, 0, 10],
};

const NO_LINK: Row<'static> = Row {
    note: b"http://\xE2\x80\x94",
    links: &[],
    form: Form::SavedList,
    written: &[],
};

#[test]
fn dash_in_a_set_and_in_none(rt: HostRuntime) -> Result<(), Fail> {
    check_rows(&rt, EmptySet, &[LINK])?;
    check_rows(&rt, house_set(), &[NO_LINK])?;
    // U+2010 to U+2013
    let beside = RangeList::new(&[0x2010, 0x2013]);
    check_rows(&rt, Either(EmptySet, beside), &[LINK])?;
    check_rows(
        &rt,
        Either(Either(beside, house_set()), EmptySet),
        &[NO_LINK],
    )?;
    Ok(())
}
