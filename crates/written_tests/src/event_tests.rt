// Events by their numbers.
use crate::forms::resolve;
use machine::{EventKind, Name};
use punctuation::range_lists::{RangeList, house_set};
use reader::Reader;
use std::test::Fail;
use text::{Fault, SpanKind};

#[test]
fn events_below_the_count_and_above(rt: HostRuntime) -> Result<(), Fail> {
    let mut reader = Reader::new(rt.alloc(), house_set())?;
    assert!(rt; is_refused(&reader, 0));
    assert!(rt; resolve(&mut reader, b"a www.b", &[]).is_ok());
    assert!(rt; reader.event_count() == 4);
    assert!(rt; is_exit_of_www(&reader, 3));
    assert!(rt; is_refused(&reader, 4) && is_refused(&reader, usize::MAX));
    reader.clear();
    assert!(rt; is_refused(&reader, 0));
    Ok(())
}

fn is_refused(reader: &Reader<RangeList<'static>>, index: usize) -> bool {
    matches!(reader.event(index), Err(Fault::NoSuchEvent))
}

fn is_exit_of_www(reader: &Reader<RangeList<'static>>, index: usize) -> bool {
    match reader.event(index) {
        Ok(event) => {
            event.kind == EventKind::Exit
                && event.name == Name::Address(SpanKind::Www)
                && event.point.index == 7
        }
        Err(_) => false,
    }
}
