// A reader that is not resolved: each form is refused with 12, and nothing is changed.
use crate::forms::{FORMS, are_dots, numbers};
use calls::Call;
use edit_map::EditMap;
use punctuation::range_lists::{RangeList, house_set};
use reader::Reader;
use std::process::Abort;
use std::test::Fail;

// The last call is accepted only because the end before it paused.
const CALLS: [Call<'static>; 5] = [
    Call::Clear,
    Call::Load(b"h "),
    Call::Push {
        to: 2,
        allowance: 99,
    },
    Call::End { allowance: 1 },
    Call::End { allowance: 99 },
];

#[test]
fn each_phase_before_resolved(rt: HostRuntime) -> Result<(), Fail> {
    let mut reader = Reader::new(rt.alloc(), house_set())?;
    let mut map = EditMap::new(rt.alloc())?;
    assert!(rt; map.add(&mut [0; 4], 1, 0, b"kept").is_ok());
    for call in CALLS {
        assert!(rt; reader.make(call).is_ok());
        check_refused(&rt, &mut map, &reader);
    }
    assert!(rt; reader.resolve().is_ok());
    check_accepted(&rt, &mut map, &reader);
    Ok(())
}

fn check_refused(rt: &impl Abort, map: &mut EditMap, reader: &Reader<RangeList<'static>>) {
    let mut out = [b'.'; 400];
    for form in FORMS {
        // 12 is tested before 16.
        for room in [0, 400] {
            let refused = form.write(map, reader, &mut out[..room]);
            assert!(rt; numbers(refused) == (12, 0));
        }
    }
    assert!(rt; are_dots(&out));
    assert!(rt; map.kept() == 4);
}

fn check_accepted(rt: &impl Abort, map: &mut EditMap, reader: &Reader<RangeList<'static>>) {
    for form in FORMS {
        assert!(rt; form.write(map, reader, &mut [b'.'; 400]).is_ok());
    }
    assert!(rt; map.is_empty());
}
