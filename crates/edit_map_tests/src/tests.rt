use Step::*;
use edit_map::{EditMap, HIGHEST, MOST_PLACES};
use std::alloc::AllocError;
use std::fmt::Debug;
use std::process::Abort;
use std::test::*;
use text::Fault;

// A map with a store of 8 bytes and a buffer of 16, which starts as 16 dots.
#[derive(Drop)]
struct Trial {
    map: EditMap,
    store: [u8; 8],
    out: [u8; 16],
}

// A call of the map with what it must answer, or what must be seen of the map then.
#[derive(Drop)]
enum Step<'a> {
    // A place, a count and the elements.
    Add(usize, usize, &'a [u8], Result<(), Fault>),
    AddBefore(usize, usize, &'a [u8], Result<(), Fault>),
    // First how many elements of the store there are.
    AddIn(usize, usize, usize, &'a [u8], Result<(), Fault>),
    // A list.
    Make(&'a [u8], Result<usize, Fault>),
    // First how many elements of the store and of the buffer there are.
    MakeIn(usize, usize, &'a [u8], Result<usize, Fault>),
    Clear,
    // What the store holds, and the whole buffer.
    Holds(&'a [u8], &'a [u8]),
    // How many places, and how many elements are kept.
    Sizes(usize, usize),
}

impl Trial {
    fn new(rt: &impl AllocGlobal) -> Result<Trial, AllocError> {
        let map = EditMap::new(rt.alloc())?;
        Ok(Trial {
            map,
            store: [b' '; 8],
            out: [b'.'; 16],
        })
    }

    fn add(&mut self, place: usize, count: usize, elements: &[u8]) -> Result<(), Fault> {
        self.map.add(&mut self.store, place, count, elements)
    }

    fn add_before(&mut self, place: usize, count: usize, elements: &[u8]) -> Result<(), Fault> {
        self.map.add_before(&mut self.store, place, count, elements)
    }

    fn add_in(
        &mut self,
        room: usize,
        place: usize,
        count: usize,
        elements: &[u8],
    ) -> Result<(), Fault> {
        let room = room.min(8);
        self.map
            .add(&mut self.store[0..room], place, count, elements)
    }

    fn make(&mut self, list: &[u8]) -> Result<usize, Fault> {
        self.out = [b'.'; 16];
        self.map.consume(&self.store, list, &mut self.out)
    }

    fn make_in(&mut self, room: usize, size: usize, list: &[u8]) -> Result<usize, Fault> {
        let store = self.store;
        let room = room.min(8);
        let size = size.min(16);
        self.map
            .consume(&store[0..room], list, &mut self.out[0..size])
    }

    fn sizes(&self) -> (usize, usize) {
        (self.map.len(), self.map.kept())
    }

    fn check_step(&mut self, rt: &impl Abort, at: usize, step: &Step) {
        match *step {
            Add(place, count, elements, answer) => {
                compare(rt, at, &self.add(place, count, elements), &answer)
            }
            AddBefore(place, count, elements, answer) => {
                compare(rt, at, &self.add_before(place, count, elements), &answer)
            }
            AddIn(room, place, count, elements, answer) => {
                compare(rt, at, &self.add_in(room, place, count, elements), &answer)
            }
            Make(list, answer) => compare(rt, at, &self.make(list), &answer),
            MakeIn(room, size, list, answer) => {
                compare(rt, at, &self.make_in(room, size, list), &answer)
            }
            Clear => self.map.clear(),
            Holds(store, out) => {
                compare(rt, at, &self.store.as_slice(), &store);
                compare(rt, at, &self.out.as_slice(), &out);
            }
            Sizes(places, kept) => {
                compare(rt, at, &self.sizes(), &(places, kept));
                compare(rt, at, &self.map.is_empty(), &(places == 0));
            }
        }
    }

    fn check_steps(&mut self, rt: &impl Abort, steps: &[Step]) {
        for (at, step) in steps.iter().enumerate() {
            self.check_step(rt, at, step);
        }
    }
}

// Each `assert_eq!` takes the prover seconds, and a call of this next to nothing.
fn compare<T: PartialEq + Debug>(rt: &impl Abort, at: usize, found: &T, wanted: &T) {
    assert_eq!(rt; *found, *wanted, "at step {at}");
}

fn check_steps(rt: &(impl Abort + AllocGlobal), steps: &[Step]) -> Result<(), Fail> {
    Trial::new(rt)?.check_steps(rt, steps);
    Ok(())
}

#[test]
fn no_edits(rt: HostRuntime) -> Result<(), Fail> {
    check_steps(
        &rt,
        &[
            Sizes(0, 0),
            Make(b"abc", Ok(3)),
            Holds(b"        ", b"abc............."),
            Make(b"", Ok(0)),
            Make(b"0123456789abcdef", Ok(16)),
            Holds(b"        ", b"0123456789abcdef"),
            Make(b"0123456789abcdefg", Err(Fault::BufferTooShort(17))),
        ],
    )
}

#[test]
fn first_and_last_place(rt: HostRuntime) -> Result<(), Fail> {
    check_steps(
        &rt,
        &[
            Add(5, 0, b"!", Ok(())),
            Add(0, 1, b"<>", Ok(())),
            Add(3, 1, b"", Ok(())),
            Sizes(3, 3),
            Make(b"abcde", Ok(6)),
            Holds(b"<>!     ", b"<>bce!.........."),
            // The whole list is removed, and then no edit is left.
            Add(0, 5, b"", Ok(())),
            Make(b"abcde", Ok(0)),
            Make(b"abcde", Ok(5)),
        ],
    )
}

#[test]
fn an_edit_past_the_end(rt: HostRuntime) -> Result<(), Fail> {
    check_steps(
        &rt,
        &[
            Add(0, 1, b"x", Ok(())),
            Add(4, 2, b"y", Ok(())),
            Make(b"abcde", Err(Fault::EditOutOfRange(1))),
            Make(b"", Err(Fault::EditOutOfRange(0))),
            Holds(b"xy      ", b"................"),
            // The place plus the count is the length.
            Make(b"abcdef", Ok(5)),
            // One past the place where elements are appended.
            Add(6, 0, b"z", Ok(())),
            Make(b"abcde", Err(Fault::EditOutOfRange(0))),
        ],
    )
}

#[test]
fn highest_place_and_count(rt: HostRuntime) -> Result<(), Fail> {
    check_steps(
        &rt,
        &[
            Add(HIGHEST, HIGHEST, b"", Ok(())),
            Add(HIGHEST + 1, 0, b"x", Err(Fault::EditOutOfRange(0))),
            // Refused though it would have no effect.
            Add(HIGHEST + 1, 0, b"", Err(Fault::EditOutOfRange(0))),
            AddBefore(0, HIGHEST + 1, b"x", Err(Fault::EditOutOfRange(0))),
            Sizes(1, 0),
        ],
    )
}

#[test]
fn counts_are_summed(rt: HostRuntime) -> Result<(), Fail> {
    check_steps(
        &rt,
        &[
            Add(7, 4000, b"", Ok(())),
            // 13 is tested before 15.
            AddBefore(7, 97, b"123456789", Err(Fault::EditOutOfRange(0))),
            Add(7, 96, b"", Ok(())),
            Add(7, 1, b"", Err(Fault::EditOutOfRange(0))),
            Add(7, 0, b"x", Ok(())),
            Sizes(1, 1),
        ],
    )
}

#[test]
fn all_places(rt: HostRuntime) -> Result<(), Fail> {
    let mut trial = Trial::new(&rt)?;
    // From the last place to the first, so that each is put before all others.
    for i in (0..MOST_PLACES).rev() {
        trial.check_step(&rt, i, &Add(2 * i, 1, b"", Ok(())));
    }
    trial.check_steps(
        &rt,
        &[
            Add(1, 1, b"", Err(Fault::NoRoomForEdit)),
            AddBefore(2 * MOST_PLACES, 0, b"x", Err(Fault::NoRoomForEdit)),
            // An add with no effect takes no place, and one at a place that has an edit no new place.
            Add(1, 0, b"", Ok(())),
            Add(2, 0, b"x", Ok(())),
            Sizes(MOST_PLACES, 1),
        ],
    );
    every_second(&rt, &mut trial)?;
    // All places are free again.
    trial.check_step(&rt, 0, &Add(1, 1, b"", Ok(())));
    Ok(())
}

// Of 2,048 elements every second is removed, the first one too, and one is put in before element 3.
fn every_second(rt: &(impl Abort + AllocGlobal), trial: &mut Trial) -> Result<(), Fail> {
    let list = vec![in rt.alloc(); b'a'; 2048]?;
    let mut out = vec![in rt.alloc(); b'.'; 1026]?;
    compare(
        rt,
        0,
        &trial.map.consume(&trial.store, &list, &mut out),
        &Ok(1025),
    );
    assert!(rt; out.starts_with(b"axa"));
    assert!(rt; out.ends_with(b"aa."));
    Ok(())
}

#[test]
fn a_full_store(rt: HostRuntime) -> Result<(), Fail> {
    check_steps(
        &rt,
        &[
            Add(2, 0, b"1234567", Ok(())),
            Add(1, 0, b"ab", Err(Fault::NoRoomForEdit)),
            AddBefore(2, 0, b"ab", Err(Fault::NoRoomForEdit)),
            Holds(b"1234567 ", b"................"),
            // The store is just full.
            Add(1, 0, b"a", Ok(())),
            Holds(b"a1234567", b"................"),
            Add(9, 1, b"", Ok(())),
            // A store without the kept elements is refused, but none is asked for where there is no effect.
            AddIn(7, 8, 1, b"", Err(Fault::NoRoomForEdit)),
            AddIn(7, 8, 0, b"", Ok(())),
            Sizes(3, 8),
        ],
    )
}

#[test]
fn a_store_or_a_buffer_that_is_short(rt: HostRuntime) -> Result<(), Fail> {
    check_steps(
        &rt,
        &[
            Add(1, 1, b"xyz", Ok(())),
            // 15 is tested before 16.
            MakeIn(2, 6, b"abcde", Err(Fault::NoRoomForEdit)),
            MakeIn(3, 6, b"abcde", Err(Fault::BufferTooShort(7))),
            Holds(b"xyz     ", b"................"),
            Sizes(1, 3),
            MakeIn(3, 7, b"abcde", Ok(7)),
            Holds(b"xyz     ", b"axyzcde........."),
            Sizes(0, 0),
        ],
    )
}

#[test]
fn runs_that_touch(rt: HostRuntime) -> Result<(), Fail> {
    check_steps(
        &rt,
        &[
            Add(5, 1, b"y", Ok(())),
            Add(2, 3, b"x", Ok(())),
            // 5 is the first element behind the run.
            Make(b"abcdefghi", Ok(7)),
            Holds(b"xy      ", b"abxyghi........."),
        ],
    )
}

#[test]
fn runs_that_overlap(rt: HostRuntime) -> Result<(), Fail> {
    check_steps(
        &rt,
        &[
            Add(2, 3, b"", Ok(())),
            Add(4, 0, b"y", Ok(())),
            Make(b"abcdefghi", Err(Fault::EditInsideRemoval(1))),
            // 13 is tested over all edits first.
            Add(9, 1, b"", Ok(())),
            Make(b"abcdefghi", Err(Fault::EditOutOfRange(2))),
            Sizes(3, 1),
            Clear,
            Make(b"abcdefghi", Ok(9)),
        ],
    )
}

#[test]
fn two_adds_at_a_place(rt: HostRuntime) -> Result<(), Fail> {
    check_steps(
        &rt,
        &[
            Add(3, 0, b"|", Ok(())),
            Add(1, 1, b"12", Ok(())),
            Add(1, 1, b"34", Ok(())),
            Make(b"abcd", Ok(7)),
            Holds(b"1234|   ", b"a1234|d........."),
            Add(3, 0, b"|", Ok(())),
            AddBefore(1, 1, b"12", Ok(())),
            AddBefore(1, 1, b"34", Ok(())),
            Make(b"abcd", Ok(7)),
            Holds(b"3412|   ", b"a3412|d........."),
        ],
    )
}

#[test]
fn an_add_and_one_before_it(rt: HostRuntime) -> Result<(), Fail> {
    check_steps(
        &rt,
        &[
            AddBefore(1, 1, b"12", Ok(())),
            Add(1, 1, b"34", Ok(())),
            Add(0, 0, b"|", Ok(())),
            Make(b"abcd", Ok(7)),
            Holds(b"|1234   ", b"|a1234d........."),
            Add(1, 1, b"12", Ok(())),
            AddBefore(1, 1, b"34", Ok(())),
            AddBefore(0, 0, b"|", Ok(())),
            Make(b"abcd", Ok(7)),
            Holds(b"|3412   ", b"|a3412d........."),
        ],
    )
}

#[test]
fn elements_other_than_bytes(rt: HostRuntime) -> Result<(), Fail> {
    let mut map = EditMap::new(rt.alloc())?;
    let mut store = [(0u32, 'a'); 4];
    let mut out = [(0u32, 'a'); 4];
    compare(
        &rt,
        0,
        &map.add(&mut store, 1, 1, &[(7, 'x'), (8, 'y')]),
        &Ok(()),
    );
    let list = [(1, 'b'), (2, 'c'), (3, 'd')];
    compare(&rt, 1, &map.consume(&store, &list, &mut out), &Ok(4));
    compare(&rt, 2, &out, &[(1, 'b'), (7, 'x'), (8, 'y'), (3, 'd')]);
    Ok(())
}
