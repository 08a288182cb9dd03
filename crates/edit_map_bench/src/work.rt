// What the benchmark does.
use edit_map::{EditMap, MOST_PLACES};
use std::alloc::{AllocError, Global};
use std::fmt;
use text::Fault;

const LIST_SIZE: usize = 65536;

// What is put in at each place.
const ADDED: [u8; 2] = *b"<>";

// Elements beyond those of the list that the new list has.
const MORE: usize = MOST_PLACES;

#[derive(Drop)]
pub struct Load {
    map: EditMap,
    list: Vec<u8>,
    store: Vec<u8>,
    out: Vec<u8>,
}

// How many edits were made and elements written in all, and how many elements in the last round.
#[derive(Clone, Copy, Default)]
pub struct Tally {
    pub edits: u64,
    pub elements: u64,
    pub last: usize,
}

impl fmt::Display for Tally {
    fn fmt<W: fmt::Write>(&self, f: &mut fmt::Formatter<W>) -> fmt::Result {
        let Tally {
            edits,
            elements,
            last,
        } = *self;
        write!(
            f,
            "{edits} edits made, {elements} elements written, {last} at last"
        )
    }
}

impl Load {
    pub fn new(heap: Global) -> Result<Load, AllocError> {
        let map = EditMap::new(heap)?;
        let list = vec![in heap; b'a'; LIST_SIZE]?;
        let store = vec![in heap; b' '; MOST_PLACES * ADDED.len()]?;
        let out = vec![in heap; b' '; LIST_SIZE + MORE]?;
        Ok(Load {
            map,
            list,
            store,
            out,
        })
    }

    // Each round keeps an edit at every fourth place, which replaces one element by two, and then makes them all.
    pub fn run(&mut self, rounds: u32) -> Result<Tally, Fault> {
        let mut tally = Tally::default();
        for _ in 0..rounds {
            for rank in 0..MOST_PLACES {
                self.map.add(&mut self.store, 4 * rank, 1, &ADDED)?;
            }
            let edits = self.map.len();
            tally.last = self.map.consume(&self.store, &self.list, &mut self.out)?;
            tally.edits = tally.edits.saturating_add(edits as u64);
            tally.elements = tally.elements.saturating_add(tally.last as u64);
        }
        Ok(tally)
    }
}
