// The punctuation sets of the list, as the numbers of range lists.
ghost use Rattle.std.specs.Prelude.{◌≡◌, IfOk};
ghost use Rattle.recorded_answers.specs.Sets.{many, set_numbers};

use std::alloc::{AllocError, Global};

const HOUSE: [u32; 4] = [0x2010, 0x2027, 0x2030, 0x205E];

const REPLACEMENT: [u32; 6] = [0xA0, 0xA7, 0x2014, 0x2014, 0xFFFD, 0xFFFD];

// As many ranges as a range list has at most, over half of all characters.
const MANY: u32 = 512;

const MANY_FIRST: u32 = 128;

const MANY_STEP: u32 = 2175;

const MANY_REACH: u32 = 1087;

#[derive(Clone, Copy)]
pub enum ListedSet {
    Empty,
    House,
    Replacement,
    Many,
}

impl ListedSet {
    pub fn ranges(self, heap: Global) -> Result<Vec<u32>, AllocError>
        ensures { IfOk result (λ v. v.items ≡ set_numbers self) }
    {
        match self {
            ListedSet::Empty => Ok(Vec::new(heap)),
            ListedSet::House => Vec::from_slice(heap, &HOUSE),
            ListedSet::Replacement => Vec::from_slice(heap, &REPLACEMENT),
            ListedSet::Many => many_ranges(heap),
        }
    }
}

fn many_ranges(heap: Global) -> Result<Vec<u32>, AllocError>
    ensures { IfOk result (λ v. v.items ≡ many 512) }
{
    let mut numbers = Vec::new(heap);
    for rank in 0..MANY {
        let first = MANY_FIRST + MANY_STEP * rank;
        numbers.extend_from_slice(&[first, first + MANY_REACH])?;
    }
    Ok(numbers)
}
