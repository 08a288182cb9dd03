// Range lists: punctuation sets made of numbers that a caller lends.
ghost use Rattle.std.specs.Prelude.{◌≡◌, ◌*◌, length, take};
ghost use Rattle.punctuation.specs.RangeLists.{lawful_after, lawful_front, taken_up, numbers_of, range_member, bad_length, ranges_check, range_list_check, LongestLawfulFront, AcceptedIsTakenWhole, RefusedIsFirstUnlawful, house};
ghost use Rattle.punctuation.specs.KindExamples.{HouseMembers, KindsTold};
ghost use Rattle.punctuation.specs.HighScalars.{range_member_high};

use crate::sets::PunctuationSet;
use text::refusals::Fault;

// The most numbers that the check accepts.
const MOST_NUMBERS: usize = 1024;

// The most ranges that are taken up.
const MOST_RANGES: usize = 512;

// A range begins beyond the first of these, and ends at the second or before.
const LAST_ASCII: u32 = 0x7F;

const LAST_SCALAR: u32 = 0x10FFFF;

// U+2010 to U+2027 and U+2030 to U+205E.
const HOUSE_RANGES: [u32; 4] = [0x2010, 0x2027, 0x2030, 0x205E];

// Members are the scalar values in the ranges, each of a first and a last number.
#[derive(Clone, Copy)]
pub struct RangeList<'a> {
    ranges: &'a [[u32; 2]],
    ghost whole: { taken_up (numbers_of ranges.now) ≡ length ranges.now },
}

impl<'a> RangeList<'a> {
    // Takes up any list of numbers first, last, first, last, and never refuses one. What follows the ranges up to
    // the first unlawful one, 512 at most, is ignored.
    pub fn new(numbers: &'a [u32]) -> RangeList<'a>
        ensures lent { numbers_of result.ranges.now ≡ take (2 * length result.ranges.now) numbers.now }
        ensures longest { LongestLawfulFront numbers.now (length result.ranges.now) }
        ensures members { range_member (numbers_of result.ranges.now) ≡ range_member numbers.now }
    {
        let (ranges, _odd) = numbers.as_chunks::<2>();
        let ranges = &ranges[..ranges.len().min(MOST_RANGES)];
        RangeList {
            ranges: &ranges[..count_lawful(ranges)],
        }
    }
}

impl PunctuationSet for RangeList<'_> {
    ghost member = { λ s. range_member (numbers_of s.ranges.now) };

    ghost high = { λ s. range_member_high (numbers_of s.ranges.now) };

    fn contains(&mut self, c: char) -> bool {
        let code = u32::from(c);
        let ranges = self.ranges;
        // By halves, since lawful ranges ascend.
        // Kept: no `binary_search_by`, tried: it never ends at a hit, so for a character of the middle one of 512 ranges it
        // takes 2.5 times as long. With `split_at` in a loop other characters took twice as long, or 1.4 times.
        let mut low = 0;
        let mut high = ranges.len();
        while low < high {
            let middle = low + (high - low) / 2;
            let [first, last] = &ranges[middle];
            if code < *first {
                high = middle;
            } else if *last < code {
                low = middle + 1;
            } else {
                return true;
            }
        }
        false
    }
}

// The set that notes are read with where no other is given.
pub fn house_set() -> RangeList<'static>
    ensures meaning { range_member (numbers_of result.ranges.now) ≡ house }
    ensures members { HouseMembers }
    ensures kinds { KindsTold }
{
    RangeList::new(&HOUSE_RANGES)
}

// Says what is wrong with a list: its length, or else its first unlawful range.
pub fn check_range_list(numbers: &[u32]) -> Result<(), Fault>
    ensures answer { result ≡ range_list_check numbers.now }
    ensures accepted_is_taken_whole { AcceptedIsTakenWhole numbers.now result }
    ensures refused_is_first_unlawful { RefusedIsFirstUnlawful numbers.now result }
{
    if has_bad_length(numbers) {
        return Err(Fault::BadRangeListLength);
    }
    check_ranges(numbers)
}

fn has_bad_length(numbers: &[u32]) -> bool
    ensures { result ≡ bad_length numbers.now }
{
    numbers.len() % 2 == 1 || numbers.len() > MOST_NUMBERS
}

fn check_ranges(numbers: &[u32]) -> Result<(), Fault>
    ensures { result ≡ ranges_check numbers.now }
{
    let (ranges, _odd) = numbers.as_chunks::<2>();
    let count = count_lawful(ranges);
    if count < ranges.len() {
        return Err(Fault::UnlawfulRange(count));
    }
    Ok(())
}

// How many ranges come before the first unlawful one.
fn count_lawful(ranges: &[[u32; 2]]) -> usize
    ensures { result ≡ lawful_front (numbers_of ranges.now) (length ranges.now) }
{
    let mut before = LAST_ASCII;
    for (k, range) in ranges.iter().enumerate() {
        if !is_lawful_after(before, range) {
            return k;
        }
        before = range[1];
    }
    ranges.len()
}

fn is_lawful_after(before: u32, range: &[u32; 2]) -> bool
    ensures { result ≡ lawful_after before range.now }
{
    let [first, last] = *range;
    before < first && first <= last && last <= LAST_SCALAR
}
