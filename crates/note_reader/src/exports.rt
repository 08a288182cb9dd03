// The exported functions.
use crate::failures::Failure;
pub use crate::reading::Reading;
use crate::reading::{put_kinds, read_all, read_in_parts};
use std::alloc::Global;

// How much was written, or the code of the refusal.
fn answer(written: Result<usize, Failure>) -> u64 {
    written.map_or_else(u64::from, |used| used as u64)
}

// Reads a whole note with the house set: one push, one end. Where it was refused, or memory was wanting, both numbers are 2^64 - 1.
// Kept: numbers and no Option, since they go over the C interface.
#[unsafe(no_mangle)]
pub extern "C" fn read_whole(heap: Global, note: &[u8]) -> Reading {
    read_all(heap, note).unwrap_or(Reading {
        steps: u64::MAX,
        events: u64::MAX,
    })
}

// Reads a note in parts, and resolves links. Answers how many numbers were written, or the code of the refusal.
#[unsafe(no_mangle)]
pub extern "C" fn read_note(
    heap: Global,
    note: &[u8],
    ranges: &[u32],
    pushes: &[u64],
    links: &[u64],
    out: &mut [u64],
) -> u64 {
    answer(read_in_parts(heap, note, ranges, pushes, links, out))
}

// The kind of the character at each place of a note, the end among them: 0 white space, 1 punctuation, 2 other.
#[unsafe(no_mangle)]
pub extern "C" fn kinds_of(note: &[u8], ranges: &[u32], out: &mut [u8]) -> u64 {
    answer(put_kinds(note, ranges, out))
}
