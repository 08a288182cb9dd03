// Prints the mail addresses of the note on standard input, and with the argument `--marked` the note with its addresses
// marked: docs/FORMATS.md has both formats.
#![tactic(auto)]

mod marking;
mod report;

use marking::make_copy;
use report::make_report;
use std::io::{Read, Write};
use std::{env, io};
use text::notes::LONGEST_NOTE;

fn main(rt: HostRuntime) -> io::Result<()> {
    let mut note = Vec::new(rt.alloc());
    // One byte more than a note may have tells a note that is too long.
    rt.stdin()
        .take(LONGEST_NOTE as u64 + 1)
        .read_to_end(&mut note)?;
    if is_marked_asked(&rt)? {
        let copy = make_copy(rt.alloc(), &note)?;
        return rt.stdout().write_all(&copy);
    }
    let report = make_report(rt.alloc(), &note)?;
    rt.stdout().write_all(&report)
}

fn is_marked_asked(rt: &HostRuntime) -> io::Result<bool> {
    let word = env::args(rt)?.nth(1);
    Ok(word.is_some_and(|word| word.as_str() == "--marked"))
}
