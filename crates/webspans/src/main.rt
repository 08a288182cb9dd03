// Prints the events of the note on standard input, which are those of its web spans, line endings and data, and the steps
// that it took. With an option it reads in pieces, or with pauses, and prints each call first: docs/FORMATS.md, section 8.
#![tactic(auto)]

mod report;

use readings::Plan;
use report::make_report;
use std::io::{Read, Write};
use std::{env, io};
use text::notes::LONGEST_NOTE;

fn main(rt: HostRuntime) -> io::Result<()> {
    let words: Vec<String> = env::args(&rt)?.skip(1).collect(rt.alloc())?;
    let Some(plan) = Plan::from_words(&words) else {
        return println!(rt; "usage: webspans [--pieces N] [--allowance N], each N from 1");
    };
    let note = read_note(&rt)?;
    let report = make_report(rt.alloc(), &note, plan)?;
    rt.stdout().write_all(report.as_bytes())
}

fn read_note(rt: &HostRuntime) -> io::Result<Vec<u8>> {
    let mut note = Vec::new(rt.alloc());
    // One byte more than a note may have tells a note that is too long.
    rt.stdin()
        .take(LONGEST_NOTE as u64 + 1)
        .read_to_end(&mut note)?;
    Ok(note)
}
