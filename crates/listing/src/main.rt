// Prints the listing of the note on standard input, resolved with no links marked. With an option it prints the saved list or the
// marked copy instead: docs/FORMATS.md, sections 3 to 5.
#![tactic(auto)]

mod forms;
mod notes;
mod output;
mod stops;

use forms::Form;
use output::make_output;
use std::io::{Read, Write};
use std::{env, io};
use text::notes::LONGEST_NOTE;

fn main(rt: HostRuntime) -> io::Result<()> {
    let words: Vec<String> = env::args(&rt)?.skip(1).collect(rt.alloc())?;
    let Some(form) = Form::from_words(&words) else {
        return println!(rt; "usage: listing [--saved | --marked], with a note on standard input");
    };
    let note = read_input(&rt)?;
    let output = make_output(rt.alloc(), &note, form)?;
    rt.stdout().write_all(&output)
}

fn read_input(rt: &HostRuntime) -> io::Result<Vec<u8>> {
    let mut note = Vec::new(rt.alloc());
    // One byte more than a note may have tells a note that is too long.
    rt.stdin()
        .take(LONGEST_NOTE as u64 + 1)
        .read_to_end(&mut note)?;
    Ok(note)
}
