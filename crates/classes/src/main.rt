// Prints the place, the code and the kind of each character of the note on standard input, by the house set.
// It shows why a web address ends where it does.
#![tactic(auto)]

mod entries;
mod tallies;

ghost use Rattle.std.specs.Prelude.{◌≡◌, ◌≤◌, length, IfOk};
ghost use Rattle.classes.specs.Tallies.{tally_of};

use characters::char_indices::char_indices;
use entries::Entry;
use punctuation::kinds::classify;
use punctuation::range_lists::house_set;
use std::io;
use std::io::Read;
use tallies::Tally;
use text::notes::{LONGEST_NOTE, check_length};
use text::places::START;

fn main(rt: HostRuntime) -> io::Result<()> {
    let note = read_note(&rt)?;
    if let Err(fault) = check_length(&note) {
        return println!(rt; "{fault}");
    }
    let tally = list_characters(&rt, &note)?;
    println!(rt; "{tally}")
}

fn read_note(rt: &HostRuntime) -> io::Result<Vec<u8>> {
    let mut note = Vec::new(rt.alloc());
    // One byte more than a note may have tells a note that is too long.
    rt.stdin()
        .take(LONGEST_NOTE as u64 + 1)
        .read_to_end(&mut note)?;
    Ok(note)
}

fn list_characters(rt: &HostRuntime, note: &[u8]) -> io::Result<Tally>
    requires { length note.now ≤ LONGEST_NOTE }
    ensures { IfOk result (λ tally. tally ≡ tally_of note.now) }
{
    let mut set = house_set();
    let mut tally = Tally::new(note.len());
    let mut point = START;
    for (index, c) in char_indices(note) {
        point = point.shift_to(note, index).unwrap();
        let kind = classify(c, &mut set);
        let entry = Entry { point, c, kind };
        println!(rt; "{entry}")?;
        tally.count(kind);
    }
    Ok(tally)
}
