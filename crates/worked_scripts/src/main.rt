// Runs the worked scripts of data/scripts.txt, and prints the name of each whose output is not the one written there.
#![tactic(auto)]

mod tallies;
mod worked;

use std::{env, fs, io};
use tallies::Tally;
use worked::Worked;

// The list that is read where no other is named.
const LIST: &str = "scripts.txt";

fn main(rt: HostRuntime) -> io::Result<()> {
    let list = read_list(&rt)?;
    let tally = check_list(&rt, list.as_str())?;
    println!(rt; "{tally}")
}

fn read_list(rt: &HostRuntime) -> io::Result<String> {
    match env::args(rt)?.nth(1) {
        Some(path) => fs::read_to_string(rt, path.as_str()),
        None => fs::read_to_string(rt, LIST),
    }
}

fn check_list(rt: &(impl Print + AllocGlobal), list: &str) -> io::Result<Tally> {
    let mut tally = Tally::default();
    for section in list.split("### ").skip(1) {
        let comes_out = match Worked::from_section(section) {
            Some(worked) => worked.comes_out(rt.alloc())?,
            None => false,
        };
        tally.count(comes_out);
        if !comes_out {
            println!(rt; "not as written: {section}")?;
        }
    }
    Ok(tally)
}
