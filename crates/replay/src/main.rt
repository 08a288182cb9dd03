// Makes the calls of the script on standard input on a new reader, and prints what each answered, the events that the script asks
// for, and last what was done: docs/FORMATS.md, section 9.
#![tactic(auto)]

use replays::play_script;
use std::io::{Read, Write};
use std::{env, io};

const USAGE: &str = "usage: replay < SCRIPT
Makes the calls of a script on a new reader and prints what each answered. A line of a script is one of
  load \"TEXT\"    push TO ALLOWANCE    end ALLOWANCE    link FIRST LAST    resolve    clear
  events         (prints the events that are held then)
  # and a comment";

fn main(rt: HostRuntime) -> io::Result<()> {
    if env::args(&rt)?.nth(1).is_some() {
        return println!(rt; "{USAGE}");
    }
    let script = read_script(&rt)?;
    let report = play_script(rt.alloc(), &script)?;
    rt.stdout().write_all(report.as_bytes())
}

fn read_script(rt: &HostRuntime) -> io::Result<Vec<u8>> {
    let mut script = Vec::new(rt.alloc());
    rt.stdin().read_to_end(&mut script)?;
    Ok(script)
}
