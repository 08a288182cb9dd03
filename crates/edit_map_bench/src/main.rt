// Makes 1,024 edits in a long list, round after round, and says what it did. With the number of rounds as its argument
// it also says how long that took.
#![tactic(auto)]

mod work;

use std::time::Instant;
use std::{env, io};
use work::Load;

fn main(rt: HostRuntime) -> io::Result<()> {
    let rounds = env::args(&rt)?
        .nth(1)
        .map(|word| word.parse::<u32>().unwrap_or(1));
    let mut load = Load::new(rt.alloc())?;
    let start = Instant::now(&rt)?;
    let tally = load.run(rounds.unwrap_or(1));
    let micros = start.elapsed(&rt)?.as_micros();
    match tally {
        Ok(tally) => {
            println!(rt; "{tally}")?;
            if rounds.is_some() {
                let per_second = u128::from(tally.elements) * 1_000_000 / micros.max(1);
                println!(rt; "{micros} microseconds, {per_second} elements per second")?;
            }
            Ok(())
        }
        Err(fault) => println!(rt; "{fault}"),
    }
}
