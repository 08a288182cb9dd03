// Replays the recorded answers of the published Rust on the reader, and prints each line of the list that does not agree.
// The list lies in data/answers.txt; compare/README.md says what its lines mean.
#![tactic(auto)]

mod answers;
mod checks;
mod lines;
mod records;
mod replays;
mod sets;
mod tallies;

use checks::check_line;
use std::{env, fs, io};
use tallies::Tally;

// The list that is read where no other is named.
const LIST: &str = "answers.txt";

fn main(rt: HostRuntime) -> io::Result<()> {
    let list = read_list(&rt)?;
    let tally = check_list(&rt, list.as_str())?;
    println!(rt; "{tally}")
}

fn read_list(rt: &HostRuntime) -> io::Result<String> {
    match env::args(rt)?.nth(1) {
        Some(path) => fs::read_to_string(rt, path.as_str()),
        None => fs::read_to_string(rt, LIST),
    }
}

fn check_list(rt: &(impl Print + AllocGlobal), list: &str) -> io::Result<Tally> {
    let mut tally = Tally::default();
    for line in list.lines() {
        let checked = check_line(rt.alloc(), line);
        tally.count(checked.is_ok());
        if let Err(mismatch) = checked {
            println!(rt; "line {}: {mismatch}", tally.answers)?;
        }
    }
    Ok(tally)
}

#[cfg(test)]
mod tests {
    use super::check_list;
    use crate::checks::{Mismatch, check_line};
    use crate::tallies::Tally;
    use std::test::Fail;

    // The example of compare/README.md, `https://a` with the house set; in the second line its push has a step too many.
    const LIST: &str =
        "x68747470733a2f2f61 1 1 9 1000000000 0 30 11 1 6 1 2 0 4 1 1 0 0 1 4 1 10 9 0 2 0 4 1 1 0 0 1 4 1 10 9 0
x68747470733a2f2f61 1 1 9 1000000000 0 30 12 1 6 1 2 0 4 1 1 0 0 1 4 1 10 9 0 2 0 4 1 1 0 0 1 4 1 10 9 0
x68747470733a2f2f61 1 1 9 1000000000 0 30 11 1 6 1 2 0 4 1 1 0 0 1 4 1 10 9 0 2 0 4 1 1 0 0 1 4 1 10 9 0
";

    #[test]
    fn a_wrong_line_does_not_agree(rt: HostRuntime) -> Result<(), Fail> {
        let tally = check_list(&rt, LIST)?;
        assert_eq!(rt;
            tally,
            Tally {
                answers: 3,
                agreeing: 2
            }
        );
        Ok(())
    }

    // A step and a pause of the push, the steps of the end, and of the last event its edge, name and place; then of the last
    // resolved event. Two lines tell of fewer events.
    #[test]
    fn each_wrong_number_is_told(rt: HostRuntime) -> Result<(), Fail> {
        let wrong = [
            "30 10 1 6 1 2 0 4 1 1 0 0 1 4 1 10 9 0 2 0 4 1 1 0 0 1 4 1 10 9 0",
            "30 11 0 6 1 2 0 4 1 1 0 0 1 4 1 10 9 0 2 0 4 1 1 0 0 1 4 1 10 9 0",
            "30 11 1 7 1 2 0 4 1 1 0 0 1 4 1 10 9 0 2 0 4 1 1 0 0 1 4 1 10 9 0",
            "30 11 1 6 1 2 0 4 1 1 0 0 0 4 1 10 9 0 2 0 4 1 1 0 0 1 4 1 10 9 0",
            "30 11 1 6 1 2 0 4 1 1 0 0 1 3 1 10 9 0 2 0 4 1 1 0 0 1 4 1 10 9 0",
            "30 11 1 6 1 2 0 4 1 1 0 0 1 4 2 10 9 0 2 0 4 1 1 0 0 1 4 1 10 9 0",
            "30 11 1 6 1 2 0 4 1 1 0 0 1 4 1 11 9 0 2 0 4 1 1 0 0 1 4 1 10 9 0",
            "30 11 1 6 1 2 0 4 1 1 0 0 1 4 1 10 8 0 2 0 4 1 1 0 0 1 4 1 10 9 0",
            "30 11 1 6 1 2 0 4 1 1 0 0 1 4 1 10 9 1 2 0 4 1 1 0 0 1 4 1 10 9 0",
            "24 11 1 6 1 1 0 4 1 1 0 0 2 0 4 1 1 0 0 1 4 1 10 9 0",
            "30 11 1 6 1 2 0 4 1 1 0 0 1 4 1 10 9 0 2 0 4 1 1 0 0 0 4 1 10 9 0",
            "30 11 1 6 1 2 0 4 1 1 0 0 1 4 1 10 9 0 2 0 4 1 1 0 0 1 5 1 10 9 0",
            "30 11 1 6 1 2 0 4 1 1 0 0 1 4 1 10 9 0 2 0 4 1 1 0 0 1 4 1 10 8 0",
            "24 11 1 6 1 2 0 4 1 1 0 0 1 4 1 10 9 0 1 0 4 1 1 0 0",
        ];
        for answers in wrong {
            let line = format!(in rt.alloc(); "x68747470733a2f2f61 1 1 9 1000000000 0 {answers}")?;
            let checked = check_line(rt.alloc(), line.as_str());
            assert!(rt; matches!(checked, Err(Mismatch::Answers(_))), "{answers}");
        }
        Ok(())
    }
}
