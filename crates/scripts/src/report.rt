// What is told of a script, line by line.
ghost use Rattle.std.specs.Prelude.{◌≡◌, ◌++◌, map, string_bytes, OnOk};
ghost use Rattle.scripts.specs.Commands.{meant, meant_line};
ghost use Rattle.scripts.specs.Report.{answered_line, told_lines};

use crate::answers::{Answer, Answered};
use crate::commands::{Line, OwnedCall};
use crate::texts::write_call;
use std::alloc::AllocError;
use std::fmt::Write;

// Writes a line for each call, with its answer, and for each `events` the listing of the events held then. It ends where the
// answers or the listings do.
pub fn write_lines(
    report: &mut String,
    script: &[Line<OwnedCall>],
    mut answers: &[Answer],
    mut listings: &[String],
) -> Result<(), AllocError>
    ensures { OnOk result (string_bytes report.new ≡ string_bytes report.old ++ told_lines (map meant_line script.now) answers.now (map string_bytes listings.now)) }
{
    for line in script {
        match line {
            Line::Call(call) => {
                let [answer, rest @ ..] = answers else {
                    return Ok(());
                };
                write_answered(report, call, *answer)?;
                answers = rest;
            }
            Line::Events => {
                let [listing, rest @ ..] = listings else {
                    return Ok(());
                };
                report.push_str(listing.as_str())?;
                listings = rest;
            }
        }
    }
    Ok(())
}

fn write_answered(report: &mut String, call: &OwnedCall, answer: Answer) -> Result<(), AllocError>
    ensures { OnOk result (string_bytes report.new ≡ string_bytes report.old ++ answered_line (meant call.now) answer) }
{
    write_call(report, call)?;
    let answered = Answered(answer);
    writeln!(report, ": {answered}")
}
