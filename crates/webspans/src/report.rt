// What the program prints of a note.
ghost use Rattle.std.specs.Prelude.{◌≡◌, ◌++◌, string_bytes, IfOk, OnOk};
ghost use Rattle.webspans.specs.Report.{call_lines, total, steps_line, Printed};

use punctuation::range_lists::house_set;
use reader::Reader;
use readings::{Answered, Plan, Steps, read_through};
use std::alloc::{AllocError, Global};
use std::fmt::Write;
use text::notes::check_length;
use written::lines::write_lines;

pub fn make_report(heap: Global, note: &[u8], plan: Plan) -> Result<String, AllocError>
    ensures { IfOk result (λ s. Printed plan note.now (string_bytes s)) }
{
    if let Err(fault) = check_length(note) {
        return format!(in heap; "{fault}\n");
    }
    let mut reader = Reader::new(heap, house_set())?;
    let calls = read_through(heap, &mut reader, note, plan)?;
    let mut report = String::new(heap);
    if plan.shows_calls {
        list_calls(&mut report, &calls)?;
    }
    write_lines(&mut report, reader.events())?;
    list_steps(&mut report, &calls)?;
    Ok(report)
}

fn list_calls(report: &mut String, calls: &[Answered]) -> Result<(), AllocError>
    ensures { OnOk result (string_bytes report.new ≡ string_bytes report.old ++ call_lines calls.now) }
{
    for call in calls {
        writeln!(report, "{call}")?;
    }
    Ok(())
}

// The steps of all calls.
fn list_steps(report: &mut String, calls: &[Answered]) -> Result<(), AllocError>
    ensures { OnOk result (string_bytes report.new ≡ string_bytes report.old ++ steps_line calls.now) }
{
    let steps = Steps(total_steps(calls));
    writeln!(report, "{steps}")
}

// As far as 64 bits tell.
fn total_steps(calls: &[Answered]) -> u64
    ensures { result ≡ total calls.now }
{
    let mut total: u64 = 0;
    for call in calls {
        total = total.saturating_add(call.ran.steps);
    }
    total
}
