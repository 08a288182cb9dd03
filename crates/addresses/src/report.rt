// What the program prints of a note: a line for each mail address, and last a line that says what was done.
ghost use Rattle.std.specs.Prelude.{◌≡◌, ◌++◌, length, IfOk, string_bytes, OnOk};
ghost use Rattle.std.specs.List.{AllByRecursion};
ghost use Rattle.addresses.specs.Report.{Within, refusal_line, noun, head, address_line, address_lines, summary, report};

use rules::notes::find_note_addresses;
use std::alloc::{AllocError, Global};
use text::notes::LONGEST_NOTE;
use text::spans::NO_SPAN;
use text::{Fault, Span};

pub fn make_report(heap: Global, note: &[u8]) -> Result<Vec<u8>, AllocError>
    ensures { IfOk result (λ v. v.items ≡ report note.now) }
{
    // No note has more addresses than bytes.
    // Kept: an array to lend; a Vec of as many would add an allocation that may fail, and is no plainer.
    let mut spans = [NO_SPAN; LONGEST_NOTE];
    match find_note_addresses(note, &mut spans) {
        Ok(count) => list_addresses(heap, note, &spans[..count]),
        Err(fault) => report_refusal(heap, fault),
    }
}

pub(crate) fn report_refusal(heap: Global, fault: Fault) -> Result<Vec<u8>, AllocError>
    ensures { IfOk result (λ v. v.items ≡ refusal_line fault) }
{
    let line = format!(in heap; "{fault}\n")?;
    Vec::from_slice(heap, line.as_bytes())
}

fn list_addresses(heap: Global, note: &[u8], spans: &[Span]) -> Result<Vec<u8>, AllocError>
    requires { AllByRecursion (Within note.now) spans.now }
    ensures { IfOk result (λ v. v.items ≡ address_lines note.now spans.now ++ summary (length spans.now) (length note.now)) }
{
    let mut report = Vec::new(heap);
    for span in spans {
        append_address(heap, &mut report, note, *span)?;
    }
    let last = summarize(heap, spans.len(), note.len())?;
    report.extend_from_slice(last.as_bytes())?;
    Ok(report)
}

fn append_address(
    heap: Global,
    report: &mut Vec<u8>,
    note: &[u8],
    span: Span,
) -> Result<(), AllocError>
    requires { Within note.now span }
    ensures { OnOk result (report.new.items ≡ report.old.items ++ address_line note.now span) }
{
    let head = write_head(heap, span)?;
    report.extend_from_slice(head.as_bytes())?;
    report.extend_from_slice(&note[span.from..span.to])?;
    report.extend_from_slice(b"\n")?;
    Ok(())
}

fn write_head(heap: Global, span: Span) -> Result<String, AllocError>
    ensures { IfOk result (λ s. string_bytes s ≡ head span) }
{
    format!(in heap; "{} {} {} ", span.kind, span.from, span.to)
}

fn summarize(heap: Global, count: usize, length: usize) -> Result<String, AllocError>
    ensures { IfOk result (λ s. string_bytes s ≡ summary count length) }
{
    let addresses = pick_noun(count, "address", "addresses");
    let bytes = pick_noun(length, "byte", "bytes");
    format!(in heap; "{count} {addresses} in {length} {bytes}\n")
}

fn pick_noun<'a>(count: usize, one: &'a str, many: &'a str) -> &'a str
    ensures { result.now ≡ noun count one.now many.now }
{
    if count == 1 { one } else { many }
}
