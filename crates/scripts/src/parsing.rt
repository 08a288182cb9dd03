// Scripts, read whole.
ghost use Rattle.std.specs.Prelude.{◌≡◌, map, IfOk};
ghost use Rattle.scripts.specs.Lines.{line_of};
ghost use Rattle.scripts.specs.Scripts.{lines, script_of, SaysLine, SaysScript};

use crate::commands::{Line, OwnedCall};
use crate::errors::ScriptError;
use crate::lines::parse_line;
use std::alloc::{AllocError, Global};

// The lines that say something, or the first one that cannot be read.
pub fn parse_script(heap: Global, text: &[u8]) -> Result<Vec<Line<OwnedCall>>, ScriptError>
    ensures { SaysScript result (script_of text.now) }
{
    let lines = split_lines(heap, text)?;
    let mut script = Vec::new(heap);
    for (index, line) in lines.iter().enumerate() {
        if let Some(line) = parse_numbered(heap, index + 1, line)? {
            script.push(line)?;
        }
    }
    Ok(script)
}

// The line with this number.
fn parse_numbered(
    heap: Global,
    number: usize,
    text: &[u8],
) -> Result<Option<Line<OwnedCall>>, ScriptError>
    ensures { SaysLine number result (line_of text.now) }
{
    parse_line(heap, text).map_err(|error| error.at(number))
}

fn split_lines(heap: Global, text: &[u8]) -> Result<Vec<&[u8]>, AllocError>
    ensures { IfOk result (λ v. map (λ line. line.now) v.items ≡ lines text.now) }
{
    text.split(|byte| *byte == b'\n').collect(heap)
}
