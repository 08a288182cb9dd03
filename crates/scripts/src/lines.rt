// The lines of a script, read.
ghost use Rattle.std.specs.Prelude.{◌≡◌};
ghost use Rattle.scripts.specs.Commands.{meant_line, meant_option};
ghost use Rattle.scripts.specs.Lines.{command, is_silent, line_of, one_number, two_numbers};
ghost use Rattle.scripts.specs.Meets.{Meets};

use crate::commands::{Line, OwnedCall};
use crate::errors::{Expected, LineError};
use crate::keywords::{Keyword, parse_keyword};
use crate::quotes::parse_quoted;
use crate::words::{check_end, next_number, next_word};
use std::alloc::Global;

// None where the line says nothing: it is empty, or a comment.
pub fn parse_line(heap: Global, text: &[u8]) -> Result<Option<Line<OwnedCall>>, LineError>
    ensures { Meets meant_option result (line_of text.now) }
{
    let (word, rest) = next_word(text);
    if is_silent(word) {
        return Ok(None);
    }
    let keyword = parse_keyword(word)?;
    let line = parse_command(heap, keyword, rest)?;
    Ok(Some(line))
}

fn is_silent(word: &[u8]) -> bool
    ensures { result ≡ is_silent word.now }
{
    matches!(word, [] | [b'#', ..])
}

// What a keyword asks for, with what stands behind it.
fn parse_command(heap: Global, keyword: Keyword, rest: &[u8]) -> Result<Line<OwnedCall>, LineError>
    ensures { Meets meant_line result (command keyword rest.now) }
{
    let call = match keyword {
        Keyword::Load => OwnedCall::Load(parse_quoted(heap, rest)?),
        Keyword::Push => {
            let (to, allowance) = two_numbers(rest)?;
            OwnedCall::Push {
                to: to as usize,
                allowance,
            }
        }
        Keyword::End => OwnedCall::End {
            allowance: one_number(rest)?,
        },
        Keyword::Link => {
            let (first, last) = two_numbers(rest)?;
            OwnedCall::Link {
                first: first as usize,
                last: last as usize,
            }
        }
        Keyword::Resolve => {
            check_end(rest)?;
            OwnedCall::Resolve
        }
        Keyword::Clear => {
            check_end(rest)?;
            OwnedCall::Clear
        }
        Keyword::Events => {
            check_end(rest)?;
            return Ok(Line::Events);
        }
    };
    Ok(Line::Call(call))
}

fn one_number(text: &[u8]) -> Result<u64, Expected>
    ensures { result ≡ one_number text.now }
{
    let (number, rest) = next_number(text)?;
    check_end(rest)?;
    Ok(number)
}

fn two_numbers(text: &[u8]) -> Result<(u64, u64), Expected>
    ensures { result ≡ two_numbers text.now }
{
    let (first, rest) = next_number(text)?;
    let second = one_number(rest)?;
    Ok((first, second))
}
