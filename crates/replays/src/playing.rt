// A script, made and told.
ghost use Rattle.std.specs.Prelude.{◌≡◌, ◌++◌, map, string_bytes, IfOk, OnOk};
ghost use Rattle.punctuation.specs.RangeLists.{house};
ghost use Rattle.scripts.specs.Commands.{meant_line};
ghost use Rattle.scripts.specs.Scripts.{script_of};
ghost use Rattle.replays.specs.Plays.{played, printed};

use crate::scribe::Scribe;
use punctuation::range_lists::house_set;
use reader::replay;
use scripts::commands::{Line, OwnedCall, calls_in};
use scripts::errors::ScriptError;
use scripts::parsing::parse_script;
use scripts::report::write_lines;
use scripts::sums::Sum;
use std::alloc::{AllocError, Global};
use std::fmt::Write;

// What the script says is made, one call after another, and told. Of a script that cannot be read, why not.
pub fn play_script(heap: Global, text: &[u8]) -> Result<String, AllocError>
    ensures { IfOk result (λ s. string_bytes s ≡ printed (script_of text.now)) }
{
    match parse_script(heap, text) {
        Ok(script) => play_lines(heap, &script),
        Err(ScriptError::OutOfMemory) => Err(AllocError),
        Err(error) => format!(in heap; "{error}\n"),
    }
}

fn play_lines(heap: Global, script: &[Line<OwnedCall>]) -> Result<String, AllocError>
    ensures { IfOk result (λ s. string_bytes s ≡ played house (map meant_line script.now)) }
{
    let calls = calls_in(heap, script)?;
    let mut scribe = Scribe {
        heap,
        rest: script,
        listings: Vec::new(heap),
    };
    let (reader, answers) = replay(heap, house_set(), &calls, &mut scribe)?;
    let mut report = String::new(heap);
    write_lines(&mut report, script, &answers, &scribe.listings)?;
    let sum = Sum::new(&calls, &answers, reader.event_count());
    writeln!(report, "{sum}")?;
    Ok(report)
}
