// Calls as the lines of a script have them.
ghost use Rattle.std.specs.Prelude.{◌≡◌, ◌++◌, string_bytes, OnOk};
ghost use Rattle.scripts.specs.Commands.{meant};
ghost use Rattle.scripts.specs.ReadingBack.{CallsReadBack};
ghost use Rattle.scripts.specs.Texts.{call_shown};

use crate::commands::OwnedCall;
use crate::quotes::write_quoted;
use std::alloc::AllocError;
use std::fmt::Write;

// Writes the call so that it reads back as this call.
#[tactic(auto, using(crate::proofs::ReadBack::calls_read_back))]
pub fn write_call(out: &mut String, call: &OwnedCall) -> Result<(), AllocError>
    ensures calls_read_back { CallsReadBack }
    ensures written { OnOk result (string_bytes out.new ≡ string_bytes out.old ++ call_shown (meant call.now)) }
{
    match call {
        OwnedCall::Load(note) => {
            out.push_str("load ")?;
            write_quoted(out, note)
        }
        OwnedCall::Push { to, allowance } => write!(out, "push {to} {allowance}"),
        OwnedCall::End { allowance } => write!(out, "end {allowance}"),
        OwnedCall::Link { first, last } => write!(out, "link {first} {last}"),
        OwnedCall::Resolve => out.push_str("resolve"),
        OwnedCall::Clear => out.push_str("clear"),
    }
}
