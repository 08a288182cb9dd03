// What the lines of a script ask for.
ghost use Rattle.std.specs.Prelude.{◌≡◌, map, IfOk};
ghost use Rattle.scripts.specs.Commands.{bare, meant, meant_line, calls_in};

use calls::Call;
use std::alloc::{AllocError, Global};

// A call, or the events that are held then.
#[derive(Clone, Copy, Drop)]
pub enum Line<C> {
    Call(C),
    Events,
}

// A call with a note of its own.
#[derive(Drop)]
pub enum OwnedCall {
    Load(Vec<u8>),
    Push { to: usize, allowance: u64 },
    End { allowance: u64 },
    Link { first: usize, last: usize },
    Resolve,
    Clear,
}

impl OwnedCall {
    // The call, with its note on loan.
    pub fn lend(&self) -> Call<'_>
        ensures { bare result ≡ meant self.now }
    {
        match self {
            OwnedCall::Load(note) => Call::Load(note),
            OwnedCall::Push { to, allowance } => Call::Push {
                to: *to,
                allowance: *allowance,
            },
            OwnedCall::End { allowance } => Call::End {
                allowance: *allowance,
            },
            OwnedCall::Link { first, last } => Call::Link {
                first: *first,
                last: *last,
            },
            OwnedCall::Resolve => Call::Resolve,
            OwnedCall::Clear => Call::Clear,
        }
    }
}

// The calls of a script, in turn, with their notes on loan.
pub fn calls_in(heap: Global, script: &[Line<OwnedCall>]) -> Result<Vec<Call<'_>>, AllocError>
    ensures { IfOk result (λ calls. map bare calls.items ≡ calls_in (map meant_line script.now)) }
{
    let mut calls = Vec::new(heap);
    for line in script {
        if let Line::Call(call) = line {
            calls.push(call.lend())?;
        }
    }
    Ok(calls)
}
