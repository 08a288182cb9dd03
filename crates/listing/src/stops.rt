// Why nothing is written of a note.
ghost use Rattle.std.specs.Prelude.{◌≡◌};
ghost use Rattle.listing.specs.declared.stops.Stop.{Stop};

use std::alloc::{AllocError, AllocFailed};
use text::Fault;

#[derive(Clone, Copy, Debug)]
pub enum Stop {
    Refused(Fault),
    OutOfMemory,
}

impl From<Fault> for Stop {
    ghost from_gives = { λ fault stop. stop ≡ Stop.Refused fault };

    fn from(fault: Fault) -> Stop {
        Stop::Refused(fault)
    }
}

impl From<AllocError> for Stop {
    ghost from_gives = { λ _ stop. stop ≡ Stop.OutOfMemory };

    fn from(_error: AllocError) -> Stop {
        Stop::OutOfMemory
    }
}
