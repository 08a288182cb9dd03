// Neighbouring data joined, as is done once the end of a note has been read: docs/ENGINE.md, section 9.
ghost use Rattle.std.specs.Prelude.{◌≡◌};
ghost use Rattle.machine.specs.Joins.{seam, JoiningIsLawful, JoinsByExample};

use crate::events::{Event, EventKind, Name};

// Whether one Data span ends with a and the next one begins with b. Joining takes out both events of each seam: specs/Joins
// says what is left of events that tile the text, and that nothing else could be.
#[tactic(auto, using(crate::proofs::Joinings::joining_is_lawful, crate::proofs::Joinings::joins_by_example))]
pub fn is_seam(a: Event, b: Event) -> bool
    ensures answer { result ≡ seam a b }
    ensures joining_is_lawful { JoiningIsLawful }
    ensures joins_by_example { JoinsByExample }
{
    matches!(
        (a.kind, a.name, b.kind, b.name),
        (EventKind::Exit, Name::Data, EventKind::Enter, Name::Data)
    )
}
