// What a reader holds: docs/ENGINE.md, section 2. Its calls are in the modules below.
ghost use Rattle.calls.specs.Calls.{model};
ghost use Rattle.calls.specs.Moments.{Reachable};
ghost use Rattle.tokenizer.specs.View.{machine};

use calls::{MarkedRun, Phase};
use engine::Engine;
use punctuation::sets::PunctuationSet;
use resolving::Resolver;
use tokenizer::event_table::LINKS_ROOM;
use tokenizer::table::Table;

mod events;
mod linking;
mod making;
mod reading;

// One note at a time, read with the reader's punctuation set.
// Kept: `mark` and `paused` are no fields of Phase::Loaded, since the definition (calls/specs/Calls) tells them in every phase.
#[derive(Drop)]
pub struct Reader<S: PunctuationSet> {
    engine: Engine<S>,
    phase: Phase,
    // the last `to` that push accepted
    mark: usize,
    // whether the last accepted push paused
    paused: bool,
    links: Table<MarkedRun, LINKS_ROOM>,
    resolver: Resolver,
    // some list of calls has led to it from new
    ghost reachable: { ∥ Reachable (S.member engine.set) (model phase mark paused (machine engine.tokenizer) links.items.items) ∥₁ },
}
