// Runs of state calls: docs/ENGINE.md, section 8.
#![tactic(auto)]

ghost use Rattle.std.specs.Prelude.{◌≡◌};
ghost use Rattle.machine.specs.Invariant.{Sound};
ghost use Rattle.machine.specs.Moves.{settled};
ghost use Rattle.machine.specs.Runs.{run};
ghost use Rattle.tokenizer.specs.View.{machine};
ghost use Rattle.runs.specs.Outcomes.{outcome_of};

use engine::Engine;
use machine::{Ran, Until};
use punctuation::sets::PunctuationSet;

// Calls states until none is due, or the allowance is made and one is.
pub fn run<S: PunctuationSet>(engine: &mut Engine<S>, until: Until, allowance: u64) -> Ran
    requires { ∥ Sound engine.old.tokenizer.note.items (settled (machine engine.old.tokenizer)) ∥₁ }
    ensures ran { outcome_of (machine engine.new.tokenizer) result ≡ run (S.member engine.old.set) until allowance (machine engine.old.tokenizer) }
    ensures meaning_stays { S.member engine.new.set ≡ S.member engine.old.set }
{
    for steps in 0..allowance {
        engine.tokenizer.prepare(until);
        let Some(name) = engine.tokenizer.due(until) else {
            return Ran { steps, done: true };
        };
        engine.tokenizer.show();
        engine.call(name);
    }
    engine.tokenizer.prepare(until);
    let done = engine.tokenizer.due(until).is_none();
    Ran {
        steps: allowance,
        done,
    }
}
