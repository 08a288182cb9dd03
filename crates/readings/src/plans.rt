// How a note is read: what the options ask for.
ghost use Rattle.std.specs.Prelude.{IfNone, IfSome};
ghost use Rattle.readings.specs.Plans.{Understood, AllUnderstood, Changed, Asked};

use std::num::{NonZeroU64, NonZeroUsize};

#[derive(Clone, Copy)]
pub struct Plan {
    // bytes that a push goes on by
    pub piece: NonZeroUsize,
    // state calls in one call, at most
    pub allowance: NonZeroU64,
    pub shows_calls: bool,
}

impl Plan {
    // One push and one end, each with an allowance that no note is known to use up.
    pub const PLAIN: Plan = Plan {
        piece: NonZeroUsize::MAX,
        allowance: NonZeroU64::MAX,
        shows_calls: false,
    };

    // None where the words are no options, each with its number. Of an option that is given twice the last counts.
    pub fn from_words(words: &[String]) -> Option<Plan>
        ensures asked { IfSome result (λ plan. Asked words.now plan) }
        ensures refused { IfNone result (¬ AllUnderstood words.now) }
    {
        let (options, rest) = words.as_chunks::<2>();
        if !rest.is_empty() {
            return None;
        }
        let mut plan = Plan::PLAIN;
        for [option, number] in options {
            plan = plan.with(option.as_str(), number.as_str())?;
        }
        Some(plan)
    }

    fn with(self, option: &str, number: &str) -> Option<Plan>
        ensures changed { IfSome result (λ plan. Changed option.now number.now self plan) }
        ensures refused { IfNone result (¬ Understood option.now number.now) }
    {
        match option {
            "--pieces" => Some(Plan {
                piece: number.parse().ok()?,
                shows_calls: true,
                ..self
            }),
            "--allowance" => Some(Plan {
                allowance: number.parse().ok()?,
                shows_calls: true,
                ..self
            }),
            _ => None,
        }
    }
}
