// How much room the tables of the machine need: docs/ENGINE.md, the section on room.
ghost use Rattle.std.specs.Prelude.{◌≡◌};
ghost use Rattle.machine.specs.Room.{most_attempts, most_names, most_events_per_byte, AttemptsFit, AttemptsReach, NamesFit, NamesReach, EventsFit, EventsReach};
ghost use Rattle.machine.specs.Invariant.{EveryStepKeeps};
ghost use Rattle.machine.specs.Laws.{LawfulAtEveryMoment};

// Checks and attempts: never more than this, and some note has as many at some moment.
// Every step keeps the invariant from which this follows, specs/Invariant.
pub fn attempts_room() -> usize
    ensures value { result ≡ most_attempts }
    ensures fit { AttemptsFit result }
    ensures reach { AttemptsReach result }
    ensures every_step_keeps { EveryStepKeeps }
{
    3
}

// Open names.
pub fn names_room() -> usize
    ensures value { result ≡ most_names }
    ensures fit { NamesFit result }
    ensures reach { NamesReach result }
{
    1
}

// Events for each byte of the note. At every moment they are spans that tile the text so far, perhaps with one enter open,
// each event at its place: specs/Laws.
pub fn events_per_byte() -> usize
    ensures value { result ≡ most_events_per_byte }
    ensures fit { EventsFit result }
    ensures reach { EventsReach result }
    ensures lawful_at_every_moment { LawfulAtEveryMoment }
{
    2
}
