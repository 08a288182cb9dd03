// Notes that the machine has worked through.
ghost use Rattle.std.specs.Prelude.{◌≡◌, length};
ghost use Rattle.machine.specs.Laws.{SplitsAlike, PausesExactly};
ghost use Rattle.machine.specs.WorkedNotes.{worked_notes, EveryNoteWorksOut, EveryPartWorksOut};

// How many notes stand worked in the table, specs/WorkedNotes. Each comes out with the steps and events that are listed there.
// Of any note: how a run is split into pushes and allowances does not matter.
pub fn worked_notes() -> usize
    ensures count { result ≡ length worked_notes }
    ensures every_note_works_out { EveryNoteWorksOut }
    ensures every_part_works_out { EveryPartWorksOut }
    ensures splits_alike { SplitsAlike }
    ensures pauses_exactly { PausesExactly }
{
    27
}
