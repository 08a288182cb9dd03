// Whether a line of the list agrees.
ghost use Rattle.std.specs.Prelude.{OnOk};
ghost use Rattle.recorded_answers.specs.Replays.{IsAnsweredAsRecorded};

use crate::answers::{Difference, check_agreement};
use crate::lines::{LineError, RecordedNote, parse_line};
use crate::replays::{ReplayError, replay};
use std::alloc::Global;
use thiserror::Error;

// Why a line does not agree.
#[derive(Debug, Drop, Error)]
pub enum Mismatch {
    #[error(transparent)]
    Line(#[from] LineError),
    #[error(transparent)]
    Replay(#[from] ReplayError),
    #[error(transparent)]
    Answers(#[from] Difference),
}

pub fn check_line(heap: Global, line: &str) -> Result<(), Mismatch> {
    let recorded = parse_line(heap, line)?;
    check_recorded(heap, &recorded)
}

fn check_recorded(heap: Global, recorded: &RecordedNote) -> Result<(), Mismatch>
    ensures { OnOk result (IsAnsweredAsRecorded recorded.now) }
{
    let given = replay(heap, recorded)?;
    check_agreement(&recorded.answers, &given)?;
    Ok(())
}
