// Any list of calls made on a new reader, and what is claimed of every such list.
ghost use Rattle.std.specs.Prelude.{◌≡◌, Ok, IfOk, OnErr, OnOk};
ghost use Rattle.calls.specs.Calls.{Model};
ghost use Rattle.calls.specs.Moments.{Watched};
ghost use Rattle.calls.specs.Steps.{step};
ghost use Rattle.reader.specs.View.{meaning_of, view};

use crate::Reader;
use calls::{Call, Reply};
use punctuation::sets::PunctuationSet;
use std::alloc::{AllocError, Global};
use text::Fault;

impl<S: PunctuationSet> Reader<S> {
    // Makes one call.
    pub fn make(&mut self, call: Call<'_>) -> Result<Reply, Fault>
        ensures answer { (view self.new, result) ≡ step (meaning_of self.old) (view self.old) call.entry }
        ensures meaning_stays { meaning_of self.new ≡ meaning_of self.old }
        ensures refused { OnErr result (self.new ≡ self.old) }
    {
        match call {
            Call::Load(note) => self.load(note)?,
            Call::Push { to, allowance } => return Ok(Some(self.push(to, allowance)?)),
            Call::End { allowance } => return Ok(Some(self.end(allowance)?)),
            Call::Link { first, last } => self.link(first, last)?,
            Call::Resolve => self.resolve()?,
            Call::Clear => self.clear(),
        }
        Ok(None)
    }
}

// Who is shown a reader at each moment. What one look does to him tells what he saw.
pub trait Watcher {
    ghost saw: { Self → Model → Self → Type 0 };

    fn look<S: PunctuationSet>(&mut self, reader: &Reader<S>) -> Result<(), AllocError>
        ensures { OnOk result (saw self.old (view reader.now) self.new) };
}

// Makes the calls on a new reader, and answers the reader and what each call answered. The watcher is shown the reader before the
// first call and after each.
pub fn replay<S: PunctuationSet + Drop, W: Watcher>(
    heap: Global,
    set: S,
    calls: &[Call<'_>],
    watcher: &mut W,
) -> Result<(Reader<S>, Vec<Result<Reply, Fault>>), AllocError>
    ensures { IfOk result (λ made. Watched W.saw (S.member set) calls.now made.1.items watcher.old watcher.new (view made.0)) }
{
    let mut reader = Reader::new(heap, set)?;
    let mut answers = Vec::with_capacity(heap, calls.len())?;
    watcher.look(&reader)?;
    for call in calls {
        answers.push_reserved(reader.make(*call));
        watcher.look(&reader)?;
    }
    Ok((reader, answers))
}
