// The calls that read a note: docs/ENGINE.md, sections 2, 8 and 9. Refusals are checked in the order of their numbers, and a
// refused call changes nothing.
ghost use Rattle.std.specs.Prelude.{◌≡◌, OnErr};
ghost use Rattle.calls.specs.Calls.{new, load, push, end, unread};
ghost use Rattle.calls.specs.Theorems.{EndFinds};
ghost use Rattle.reader.specs.View.{meaning_of, set_of, view};

use super::Reader;
use calls::Phase;
use machine::{Ran, Until};
use punctuation::sets::PunctuationSet;
use runs::run;
use text::Fault;
use text::notes::check_length;

impl<S: PunctuationSet> Reader<S> {
    // Takes a copy of a note. Refused: 1 a note that is too long; 2 unless the reader is empty.
    pub fn load(&mut self, note: &[u8]) -> Result<(), Fault>
        ensures answer { (view self.new, result) ≡ load (view self.old) note.now }
        ensures set { set_of self.new ≡ set_of self.old }
        ensures refused { OnErr result (self.new ≡ self.old) }
    {
        check_length(note)?;
        if !self.phase.is_empty() {
            return Err(Fault::AlreadyLoaded);
        }
        self.engine.tokenizer.restart(note);
        self.phase = Phase::Loaded;
        self.mark = 0;
        self.paused = false;
        self.links.clear();
        Ok(())
    }

    // Reads the bytes before `to`, with at most so many state calls. Refused: 3 an empty reader; 4 unless loaded; 5 an allowance
    // of 0; 6 a `to` below the mark or above the length.
    pub fn push(&mut self, to: usize, allowance: u64) -> Result<Ran, Fault>
        ensures answer { (view self.new, result) ≡ push (meaning_of self.old) (view self.old) to allowance }
        ensures meaning_stays { meaning_of self.new ≡ meaning_of self.old }
        ensures refused { OnErr result (self.new ≡ self.old) }
    {
        if self.phase.is_empty() {
            return Err(Fault::NothingLoaded);
        }
        if !self.phase.is_loaded() {
            return Err(Fault::OutOfTurn);
        }
        if allowance == 0 {
            return Err(Fault::NoAllowance);
        }
        if to < self.mark || to > self.engine.tokenizer.note.len() {
            return Err(Fault::TargetOutOfRange);
        }
        let ran = run(&mut self.engine, Until::Mark(to), allowance);
        self.mark = to;
        self.paused = !ran.done;
        Ok(ran)
    }

    // Reads on over the end of the note, with at most so many state calls; once done, neighbouring Data spans are joined.
    // Refused: 3 an empty reader; 4 where the end is done; 5 an allowance of 0; 7, where the end begins, if the mark is below the
    // length or the last push paused.
    pub fn end(&mut self, allowance: u64) -> Result<Ran, Fault>
        ensures answer { (view self.new, result) ≡ end (meaning_of self.old) (view self.old) allowance }
        ensures finds { EndFinds (meaning_of self.old) (view self.old) (view self.new, result) }
        ensures meaning_stays { meaning_of self.new ≡ meaning_of self.old }
        ensures refused { OnErr result (self.new ≡ self.old) }
    {
        if self.phase.is_empty() {
            return Err(Fault::NothingLoaded);
        }
        if self.phase.is_over() {
            return Err(Fault::OutOfTurn);
        }
        if allowance == 0 {
            return Err(Fault::NoAllowance);
        }
        if self.is_unread() {
            return Err(Fault::EndTooEarly);
        }
        let ran = run(&mut self.engine, Until::End, allowance);
        if ran.done {
            self.engine.tokenizer.join();
            self.phase = Phase::Ended;
        } else {
            self.phase = Phase::Ending;
        }
        Ok(ran)
    }

    // Bytes not pushed yet, or pushed and not read, where an end begins.
    fn is_unread(&self) -> bool
        ensures { result ≡ unread (view self.now) }
    {
        self.phase.is_loaded() && (self.mark < self.engine.tokenizer.note.len() || self.paused)
    }

    // As new.
    pub fn clear(&mut self)
        ensures new { view self.new ≡ new }
        ensures set { set_of self.new ≡ set_of self.old }
    {
        self.engine.tokenizer.restart(&[]);
        self.phase = Phase::Empty;
        self.mark = 0;
        self.paused = false;
        self.links.clear();
    }
}
