// Links marked, put in, and mail cut out: docs/ENGINE.md, section 9. Refusals are checked in the order of their numbers, and a refused
// call changes nothing.
ghost use Rattle.std.specs.Prelude.{◌≡◌, nat_le, OnErr};
ghost use Rattle.calls.specs.Links.{has_enter, has_exit, beyond, markable};
ghost use Rattle.calls.specs.Steps.{link, resolve};
ghost use Rattle.machine.specs.Laws.{enters};
ghost use Rattle.reader.specs.View.{set_of, events_held, view};

use super::Reader;
use calls::{MarkedRun, Phase};
use machine::EventKind;
use punctuation::sets::PunctuationSet;
use text::Fault;
use tokenizer::event_table::LINKS_ROOM;

impl<S: PunctuationSet> Reader<S> {
    // Marks the events number `first` to `last` as one link. Refused: 3 an empty reader; 8 unless ended; 9 unless they are an
    // enter and a later exit, beyond the run marked before; 10 a 65th link.
    pub fn link(&mut self, first: usize, last: usize) -> Result<(), Fault>
        ensures answer { (view self.new, result) ≡ link (view self.old) first last }
        ensures set { set_of self.new ≡ set_of self.old }
        ensures refused { OnErr result (self.new ≡ self.old) }
    {
        if self.phase.is_empty() {
            return Err(Fault::NothingLoaded);
        }
        if !self.phase.is_ended() {
            return Err(Fault::NotEnded);
        }
        let run = MarkedRun { first, last };
        if !self.is_markable(run) {
            return Err(Fault::RunNotMarkable);
        }
        if self.links.items.len() >= LINKS_ROOM {
            return Err(Fault::TooManyLinks);
        }
        self.links.push(run);
        Ok(())
    }

    // Puts each marked run into a Link, and splits each Data span outside links around the mail addresses in it. Refused: 3 an
    // empty reader; 8 unless ended.
    pub fn resolve(&mut self) -> Result<(), Fault>
        ensures answer { (view self.new, result) ≡ resolve (view self.old) }
        ensures set { set_of self.new ≡ set_of self.old }
        ensures refused { OnErr result (self.new ≡ self.old) }
    {
        if self.phase.is_empty() {
            return Err(Fault::NothingLoaded);
        }
        if !self.phase.is_ended() {
            return Err(Fault::NotEnded);
        }
        let resolver = &mut self.resolver;
        let links = &self.links;
        let tokenizer = &mut self.engine.tokenizer;
        resolver.resolve(&tokenizer.note, &links.items, &mut tokenizer.events)?;
        self.phase = Phase::Resolved;
        Ok(())
    }

    fn is_markable(&self, run: MarkedRun) -> bool
        ensures { result ≡ markable (events_held self.now) (beyond 0 (view self.now).links) run }
    {
        self.is_beyond_links(run.first)
            && run.first < run.last
            && self.has_enter(run.first)
            && self.has_exit(run.last)
    }

    // Beyond all runs that are marked.
    #[tactic(auto, using(calls::proofs::Marks::beyond_read))]
    fn is_beyond_links(&self, index: usize) -> bool
        ensures { result ≡ nat_le (beyond 0 (view self.now).links) index }
    {
        match self.links.items.last() {
            Some(run) => run.last < index,
            None => true,
        }
    }

    #[tactic(auto, using(calls::proofs::Marks::enter_read, calls::proofs::Marks::enter_past))]
    fn has_enter(&self, index: usize) -> bool
        ensures { result ≡ has_enter (events_held self.now) index }
    {
        match self.events().get(index) {
            Some(event) => is_enter(event.kind),
            None => false,
        }
    }

    #[tactic(auto, using(calls::proofs::Marks::exit_read, calls::proofs::Marks::exit_past))]
    fn has_exit(&self, index: usize) -> bool
        ensures { result ≡ has_exit (events_held self.now) index }
    {
        match self.events().get(index) {
            Some(event) => !is_enter(event.kind),
            None => false,
        }
    }
}

fn is_enter(kind: EventKind) -> bool
    ensures { result ≡ enters kind }
{
    kind == EventKind::Enter
}
