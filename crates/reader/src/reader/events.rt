// What a reader holds, readable at every moment.
ghost use Rattle.std.specs.Prelude.{◌≡◌, length};
ghost use Rattle.calls.specs.Moments.{AlwaysTrue};
ghost use Rattle.machine.specs.declared.events.Event.{Event};
ghost use Rattle.reader.specs.View.{meaning_of, events_held, event_answer, view};

use super::Reader;
use calls::Phase;
use machine::Event;
use punctuation::sets::PunctuationSet;
use text::Fault;

impl<S: PunctuationSet> Reader<S> {
    pub fn event_count(&self) -> usize
        ensures { result ≡ length (events_held self.now) }
    {
        self.engine.tokenizer.events.items.len()
    }

    // The event number `index`, from 0; refused with 11 where there is none.
    pub fn event(&self, index: usize) -> Result<Event, Fault>
        ensures { (e : Event) → result ≡ event_answer (events_held self.now) index e }
    {
        self.events().get(index).copied().ok_or(Fault::NoSuchEvent)
    }

    // All of them.
    pub fn events(&self) -> &[Event]
        ensures events { result.now ≡ events_held self.now }
        ensures always { ∥ AlwaysTrue (meaning_of self.now) (view self.now) ∥₁ }
    {
        self.engine.tokenizer.events.items.as_slice()
    }

    // The bytes of the last accepted load, or none where a clear has come since.
    pub fn note(&self) -> &[u8]
        ensures { result.now ≡ (view self.now).machine.note }
    {
        self.engine.tokenizer.note.as_slice()
    }

    pub fn phase(&self) -> Phase
        ensures { result ≡ (view self.now).phase }
    {
        self.phase
    }
}
