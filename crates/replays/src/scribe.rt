// A watcher who writes down the events of the moments for which a script asks.
ghost use Rattle.std.specs.Prelude.{◌≡◌, string_bytes, IfOk, OnOk};
ghost use Rattle.written.specs.Listing.{event_lines};
ghost use Rattle.replays.specs.Scribes.{Wrote};

use machine::Event;
use punctuation::sets::PunctuationSet;
use reader::{Reader, Watcher};
use scripts::commands::{Line, OwnedCall};
use std::alloc::{AllocError, Global};
use written::lines::write_lines;

#[derive(Drop)]
pub struct Scribe<'a> {
    pub heap: Global,
    // the lines of the script behind the calls that were made
    pub rest: &'a [Line<OwnedCall>],
    // a listing for each line that asked for one
    pub listings: Vec<String>,
}

impl Watcher for Scribe<'_> {
    ghost saw = { Wrote };

    fn look<S: PunctuationSet>(&mut self, reader: &Reader<S>) -> Result<(), AllocError> {
        while let [line, rest @ ..] = self.rest {
            self.rest = rest;
            match line {
                Line::Events => self.listings.push(listing(self.heap, reader.events())?)?,
                Line::Call(_) => break,
            }
        }
        Ok(())
    }
}

fn listing(heap: Global, events: &[Event]) -> Result<String, AllocError>
    ensures { IfOk result (λ s. string_bytes s ≡ event_lines events.now) }
{
    let mut text = String::new(heap);
    write_lines(&mut text, events)?;
    Ok(text)
}
