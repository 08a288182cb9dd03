// Resolving, with room that is reserved once.
ghost use Rattle.std.specs.Prelude.{◌≡◌, ◌≤◌, length, Ok, IfOk};
ghost use Rattle.edit_map.specs.View.{AsNew};
ghost use Rattle.calls.specs.Links.{resolved};
ghost use Rattle.resolving.specs.Ended.{Resolvable};
ghost use Rattle.resolving.specs.Memory.{events_ready};

use crate::batches::make;
use crate::buffer::{Memory, ReservedBuffer};
use crate::links::put_links;
use crate::mail::cut_mail;
use calls::MarkedRun;
use edit_map::EditMap;
use machine::Event;
use std::alloc::{AllocError, Global};
use text::Fault;
use text::notes::LONGEST_NOTE;
use tokenizer::event_table::{EVENTS_ROOM, EventTable};

// Two events for each byte of a note: what data is split into. The events of links are fewer.
pub const STORE_ROOM: usize = 2 * LONGEST_NOTE;

// The events that edits add, and behind them the events that they make: one piece, for the reason told at `ReservedBuffer::new`.
const BUFFER_ROOM: usize = STORE_ROOM + EVENTS_ROOM;

// Kept: no ghost field here, since a call lends two of these fields at once.
#[derive(Drop)]
pub struct Resolver {
    map: EditMap,
    memory: Memory<BUFFER_ROOM>,
}

impl Resolver {
    // Reserves all memory that it will ever have: no other call allocates.
    pub fn new(heap: Global) -> Result<Resolver, AllocError>
        ensures unwritten { IfOk result (λ resolver. events_ready resolver ≡ 0) }
    {
        Ok(Resolver {
            map: EditMap::new(heap)?,
            memory: Memory {
                buffer: ReservedBuffer::new(heap)?,
            },
        })
    }

    // The events of an ended note are resolved, with these links.
    pub fn resolve(
        &mut self,
        note: &[u8],
        links: &[MarkedRun],
        events: &mut EventTable,
    ) -> Result<(), Fault>
        requires { Resolvable note.now links.now events.old.items.items }
        ensures answer { result ≡ Ok tt }
        ensures resolved { events.new.items.items ≡ resolved note.now links.now events.old.items.items }
        ensures full { events_ready self.new ≡ BUFFER_ROOM }
    {
        let Resolver {
            map,
            memory: Memory { buffer },
        } = self;
        buffer.fill();
        map.clear();
        resolve_in(map, buffer.events.as_mut_slice(), note, links, events)
    }
}

// The events that edits add lie in the first part of the buffer, and the list is made in the rest.
fn resolve_in(
    map: &mut EditMap,
    buffer: &mut [Event],
    note: &[u8],
    links: &[MarkedRun],
    events: &mut EventTable,
) -> Result<(), Fault>
    requires as_new { AsNew map.old }
    requires room { length buffer.old ≡ BUFFER_ROOM }
    requires resolvable { Resolvable note.now links.now events.old.items.items }
    ensures answer { result ≡ Ok tt }
    ensures resolved { events.new.items.items ≡ resolved note.now links.now events.old.items.items }
{
    let (store, spare) = buffer.split_at_mut(STORE_ROOM);
    resolve_with(map, store, spare, note, links, events)
}

// Two passes over the events, each a batch of edits.
fn resolve_with(
    map: &mut EditMap,
    store: &mut [Event],
    spare: &mut [Event],
    note: &[u8],
    links: &[MarkedRun],
    events: &mut EventTable,
) -> Result<(), Fault>
    requires as_new { AsNew map.old }
    requires store { STORE_ROOM ≤ length store.old }
    requires spare { EVENTS_ROOM ≤ length spare.old }
    requires resolvable { Resolvable note.now links.now events.old.items.items }
    ensures answer { result ≡ Ok tt }
    ensures resolved { events.new.items.items ≡ resolved note.now links.now events.old.items.items }
{
    put_links(map, store, links, events.items.as_slice())?;
    make(map, store, spare, events)?;
    cut_mail(map, store, note, events.items.as_slice())?;
    make(map, store, spare, events)
}
