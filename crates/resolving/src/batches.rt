// Batches of edits of an event list, put together from the front of the list to its end; no edit is refused.
ghost use Rattle.std.specs.Prelude.{◌≡◌, ◌+◌, ◌≤◌, length, Ok};
ghost use Rattle.edit_map.specs.Edits.{added, applied, put};
ghost use Rattle.edit_map.specs.Laws.{InOrder};
ghost use Rattle.edit_map.specs.View.{kept_count, edits_of, AsNew};
ghost use Rattle.edit_map.specs.declared.entries.Side.TheVariants.{Back};

use edit_map::{EditMap, HIGHEST, MOST_PLACES};
use machine::Event;
use text::Fault;
use tokenizer::event_table::{EVENTS_ROOM, EventTable};

// One more edit, at or behind the end of all that are kept.
pub fn add(
    map: &mut EditMap,
    store: &mut [Event],
    place: usize,
    count: usize,
    elements: &[Event],
) -> Result<(), Fault>
    requires low { place + count ≤ HIGHEST }
    requires order { InOrder 0 place (edits_of map.old store.old) }
    requires few { length (put Back place count elements.now (edits_of map.old store.old)) ≤ MOST_PLACES }
    requires room { kept_count map.old + length elements.now ≤ length store.old }
    ensures answer { result ≡ Ok tt }
    ensures edits { edits_of map.new store.new ≡ added place count elements.now (edits_of map.old store.old) }
    ensures kept { kept_count map.new ≡ kept_count map.old + length elements.now }
{
    map.add(store, place, count, elements)
}

// Makes all edits in the events, by way of a spare slice.
pub fn make(
    map: &mut EditMap,
    store: &[Event],
    spare: &mut [Event],
    events: &mut EventTable,
) -> Result<(), Fault>
    requires order { InOrder 0 (length events.old.items.items) (edits_of map.old store.now) }
    requires stored { kept_count map.old ≤ length store.now }
    requires room { length (applied (edits_of map.old store.now) events.old.items.items) ≤ EVENTS_ROOM }
    requires spare { EVENTS_ROOM ≤ length spare.old }
    ensures answer { result ≡ Ok tt }
    ensures made { events.new.items.items ≡ applied (edits_of map.old store.now) events.old.items.items }
    ensures as_new { AsNew map.new }
{
    let count = map.consume(store, events.items.as_slice(), spare)?;
    refill(events, &spare[..count]);
    Ok(())
}

// The table holds these events, and no others.
fn refill(table: &mut EventTable, events: &[Event])
    requires { length events.now ≤ EVENTS_ROOM }
    ensures { table.new.items.items ≡ events.now }
{
    table.items.clear();
    table.items.extend_from_slice(events).unwrap();
}
