// Links put into an event list: an Enter of Link before each marked run, and an Exit of Link behind it.
ghost use Rattle.std.specs.Prelude.{◌≡◌, ℕ, ◌*◌, ◌≤◌, true, List, length, Ok};
ghost use Rattle.edit_map.specs.Edits.{applied};
ghost use Rattle.edit_map.specs.Laws.{InOrder};
ghost use Rattle.edit_map.specs.View.{kept_count, edits_of, AsNew};
ghost use Rattle.machine.specs.declared.events.Name.TheVariants.{Link};
ghost use Rattle.calls.specs.Links.{marked_in_turn};
ghost use Rattle.calls.specs.Passes.{with_links};
ghost use Rattle.resolving.specs.Places.{AllPlaced};

use crate::batches::add;
use calls::MarkedRun;
use edit_map::EditMap;
use machine::{Event, EventKind, Name};
use text::Fault;
use tokenizer::event_table::{EVENTS_ROOM, LINKS_ROOM};

// The edits that put the links in. Where two runs touch, an Exit and an Enter come to one place, the Exit first.
pub fn put_links(
    map: &mut EditMap,
    store: &mut [Event],
    links: &[MarkedRun],
    events: &[Event],
) -> Result<(), Fault>
    requires as_new { AsNew map.old }
    requires marked { marked_in_turn events.now 0 links.now ≡ true }
    requires few { length links.now ≤ LINKS_ROOM }
    requires short { length events.now ≤ EVENTS_ROOM }
    requires room { 2 * length links.now ≤ length store.old }
    ensures answer { result ≡ Ok tt }
    ensures made { (note : List ℕ) → AllPlaced note events.now → applied (edits_of map.new store.new) events.now ≡ with_links note links.now events.now }
    ensures order { InOrder 0 (length events.now) (edits_of map.new store.new) }
    ensures kept { kept_count map.new ≡ 2 * length links.now }
{
    for link in links {
        let enter = link_event(EventKind::Enter, events[link.first]);
        let exit = link_event(EventKind::Exit, events[link.last]);
        add(map, store, link.first, 0, &[enter])?;
        add(map, store, link.last + 1, 0, &[exit])?;
    }
    Ok(())
}

// An event of a Link, at the point of the event that it stands by.
fn link_event(kind: EventKind, event: Event) -> Event
    ensures { result ≡ record { kind = kind; name = Link; point = event.point } }
{
    Event {
        kind,
        name: Name::Link,
        point: event.point,
    }
}
