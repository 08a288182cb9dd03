// Mail cut out of an event list: each Data span outside links is split around the mail addresses in it.
ghost use Rattle.std.specs.Prelude.{◌≡◌, ◌+◌, ◌-◌, ◌*◌, ◌<◌, ◌≤◌, false, [], ◌∷◌, length, Ok};
ghost use Rattle.std.specs.List.{AllByRecursion};
ghost use Rattle.text.specs.Places.{point_at};
ghost use Rattle.rules.specs.InTurn.{InTextOrder};
ghost use Rattle.edit_map.specs.Edits.{added, applied, put};
ghost use Rattle.edit_map.specs.Laws.{InOrder, Rising};
ghost use Rattle.edit_map.specs.View.{kept_count, edits_of, AsNew};
ghost use Rattle.edit_map.specs.declared.entries.Side.TheVariants.{Back};
ghost use Rattle.machine.specs.declared.events.Name.TheVariants.{Data};
ghost use Rattle.machine.specs.Laws.{events_of};
ghost use Rattle.calls.specs.EventLists.{span};
ghost use Rattle.calls.specs.Links.{data_between, split};
ghost use Rattle.calls.specs.Passes.{mail_cut};
ghost use Rattle.resolving.specs.Places.{PairsInOrder};
ghost use Rattle.resolving.specs.Parts.{parts};

use crate::batches::add;
use edit_map::{EditMap, HIGHEST, MOST_PLACES};
use machine::{Event, EventKind, Name};
use rules::addresses::find_addresses;
use text::notes::LONGEST_NOTE;
use text::spans::NO_SPAN;
use text::{Fault, Point, Span};

// A note of 1,024 bytes has no more addresses: each has at least 5 bytes.
const MOST_ADDRESSES: usize = 204;

// The edits that cut mail out.
pub fn cut_mail(
    map: &mut EditMap,
    store: &mut [Event],
    note: &[u8],
    events: &[Event],
) -> Result<(), Fault>
    requires as_new { AsNew map.old }
    requires short { length note.now ≤ LONGEST_NOTE }
    requires pairs { PairsInOrder note.now 0 events.now }
    requires low { length events.now ≤ HIGHEST }
    requires room { 2 * length note.now ≤ length store.old }
    ensures answer { result ≡ Ok tt }
    ensures made { applied (edits_of map.new store.new) events.now ≡ mail_cut note.now false events.now }
    ensures order { InOrder 0 (length events.now) (edits_of map.new store.new) }
    ensures kept { kept_count map.new ≤ 2 * length note.now }
{
    let mut in_link = false;
    let mut place = 0;
    while place + 1 < events.len() {
        let enter = events[place];
        let exit = events[place + 1];
        match enter.name {
            Name::Link => {
                in_link = enter.kind == EventKind::Enter;
                place += 1;
            }
            Name::Data if !in_link => {
                split_data(map, store, note, place, enter.point, exit.point.index)?;
                place += 2;
            }
            _ => place += 2,
        }
    }
    Ok(())
}

// The Data whose events are at `place` gives way to its parts.
fn split_data(
    map: &mut EditMap,
    store: &mut [Event],
    note: &[u8],
    place: usize,
    from: Point,
    to: usize,
) -> Result<(), Fault>
    requires short { length note.now ≤ LONGEST_NOTE }
    requires placed { from ≡ point_at note.now from.index }
    requires some { from.index < to }
    requires inside { to ≤ length note.now }
    requires low { place + 2 ≤ HIGHEST }
    requires order { InOrder 0 place (edits_of map.old store.old) }
    requires rising { Rising 0 (edits_of map.old store.old) }
    requires few { length (edits_of map.old store.old) < MOST_PLACES }
    requires room { kept_count map.old + length (events_of note.now (split note.now (span Data from.index to))) ≤ length store.old }
    ensures answer { result ≡ Ok tt }
    ensures edits { edits_of map.new store.new ≡ added place 2 (events_of note.now (split note.now (span Data from.index to))) (edits_of map.old store.old) }
    ensures kept { kept_count map.new ≡ kept_count map.old + length (events_of note.now (split note.now (span Data from.index to))) }
{
    let mut spans = [NO_SPAN; MOST_ADDRESSES];
    let count = find_addresses(&note[from.index..to], &mut spans)?;
    put_parts(map, store, note, place, from, to, &spans[..count])?;
    add(map, store, place, 2, &[])
}

// The bytes up to `to` as spans: these addresses, with places counted from `from` on, and each run of other bytes as Data.
fn put_parts(
    map: &mut EditMap,
    store: &mut [Event],
    note: &[u8],
    place: usize,
    from: Point,
    to: usize,
    mail: &[Span],
) -> Result<(), Fault>
    requires short { length note.now ≤ LONGEST_NOTE }
    requires placed { from ≡ point_at note.now from.index }
    requires forward { from.index ≤ to }
    requires inside { to ≤ length note.now }
    requires in_turn { InTextOrder 0 mail.now × AllByRecursion (λ x. x.to ≤ to - from.index) mail.now }
    requires low { place ≤ HIGHEST }
    requires order { InOrder 0 place (edits_of map.old store.old) }
    requires rising { Rising 0 (edits_of map.old store.old) }
    requires few { length (edits_of map.old store.old) < MOST_PLACES }
    requires room { kept_count map.old + length (events_of note.now (parts from.index mail.now to)) ≤ length store.old }
    ensures answer { result ≡ Ok tt }
    ensures edits { edits_of map.new store.new ≡ added place 0 (events_of note.now (parts from.index mail.now to)) (edits_of map.old store.old) }
    ensures kept { kept_count map.new ≡ kept_count map.old + length (events_of note.now (parts from.index mail.now to)) }
{
    let mut point = from;
    for address in mail {
        let start = from.index + address.from;
        let end = from.index + address.to;
        point = put_data(map, store, note, place, point, start)?;
        point = put_span(
            map,
            store,
            note,
            place,
            Name::Address(address.kind),
            point,
            end,
        )?;
    }
    put_data(map, store, note, place, point, to)?;
    Ok(())
}

// The bytes up to `to` as one Data span, if there are any. The point at `to`.
fn put_data(
    map: &mut EditMap,
    store: &mut [Event],
    note: &[u8],
    place: usize,
    from: Point,
    to: usize,
) -> Result<Point, Fault>
    requires short { length note.now ≤ LONGEST_NOTE }
    requires placed { from ≡ point_at note.now from.index }
    requires forward { from.index ≤ to }
    requires inside { to ≤ length note.now }
    requires low { place ≤ HIGHEST }
    requires order { InOrder 0 place (edits_of map.old store.old) }
    requires few { length (put Back place 0 (events_of note.now (data_between from.index to)) (edits_of map.old store.old)) ≤ MOST_PLACES }
    requires room { kept_count map.old + length (events_of note.now (data_between from.index to)) ≤ length store.old }
    ensures answer { result ≡ Ok (point_at note.now to) }
    ensures edits { edits_of map.new store.new ≡ added place 0 (events_of note.now (data_between from.index to)) (edits_of map.old store.old) }
    ensures kept { kept_count map.new ≡ kept_count map.old + length (events_of note.now (data_between from.index to)) }
{
    if from.index < to {
        put_span(map, store, note, place, Name::Data, from, to)
    } else {
        Ok(from)
    }
}

// The bytes up to `to` as one span with this name. The point at `to`.
fn put_span(
    map: &mut EditMap,
    store: &mut [Event],
    note: &[u8],
    place: usize,
    name: Name,
    from: Point,
    to: usize,
) -> Result<Point, Fault>
    requires short { length note.now ≤ LONGEST_NOTE }
    requires placed { from ≡ point_at note.now from.index }
    requires forward { from.index ≤ to }
    requires inside { to ≤ length note.now }
    requires low { place ≤ HIGHEST }
    requires order { InOrder 0 place (edits_of map.old store.old) }
    requires few { length (put Back place 0 (events_of note.now (span name from.index to ∷ [])) (edits_of map.old store.old)) ≤ MOST_PLACES }
    requires room { kept_count map.old + 2 ≤ length store.old }
    ensures answer { result ≡ Ok (point_at note.now to) }
    ensures edits { edits_of map.new store.new ≡ added place 0 (events_of note.now (span name from.index to ∷ [])) (edits_of map.old store.old) }
    ensures kept { kept_count map.new ≡ kept_count map.old + 2 }
{
    let end = from.shift_to(note, to)?;
    let enter = Event {
        kind: EventKind::Enter,
        name,
        point: from,
    };
    let exit = Event {
        kind: EventKind::Exit,
        name,
        point: end,
    };
    add(map, store, place, 0, &[enter, exit])?;
    Ok(end)
}
