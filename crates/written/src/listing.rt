// The listing: docs/FORMATS.md, section 5.
ghost use Rattle.std.specs.Prelude.{◌≡◌, ◌≤◌, length};
ghost use Rattle.text.specs.Lent.{written_count, overwritten};
ghost use Rattle.calls.specs.Steps.{most_events};
ghost use Rattle.written.specs.Listing.{event_lines, ALineForEachEvent};

use crate::lines::{line_size, put_line};
use machine::Event;
use text::Fault;
use text::lent::check_room;

// Writes the listing of these events to the front of `out`, and answers how many bytes that is. Refused is 16 an `out` that is
// too short. Nothing is changed then.
#[tactic(auto, using(crate::proofs::LineEnds::a_line_for_each_event))]
pub(crate) fn list_events(events: &[Event], out: &mut [u8]) -> Result<usize, Fault>
    requires { length events.now ≤ most_events }
    ensures answer { result ≡ written_count (event_lines events.now) out.old }
    ensures written { out.new ≡ overwritten (event_lines events.now) out.old }
    ensures a_line_for_each_event { ALineForEachEvent events.now }
{
    let needed = listing_size(events);
    check_room(needed, out.len())?;
    put_lines(out, events);
    Ok(needed)
}

fn listing_size(events: &[Event]) -> usize
    requires { length events.now ≤ most_events }
    ensures { result ≡ length (event_lines events.now) }
{
    let mut size = 0;
    for event in events {
        size += line_size(event);
    }
    size
}

fn put_lines(out: &mut [u8], events: &[Event])
    requires { length (event_lines events.now) ≤ length out.old }
    ensures { out.new ≡ overwritten (event_lines events.now) out.old }
{
    let mut at = 0;
    for event in events {
        at = put_line(out, at, event);
    }
}
