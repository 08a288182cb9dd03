// The spans that are written: docs/FORMATS.md, section 1.
ghost use Rattle.std.specs.Prelude.{◌≡◌, ◌≤◌, true, [], length};
ghost use Rattle.text.specs.Lent.{overwritten};
ghost use Rattle.calls.specs.EventLists.{nests, only_links_hold};
ghost use Rattle.written.specs.Spans.{written_spans};

use machine::{Event, EventKind, Name};
use text::Span;

// Writes the spans of addresses to the front of `out`, in the order of the events, and answers how many they are.
// Only links hold other spans: so an address begins at the last enter before its exit.
pub(crate) fn find_spans(events: &[Event], out: &mut [Span]) -> usize
    requires nested { nests [] events.now ≡ true }
    requires flat { only_links_hold [] events.now ≡ true }
    requires room { length (written_spans events.now) ≤ length out.old }
    ensures count { result ≡ length (written_spans events.now) }
    ensures found { out.new ≡ overwritten (written_spans events.now) out.old }
{
    let mut count = 0;
    let mut from = 0;
    for event in events {
        let to = event.point.index;
        match (event.kind, event.name) {
            (EventKind::Enter, _) => from = to,
            (EventKind::Exit, Name::Address(kind)) => {
                out[count] = Span { kind, from, to };
                count += 1;
            }
            _ => {}
        }
    }
    count
}
