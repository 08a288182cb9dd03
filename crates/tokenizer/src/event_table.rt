// The events found so far, in the order of the text. Neighbouring Data spans become one, in place, once the end of a note has
// been read.
ghost use Rattle.std.specs.Borrow.{sem, Lends};
ghost use Rattle.std.specs.Prelude.{◌≡◌, ◌+◌, ◌<◌, ◌≤◌, true, drop, vec_len, slice_index_or};
ghost use Rattle.machine.specs.contracts.events.Event.{the_row as event_row};
ghost use Rattle.machine.specs.Joins.{joined};
ghost use Rattle.tokenizer.specs.contracts.table.Table.{the_row as table_row};
ghost use Rattle.tokenizer.specs.Joining.{paired, joined_from, with_event};

use crate::table::Table;
use machine::Event;
use machine::joins::is_seam;
use text::notes::LONGEST_NOTE;

// Links that may be marked in one note.
pub const LINKS_ROOM: usize = 64;

// Two events for each byte of a note, and two for each link.
pub const EVENTS_ROOM: usize = 2 * LONGEST_NOTE + 2 * LINKS_ROOM;

pub type EventTable = Table<Event, EVENTS_ROOM>;

impl<const N: usize> Table<Event, N> {
    // One event, lent.
    pub fn event_mut(&mut self, index: usize) -> &mut Event
        requires { index < vec_len self.old.items }
        ensures* follows { sem 𝓛 (Lends (table_row event_row N.row) event_row self.entry result (λ w. with_event self.old index w)) }
        ensures value { result.now ≡ slice_index_or self.old.items.items index result.now }
    {
        &mut self.items[index]
    }
}

impl EventTable {
    // Takes up the pair at `next`: it lengthens the Data that the first `kept` end in, or is kept behind them. How many are
    // kept now.
    fn take_up(&mut self, kept: usize, next: usize) -> usize
        requires behind { kept ≤ next }
        requires more { next < vec_len self.old.items }
        requires pairs { paired (drop next self.old.items.items) ≡ true }
        ensures behind { result ≤ next + 2 }
        ensures joins { joined_from result (next + 2) self.new.items.items ≡ joined_from kept next self.old.items.items }
        ensures pairs { paired (drop (next + 2) self.new.items.items) ≡ true }
        ensures length { vec_len self.new.items ≡ vec_len self.old.items }
        ensures fits { next + 2 ≤ vec_len self.new.items }
    {
        let enter = self.items[next];
        let exit = self.items[next + 1];
        if kept > 0 && is_seam(self.items[kept - 1], enter) {
            let last = self.event_mut(kept - 1);
            last.point = exit.point;
            kept
        } else {
            self.items[kept] = enter;
            self.items[kept + 1] = exit;
            kept + 2
        }
    }

    // Each seam is taken out: the Data before it gets the end of the Data behind it. No other table is made.
    pub fn join(&mut self)
        requires { paired self.old.items.items ≡ true }
        ensures { self.new.items.items ≡ joined self.old.items.items }
    {
        let mut kept = 0;
        for next in (0..self.items.len()).step_by(2) {
            kept = self.take_up(kept, next);
        }
        self.truncate(kept);
    }
}
