// All edits made at once.
ghost use Rattle.std.specs.Prelude.{◌≡◌, ◌+◌, ◌^◌, ◌<◌, ◌≤◌, true, ◌++◌, length, drop, IfOk, OnErr, OnOk, nat_lt};
ghost use Rattle.std.specs.List.{All, position, sum_by};
ghost use Rattle.text.specs.Lent.{overwritten};
ghost use Rattle.edit_map.specs.Edits.{applied, inside_removal, IsRank, consume_check, size_answer, consume_answer, after};
ghost use Rattle.edit_map.specs.Entries.{total, well_formed, edits, bare};
ghost use Rattle.edit_map.specs.Laws.{InOrder, removed, stored, one_at_a_time, ValuesKept, OrderKept};
ghost use Rattle.edit_map.specs.View.{entries_of, kept_count, edits_of, AsNew};

use super::EditMap;
use super::store::copy_part;
use crate::entries::Entry;
use text::Fault;
use text::lent::check_room;

impl EditMap {
    // Writes the list with all edits made to the front of `out`, answers how many elements that is, and forgets the
    // edits, so that all room is free again.
    //
    // Refused are 13 an edit that reaches past the end of the list, 14 one that begins inside the run that is removed
    // before it, 15 a store with fewer elements than are kept, and 16 an `out` that is too short. Nothing is changed then.
    pub fn consume<T: Copy>(
        &mut self,
        store: &[T],
        list: &[T],
        out: &mut [T],
    ) -> Result<usize, Fault>
        ensures answer { result ≡ consume_answer (length store.now) (kept_count self.old) (edits_of self.old store.now) list.now out.old }
        ensures written { out.new ≡ after result (overwritten (applied (edits_of self.old store.now) list.now) out.old) out.old }
        ensures as_new { OnOk result (AsNew self.new) }
        ensures refused { OnErr result (self.new ≡ self.old) }
        ensures length { IfOk result (λ n. n + removed (edits_of self.old store.now) ≡ length list.now + stored (edits_of self.old store.now)) }
        ensures one_at_a_time { OnOk result (applied (edits_of self.old store.now) list.now ≡ one_at_a_time (edits_of self.old store.now) list.now) }
        ensures values_kept { OnOk result (ValuesKept (edits_of self.old store.now) list.now) }
        ensures order_kept { OnOk result (OrderKept (edits_of self.old store.now)) }
    {
        self.check(store.len(), list.len())?;
        let written = self.write(store, list, out)?;
        self.clear();
        Ok(written)
    }

    // Forgets all edits.
    pub fn clear(&mut self)
        ensures { AsNew self.new }
    {
        self.entries.clear();
        self.kept = 0;
    }

    // Whether the edits can be made in a list of `len` elements, with a store of `room` elements.
    fn check(&self, room: usize, len: usize) -> Result<(), Fault>
        ensures { result ≡ consume_check room (kept_count self.now) len (bare (entries_of self.now)) }
    {
        if let Some(rank) = past_end(&self.entries, len) {
            return Err(Fault::EditOutOfRange(rank));
        }
        if let Some(rank) = inside_removal(&self.entries) {
            return Err(Fault::EditInsideRemoval(rank));
        }
        if room < self.kept {
            return Err(Fault::NoRoomForEdit);
        }
        Ok(())
    }

    // Makes the edits, where `out` has room for the new list.
    fn write<T: Copy>(&self, store: &[T], list: &[T], out: &mut [T]) -> Result<usize, Fault>
        requires order { InOrder 0 (length list.now) (edits_of self.now store.now) }
        requires stored { kept_count self.now ≤ length store.now }
        ensures answer { result ≡ size_answer (applied (edits_of self.now store.now) list.now) out.old }
        ensures written { out.new ≡ after result (overwritten (applied (edits_of self.now store.now) list.now) out.old) out.old }
    {
        let stays = list.len() - removed_count(&self.entries);
        let Some(needed) = stays.checked_add(self.kept) else {
            return Err(Fault::BufferTooShort(usize::MAX));
        };
        check_room(needed, out.len())?;
        Ok(apply(&self.entries, store, list, out))
    }
}

// The rank of the first edit that reaches past the end of a list of `len` elements.
fn past_end(entries: &[Entry], len: usize) -> Option<usize>
    requires { All (λ e. e.place + e.count < 2 ^ 64) entries.now }
    ensures { result ≡ position (λ e. nat_lt len (e.place + e.count)) entries.now }
{
    entries.iter().position(|entry| entry.end() > len)
}

// The rank of the first edit that begins inside the run that is removed before it.
fn inside_removal(entries: &[Entry]) -> Option<usize>
    requires { All (λ e. e.place + e.count < 2 ^ 64) entries.now }
    ensures { IsRank result (inside_removal 0 (bare entries.now)) (length entries.now) }
{
    let mut end = 0;
    for (rank, entry) in entries.iter().enumerate() {
        if entry.place < end {
            return Some(rank);
        }
        end = entry.end();
    }
    None
}

// How many elements of the list are removed.
fn removed_count(entries: &[Entry]) -> usize
    requires { sum_by (λ e. e.count) entries.now < 2 ^ 64 }
    ensures { result ≡ sum_by (λ e. e.count) entries.now }
{
    entries.iter().map(|entry| entry.count).sum()
}

// One pass over the list and the edits, which lie in it in order.
fn apply<T: Copy>(entries: &[Entry], store: &[T], list: &[T], out: &mut [T]) -> usize
    requires order { InOrder 0 (length list.now) (edits entries.now store.now) }
    requires stored { total entries.now ≤ length store.now }
    requires room { length (applied (edits entries.now store.now) list.now) ≤ length out.old }
    ensures end { result ≡ length (applied (edits entries.now store.now) list.now) }
    ensures written { out.new ≡ applied (edits entries.now store.now) list.now ++ drop (length (applied (edits entries.now store.now) list.now)) out.old }
{
    let mut from = 0;
    let mut used = 0;
    let mut end = 0;
    for entry in entries {
        end = copy_part(&list[from..entry.place], out, end);
        end = copy_part(&store[used..used + entry.size], out, end);
        from = entry.end();
        used += entry.size;
    }
    copy_part(&list[from..], out, end)
}
