// One more edit.
ghost use Rattle.std.specs.Prelude.{◌≡◌, ◌+◌, ◌<◌, ◌≤◌, true, length, drop, vec_len, OnErr, nat_le};
ghost use Rattle.edit_map.specs.Edits.{added, added_before, count_at, idle, add_answer, after};
ghost use Rattle.edit_map.specs.Entries.{At, NoneAt};
ghost use Rattle.edit_map.specs.Laws.{IsOrderFree, Rising};
ghost use Rattle.edit_map.specs.View.{entries_of, kept_count, edits_of, Adds, PutIn};

use super::search::total_size;
use super::store::splice;
use super::{EditMap, HIGHEST, MOST_PLACES};
use crate::entries::{Addition, Entry, Side};
use text::Fault;

impl EditMap {
    // Adds an edit: from `place` on, `count` elements of the list are to be replaced by these. Where an edit is kept at
    // that place, the counts are summed and the elements go behind its elements. An edit that removes nothing and adds
    // nothing has no effect.
    //
    // Refused are 13 a place or a sum of counts above 4,096, and then 15 an edit at a 1,025th place, or more elements
    // than the store has room for. Nothing is changed then; and never what lies in the store behind the kept elements.
    pub fn add<T: Copy>(
        &mut self,
        store: &mut [T],
        place: usize,
        count: usize,
        elements: &[T],
    ) -> Result<(), Fault>
        ensures answer { result ≡ add_answer Side.Back (length store.old) (kept_count self.old) (edits_of self.old store.old) place count elements.now }
        ensures edits { edits_of self.new store.new ≡ after result (added place count elements.now (edits_of self.old store.old)) (edits_of self.old store.old) }
        ensures kept { kept_count self.new ≡ after result (kept_count self.old + length elements.now) (kept_count self.old) }
        ensures rising { Rising 0 (edits_of self.new store.new) }
        ensures rest { drop (kept_count self.new) store.new ≡ drop (kept_count self.new) store.old }
        ensures refused { OnErr result ((self.new ≡ self.old) × (store.new ≡ store.old)) }
        ensures no_effect { idle count elements.now ≡ true → (self.new ≡ self.old) × (store.new ≡ store.old) }
        ensures order_free { IsOrderFree Side.Back place count elements.now (edits_of self.old store.old) }
    {
        self.put(
            store,
            &Addition {
                place,
                count,
                elements,
                side: Side::Back,
            },
        )
    }

    // The same as `add`, but the elements go in front of those that are kept at that place.
    pub fn add_before<T: Copy>(
        &mut self,
        store: &mut [T],
        place: usize,
        count: usize,
        elements: &[T],
    ) -> Result<(), Fault>
        ensures answer { result ≡ add_answer Side.Front (length store.old) (kept_count self.old) (edits_of self.old store.old) place count elements.now }
        ensures edits { edits_of self.new store.new ≡ after result (added_before place count elements.now (edits_of self.old store.old)) (edits_of self.old store.old) }
        ensures kept { kept_count self.new ≡ after result (kept_count self.old + length elements.now) (kept_count self.old) }
        ensures rising { Rising 0 (edits_of self.new store.new) }
        ensures rest { drop (kept_count self.new) store.new ≡ drop (kept_count self.new) store.old }
        ensures refused { OnErr result ((self.new ≡ self.old) × (store.new ≡ store.old)) }
        ensures no_effect { idle count elements.now ≡ true → (self.new ≡ self.old) × (store.new ≡ store.old) }
        ensures order_free { IsOrderFree Side.Front place count elements.now (edits_of self.old store.old) }
    {
        self.put(
            store,
            &Addition {
                place,
                count,
                elements,
                side: Side::Front,
            },
        )
    }

    fn put<T: Copy>(&mut self, store: &mut [T], addition: &Addition<T>) -> Result<(), Fault>
        ensures { Adds addition.now self.old self.new store.old store.new result }
    {
        if addition.place > HIGHEST {
            return Err(Fault::EditOutOfRange(0));
        }
        match self.search(addition.place) {
            Ok(rank) => self.put_to(store, rank, addition),
            Err(rank) => self.put_new(store, rank, addition),
        }
    }

    // At a place that has an edit, of this rank.
    fn put_to<T: Copy>(
        &mut self,
        store: &mut [T],
        rank: usize,
        addition: &Addition<T>,
    ) -> Result<(), Fault>
        requires at { At addition.now.place (entries_of self.old) rank }
        requires low { addition.now.place ≤ HIGHEST }
        ensures { Adds addition.now self.old self.new store.old store.new result }
    {
        if addition.count > HIGHEST - self.entries[rank].count {
            return Err(Fault::EditOutOfRange(0));
        }
        if addition.is_idle() {
            return Ok(());
        }
        if !self.has_room(store.len(), addition.elements.len()) {
            return Err(Fault::NoRoomForEdit);
        }
        self.widen(store, rank, addition);
        Ok(())
    }

    // At a place that has none: the new edit will have this rank.
    fn put_new<T: Copy>(
        &mut self,
        store: &mut [T],
        rank: usize,
        addition: &Addition<T>,
    ) -> Result<(), Fault>
        requires none { NoneAt addition.now.place (entries_of self.old) rank }
        requires low { addition.now.place ≤ HIGHEST }
        ensures { Adds addition.now self.old self.new store.old store.new result }
    {
        if addition.count > HIGHEST {
            return Err(Fault::EditOutOfRange(0));
        }
        if addition.is_idle() {
            return Ok(());
        }
        if self.entries.len() >= MOST_PLACES
            || !self.has_room(store.len(), addition.elements.len())
        {
            return Err(Fault::NoRoomForEdit);
        }
        self.enter(store, rank, addition);
        Ok(())
    }

    // A store of `room` elements takes so many more than the kept ones.
    fn has_room(&self, room: usize, more: usize) -> bool
        ensures { result ≡ nat_le (kept_count self.now + more) room }
    {
        room.checked_sub(self.kept).is_some_and(|free| more <= free)
    }

    // Adds to the edit of this rank.
    fn widen<T: Copy>(&mut self, store: &mut [T], rank: usize, addition: &Addition<T>)
        requires at { At addition.now.place (entries_of self.old) rank }
        requires room { kept_count self.old + length addition.now.elements.now ≤ length store.old }
        requires small { count_at addition.now.place (edits_of self.old store.old) + addition.now.count ≤ HIGHEST }
        ensures { PutIn addition.now self.old self.new store.old store.new }
    {
        let old = self.entries[rank];
        let start = total_size(&self.entries[..rank]) + addition.side.offset(old.size);
        splice(store, self.kept, start, addition.elements);
        self.entries[rank] = Entry {
            count: old.count + addition.count,
            size: old.size + addition.elements.len(),
            ..old
        };
        self.kept += addition.elements.len();
    }

    // Keeps a new edit, which takes this rank.
    fn enter<T: Copy>(&mut self, store: &mut [T], rank: usize, addition: &Addition<T>)
        requires none { NoneAt addition.now.place (entries_of self.old) rank }
        requires place_left { vec_len self.old.entries < MOST_PLACES }
        requires room { kept_count self.old + length addition.now.elements.now ≤ length store.old }
        requires small { (addition.now.place ≤ HIGHEST) × (addition.now.count ≤ HIGHEST) }
        ensures { PutIn addition.now self.old self.new store.old store.new }
    {
        let start = total_size(&self.entries[..rank]);
        splice(store, self.kept, start, addition.elements);
        let entry = Entry {
            place: addition.place,
            count: addition.count,
            size: addition.elements.len(),
        };
        // There is room for it, so this takes no memory and cannot fail.
        let _ = self.entries.insert(rank, entry);
        self.kept += addition.elements.len();
    }
}
