// The map itself. Its methods are in the modules below.
ghost use Rattle.std.specs.Prelude.{◌≡◌, ◌≤◌, true, vec_len, vec_capacity};
ghost use Rattle.edit_map.specs.Entries.{total, well_formed};

use crate::entries::Entry;

mod add;
mod consume;
mod new;
mod search;
mod store;

// At so many places at most edits are kept.
pub const MOST_PLACES: usize = 1024;

// No place and no count of removed elements is above this.
pub const HIGHEST: usize = 4096;

// Edits of a list, in order of place, one at a place. The elements that they add lie at the front of a store, in the
// order of the edits; the caller lends that store to each call, and the same one until the edits are made.
#[derive(Drop)]
pub struct EditMap {
    // Kept: a sorted Vec that `new` reserves, and no BTreeMap, since no call after `new` allocates.
    entries: Vec<Entry>,
    kept: usize,
    ghost reserved: { 1024 ≤ vec_capacity entries },
    ghost few: { vec_len entries ≤ 1024 },
    ghost ordered: { well_formed 0 entries.items ≡ true },
    ghost tally: { kept ≡ total entries.items },
}
