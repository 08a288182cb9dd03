// A new map, and what a map says of itself.
ghost use Rattle.std.specs.Prelude.{◌≡◌, length, IfOk, ◌==◌};
ghost use Rattle.edit_map.specs.View.{entries_of, kept_count, AsNew};

use super::{EditMap, MOST_PLACES};
use std::alloc::{AllocError, Global};

impl EditMap {
    // Reserves all memory that the map will ever have: no other call allocates.
    pub fn new(heap: Global) -> Result<EditMap, AllocError>
        ensures { IfOk result AsNew }
    {
        let entries = Vec::with_capacity(heap, MOST_PLACES)?;
        Ok(EditMap { entries, kept: 0 })
    }

    // How many places have an edit.
    pub fn len(&self) -> usize
        ensures { result ≡ length (entries_of self.now) }
    {
        self.entries.len()
    }

    pub fn is_empty(&self) -> bool
        ensures { result ≡ (length (entries_of self.now) == 0) }
    {
        self.entries.is_empty()
    }

    // How many elements of its store the map uses.
    pub fn kept(&self) -> usize
        ensures { result ≡ kept_count self.now }
    {
        self.kept
    }
}
