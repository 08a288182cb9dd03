// Where an edit stands among the entries, and where its elements stand in the store.
ghost use Rattle.std.specs.Prelude.{◌≡◌, ◌^◌, ◌<◌, MatchResult};
ghost use Rattle.std.specs.List.{sum_by};
ghost use Rattle.edit_map.specs.Entries.{At, NoneAt};
ghost use Rattle.edit_map.specs.View.{entries_of};

use super::EditMap;
use crate::entries::Entry;

impl EditMap {
    // The rank of the entry at a place, or the rank that an entry there would have.
    pub(crate) fn search(&self, place: usize) -> Result<usize, usize>
        ensures { MatchResult result (At place (entries_of self.now)) (NoneAt place (entries_of self.now)) }
    {
        self.entries
            .binary_search_by_key(&place, |entry| entry.place)
    }
}

// How many elements these entries add.
// Kept: a loop, since with `map` and `sum` edit_map_bench writes 218 million elements a second, and so 278 million.
pub(crate) fn total_size(entries: &[Entry]) -> usize
    requires { sum_by (λ e. e.size) entries.now < 2 ^ 64 }
    ensures { result ≡ sum_by (λ e. e.size) entries.now }
{
    let mut size = 0;
    for entry in entries {
        size += entry.size;
    }
    size
}
