// Moves of elements between lent slices.
ghost use Rattle.std.specs.Prelude.{◌≡◌, ◌+◌, ◌≤◌, ◌++◌, length, take, drop};
ghost use Rattle.edit_map.specs.Entries.{spliced};

// Puts elements in before the element `at` of the first `used` of a store, which has room for them.
pub(crate) fn splice<T: Copy>(store: &mut [T], used: usize, at: usize, elements: &[T])
    requires within { at ≤ used }
    requires room { used + length elements.now ≤ length store.old }
    ensures { store.new ≡ spliced (take used store.old) at elements.now ++ drop (used + length elements.now) store.old }
{
    let count = elements.len();
    store[at..used + count].rotate_right(count);
    store[at..at + count].copy_from_slice(elements);
}

// Writes a part over the elements of `out` from `at` on, and answers where it ends.
pub(crate) fn copy_part<T: Copy>(part: &[T], out: &mut [T], at: usize) -> usize
    requires { at + length part.now ≤ length out.old }
    ensures end { result ≡ at + length part.now }
    ensures written { take result out.new ≡ take at out.old ++ part.now }
    ensures rest { drop result out.new ≡ drop result out.old }
{
    let end = at + part.len();
    out[at..end].copy_from_slice(part);
    end
}
