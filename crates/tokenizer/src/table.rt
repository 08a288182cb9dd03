// A table whose memory is reserved once: it has room for N items, and nothing that it does allocates.
ghost use Rattle.std.specs.Prelude.{◌≡◌, ◌<◌, ◌≤◌, [], ◌∷◌, ◌++◌, take, vec_len, vec_capacity, IfOk, IfNone};
ghost use Rattle.std.specs.Option.{option_to_list};

use std::alloc::{AllocError, Global};

#[derive(Drop)]
pub struct Table<T, const N: usize> {
    pub items: Vec<T>,
    ghost reserved: { N ≤ vec_capacity items },
}

impl<T: Drop, const N: usize> Table<T, N> {
    pub fn new(heap: Global) -> Result<Table<T, N>, AllocError>
        ensures { IfOk result (λ t. t.items.items ≡ []) }
    {
        let items = Vec::with_capacity(heap, N)?;
        Ok(Table { items })
    }

    pub fn push(&mut self, item: T)
        requires { vec_len self.old.items < N }
        ensures { self.new.items.items ≡ self.old.items.items ++ item ∷ [] }
    {
        self.items.push_reserved(item);
    }

    pub fn pop(&mut self) -> Option<T>
        ensures items { self.old.items.items ≡ self.new.items.items ++ option_to_list result }
        ensures none { IfNone result (self.old.items.items ≡ []) }
    {
        self.items.pop()
    }

    // The first `len` items stay.
    pub fn truncate(&mut self, len: usize)
        ensures { self.new.items.items ≡ take len self.old.items.items }
    {
        self.items.truncate(len);
    }

    pub fn clear(&mut self)
        ensures { self.new.items.items ≡ [] }
    {
        self.items.clear();
    }
}
