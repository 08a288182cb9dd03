// What a map keeps for each place, and what is added to it.
ghost use Rattle.std.specs.Prelude.{◌≡◌, ◌+◌, ◌^◌, ◌<◌};
ghost use Rattle.edit_map.specs.Edits.{idle};
ghost use Rattle.edit_map.specs.Entries.{offset};

// From `place` on, `count` elements of the list are removed, and `size` elements of the store come in their stead.
#[derive(Clone, Copy)]
pub struct Entry {
    pub place: usize,
    pub count: usize,
    pub size: usize,
}

impl Entry {
    // The first element of the list behind the removed run.
    pub fn end(&self) -> usize
        requires { self.now.place + self.now.count < 2 ^ 64 }
        ensures { result ≡ self.now.place + self.now.count }
    {
        self.place + self.count
    }
}

// Where new elements stand by those that are kept at their place.
#[derive(Clone, Copy)]
pub enum Side {
    Front,
    Back,
}

impl Side {
    // How many of the `size` elements that are kept at the place stand before the new ones.
    pub fn offset(self, size: usize) -> usize
        ensures { result ≡ offset self size }
    {
        match self {
            Side::Front => 0,
            Side::Back => size,
        }
    }
}

// One more edit: from `place` on, `count` elements of the list are to be replaced by these.
#[derive(Drop)]
pub struct Addition<'a, T> {
    pub place: usize,
    pub count: usize,
    pub elements: &'a [T],
    pub side: Side,
}

impl<'a, T> Addition<'a, T> {
    // It removes nothing and adds nothing.
    pub fn is_idle(&self) -> bool
        ensures { result ≡ idle self.now.count self.now.elements.now }
    {
        self.count == 0 && self.elements.is_empty()
    }
}
