// Every refusal of the software: docs/REFUSALS.md says who is turned away for what.
ghost use Rattle.std.specs.Prelude.{◌≡◌, Decides};
ghost use Rattle.text.specs.Refusals.{number, place, same_fault, SameFaultIsEqual};
ghost use Rattle.std.specs.Cmp.{partial_equiv_from_equiv};
ghost use Rattle.std.specs.Cmp.Rules.{comparing};
ghost use Rattle.std.proofs.Common.{rules};

// A case for each number, in the order of the numbers. A case that has a place carries it.
#[derive(Clone, Copy, Debug)]
pub enum Fault {
    NoteTooLong,
    AlreadyLoaded,
    NothingLoaded,
    OutOfTurn,
    NoAllowance,
    TargetOutOfRange,
    EndTooEarly,
    NotEnded,
    RunNotMarkable,
    TooManyLinks,
    NoSuchEvent,
    NotResolved,
    EditOutOfRange(usize),
    EditInsideRemoval(usize),
    NoRoomForEdit,
    BufferTooShort(usize),
    BadRangeListLength,
    UnlawfulRange(usize),
}

impl Fault {
    // Kept: the number is what the formats write; code that asks which refusal it is matches the cases.
    pub fn number(&self) -> u8
        ensures { result ≡ number self.now }
    {
        match self {
            Fault::NoteTooLong => 1,
            Fault::AlreadyLoaded => 2,
            Fault::NothingLoaded => 3,
            Fault::OutOfTurn => 4,
            Fault::NoAllowance => 5,
            Fault::TargetOutOfRange => 6,
            Fault::EndTooEarly => 7,
            Fault::NotEnded => 8,
            Fault::RunNotMarkable => 9,
            Fault::TooManyLinks => 10,
            Fault::NoSuchEvent => 11,
            Fault::NotResolved => 12,
            Fault::EditOutOfRange(_) => 13,
            Fault::EditInsideRemoval(_) => 14,
            Fault::NoRoomForEdit => 15,
            Fault::BufferTooShort(_) => 16,
            Fault::BadRangeListLength => 17,
            Fault::UnlawfulRange(_) => 18,
        }
    }

    // 0 where the case has no place of its own.
    // Kept: no Option, since the formats write 0 there.
    pub fn place(&self) -> usize
        ensures { result ≡ place self.now }
    {
        match self {
            Fault::EditOutOfRange(rank) => *rank,
            Fault::EditInsideRemoval(rank) => *rank,
            Fault::BufferTooShort(needed) => *needed,
            Fault::UnlawfulRange(rank) => *rank,
            _ => 0,
        }
    }
}

// Number and place tell every refusal from every other.
// Kept: a derive has no contract, and this one promises of `==` and `!=` that number and place decide them.
impl PartialEq for Fault {
    ghost eq = { same_fault };

    ghost laws = { partial_equiv_from_equiv (Prim.search (comparing, rules)) };

    fn eq(&self, other: &Fault) -> bool
        ensures answer { result ≡ same_fault self.now other.now }
        ensures exact { Decides result (self.now ≡ other.now) }
        ensures same_fault_is_equal { SameFaultIsEqual }
    {
        self.number() == other.number() && self.place() == other.place()
    }
}

impl Eq for Fault {
    ghost laws = { Prim.search (comparing, rules) };
}
