// How much room event lists need, and what is proved of them.
ghost use Rattle.std.specs.Prelude.{◌≡◌};
ghost use Rattle.calls.specs.Passes.{TwoPassesResolve};
ghost use Rattle.calls.specs.Steps.{most_links, most_events};
ghost use Rattle.calls.specs.Theorems.{SegmentsAreRead, ResolvingResolves, NothingElseIsClaimed, ListsFit, RoomIsReached, TwoAByteAndALink};

// Links that may be marked in one note.
pub fn links_room() -> usize
    ensures { result ≡ most_links }
{
    64
}

// Events that a reader may hold: two for each byte of the longest note, and two for each link. Some note, with some links, has as many.
// The lists that must fit are those of ended and of resolved notes. They are what is claimed of them, and no others are: specs/Theorems.
pub fn events_room() -> usize
    ensures value { result ≡ most_events }
    ensures lists_fit { ListsFit result }
    ensures room_is_reached { RoomIsReached result }
    ensures two_a_byte_and_a_link { TwoAByteAndALink }
    ensures segments_are_read { SegmentsAreRead }
    ensures resolving_resolves { ResolvingResolves }
    ensures two_passes_resolve { TwoPassesResolve }
    ensures nothing_else_is_claimed { NothingElseIsClaimed }
{
    2176
}
