// Slices that a caller lends to have something written into them.
ghost use Rattle.std.specs.Prelude.{◌≡◌};
ghost use Rattle.text.specs.Lent.{room_for};

use crate::refusals::Fault;

// Refuses a slice with room for fewer elements than are needed.
pub fn check_room(needed: usize, room: usize) -> Result<usize, Fault>
    ensures { result ≡ room_for needed room }
{
    if needed > room {
        return Err(Fault::BufferTooShort(needed));
    }
    Ok(needed)
}
