// Buffers of N events: one whose memory is reserved and not yet written, and one that holds them all.
ghost use Rattle.std.specs.Prelude.{◌≡◌, ◌-◌, ◌<◌, ◌≤◌, [], ◌++◌, replicate, vec_len, vec_capacity, IfOk};
ghost use Rattle.resolving.specs.declared.buffer.TheConstants.{BLANK};

use machine::{Event, EventKind, Name};
use std::alloc::{AllocError, Global};
use text::places::START;

// What stands in a place of the buffer that no edit has used.
const BLANK: Event = Event {
    kind: EventKind::Enter,
    name: Name::Data,
    point: START,
};

// All N events, ready to be lent.
#[derive(Drop)]
pub struct Buffer<const N: usize> {
    pub events: Vec<Event>,
    ghost full: { vec_len events ≡ N },
}

impl<const N: usize> Buffer<N> {
    // Kept: not by way of a `ReservedBuffer`, which asks for half as much memory again.
    pub fn new(heap: Global) -> Result<Buffer<N>, AllocError>
        ensures blank { IfOk result (λ buffer. buffer.events.items ≡ replicate N BLANK) }
    {
        let events = vec![in heap; BLANK; N]?;
        Ok(Buffer { events })
    }
}

// Memory for N events: it is reserved once, and filled before it is first lent.
#[derive(Drop)]
pub struct ReservedBuffer<const N: usize> {
    pub events: Vec<Event>,
    ghost reserved: { N ≤ vec_capacity events },
    ghost few: { vec_len events ≤ N },
}

impl<const N: usize> ReservedBuffer<N> {
    // Writes nothing into the memory, since many a reader reads one note and never resolves it. More is reserved than is used,
    // so that this one piece is the larger part of what a reader asks for: the allocator of the GNU C library then keeps the
    // memory from one reader to the next, and else hands it back to the system each time.
    pub fn new(heap: Global) -> Result<ReservedBuffer<N>, AllocError>
        ensures empty { IfOk result (λ buffer. buffer.events.items ≡ []) }
    {
        let events = Vec::with_capacity(heap, N.saturating_add(N / 2))?;
        Ok(ReservedBuffer { events })
    }

    // Makes all N events ready to be lent, where they are not yet: what stands there stays.
    pub fn fill(&mut self)
        ensures full { vec_len self.new.events ≡ N }
        ensures blank { self.new.events.items ≡ self.old.events.items ++ replicate (N - vec_len self.old.events) BLANK }
    {
        for _ in self.events.len()..N {
            self.events.push_reserved(BLANK);
        }
    }
}

// What a resolver lends: none of the events are written yet, or all.
#[derive(Drop)]
pub(crate) struct Memory<const N: usize> {
    pub(crate) buffer: ReservedBuffer<N>,
    ghost full: { 0 < vec_len buffer.events → vec_len buffer.events ≡ N },
}
