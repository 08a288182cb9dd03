// Numbers written one after another into a lent slice, and the codes of events.
use machine::{Event, EventKind, Name};
use text::{Fault, SpanKind};

// Kept: the slice is lent over the C interface, which wants to know how much of it was used.
#[derive(Drop)]
pub struct Numbers<'a> {
    pub out: &'a mut [u64],
    pub used: usize,
}

impl Numbers<'_> {
    pub fn put(&mut self, number: u64) -> Result<(), Fault> {
        let room = self.out.len();
        let slot = self
            .out
            .get_mut(self.used)
            .ok_or(Fault::BufferTooShort(room))?;
        *slot = number;
        self.used += 1;
        Ok(())
    }

    pub fn put_event(&mut self, event: Event) -> Result<(), Fault> {
        let point = event.point;
        self.put(kind_code(event.kind))?;
        self.put(name_code(event.name))?;
        self.put(point.line as u64)?;
        self.put(point.column as u64)?;
        self.put(point.index as u64)?;
        self.put(point.vs as u64)
    }
}

// Kept: these numbers and those of names are the C interface's.
fn kind_code(kind: EventKind) -> u64 {
    match kind {
        EventKind::Enter => 0,
        EventKind::Exit => 1,
    }
}

fn name_code(name: Name) -> u64 {
    match name {
        Name::Data => 0,
        Name::LineEnding => 1,
        Name::Link => 2,
        Name::Address(SpanKind::Www) => 3,
        Name::Address(SpanKind::Protocol) => 4,
        Name::Address(SpanKind::Email) => 5,
        Name::Address(SpanKind::Mailto) => 6,
        Name::Address(SpanKind::Xmpp) => 7,
    }
}
