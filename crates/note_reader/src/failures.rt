// Why nothing can be handed out.
use std::alloc::AllocError;
use text::Fault;

#[derive(Clone, Copy)]
pub enum Failure {
    Refused(Fault),
    NoMemory,
}

impl From<Fault> for Failure {
    fn from(fault: Fault) -> Failure {
        Failure::Refused(fault)
    }
}

impl From<AllocError> for Failure {
    fn from(_error: AllocError) -> Failure {
        Failure::NoMemory
    }
}

// 2^63, the refusal's number times 2^32, and its place as far as it fits. Number 0: no memory.
// Kept: a number, since it goes over the C interface.
impl From<Failure> for u64 {
    fn from(failure: Failure) -> u64 {
        let (number, place) = match failure {
            Failure::Refused(fault) => (fault.number(), fault.place()),
            Failure::NoMemory => (0, 0),
        };
        (1 << 63) | (u64::from(number) << 32) | (place as u64).min(u64::from(u32::MAX))
    }
}
