// Tests of the buffers that resolving lends: each can be had, and has room for all its events.
#![tactic(auto)]

#[cfg(test)]
mod tests {
    use resolving::buffer::{Buffer, ReservedBuffer};
    use std::test::Fail;

    #[test]
    fn buffers_have_all_their_events(rt: HostRuntime) -> Result<(), Fail> {
        let buffer = Buffer::<7>::new(rt.alloc())?;
        assert_eq!(rt; buffer.events.len(), 7);
        let mut memory = ReservedBuffer::<7>::new(rt.alloc())?;
        assert_eq!(rt; memory.events.len(), 0);
        memory.fill();
        assert_eq!(rt; memory.events.len(), 7);
        Ok(())
    }
}
