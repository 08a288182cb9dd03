// Tests of the marked copy: its marks, its limits and its refusals.
#![tactic(auto)]

#[cfg(test)]
mod tests {
    use edit_map::EditMap;
    use marked::copies::LONGEST_COPY;
    use marked::mark_addresses;
    use std::process::Abort;
    use std::test::Fail;
    use text::Fault;
    use text::notes::LONGEST_NOTE;

    // The copy stands at the front of a buffer of dots, and the map is empty then.
    fn check_copy(rt: &(impl Abort + AllocGlobal), note: &[u8], copy: &[u8]) -> Result<(), Fail> {
        let mut map = EditMap::new(rt.alloc())?;
        let mut out = [b'.'; 40];
        assert_eq!(rt; mark_addresses(&mut map, note, &mut out), Ok(copy.len()));
        assert!(rt; out.starts_with(copy));
        assert_eq!(rt; out.get(copy.len()), Some(&b'.'));
        assert!(rt; map.is_empty());
        Ok(())
    }

    #[test]
    fn addresses_are_marked(rt: HostRuntime) -> Result<(), Fail> {
        check_copy(&rt, b"", b"")?;
        check_copy(&rt, b"hello", b"hello")?;
        check_copy(&rt, b"{a@b.c}", b"{{ea@b.c}}")?;
        check_copy(&rt, b"see mailto:x@y.z now", b"see {mmailto:x@y.z} now")?;
        check_copy(
            &rt,
            b"xmpp:a@b.c/1\r\nd@e.f",
            b"{xxmpp:a@b.c/1}\r\n{ed@e.f}",
        )
    }

    #[test]
    fn marks_of_touching_addresses_are_in_turn(rt: HostRuntime) -> Result<(), Fail> {
        check_copy(&rt, b"a@b.c+d@e.f", b"{ea@b.c}{e+d@e.f}")
    }

    #[test]
    fn kept_edits_are_forgotten_only_where_accepted(rt: HostRuntime) -> Result<(), Fail> {
        let mut map = EditMap::new(rt.alloc())?;
        let mut store = [0u8; 4];
        assert_eq!(rt; map.add(&mut store, 1, 0, b"kept"), Ok(()));
        let mut short = [b'.'; 7];
        assert_eq!(rt;
            mark_addresses(&mut map, b"a@b.c", &mut short),
            Err(Fault::BufferTooShort(8))
        );
        assert_eq!(rt; short, [b'.'; 7]);
        assert_eq!(rt; map.kept(), 4);
        let mut enough = [b'.'; 8];
        assert_eq!(rt; mark_addresses(&mut map, b"a@b.c", &mut enough), Ok(8));
        assert_eq!(rt; &enough, b"{ea@b.c}");
        assert!(rt; map.is_empty());
        Ok(())
    }

    #[test]
    fn longest_note_is_copied_and_a_longer_one_refused(rt: HostRuntime) -> Result<(), Fail> {
        let mut map = EditMap::new(rt.alloc())?;
        let note = [b'a'; LONGEST_NOTE + 1];
        let mut out = [b'.'; LONGEST_COPY];
        assert_eq!(rt;
            mark_addresses(&mut map, &note, &mut out),
            Err(Fault::NoteTooLong)
        );
        assert_eq!(rt; out[0], b'.');
        assert_eq!(rt;
            mark_addresses(&mut map, &note[..LONGEST_NOTE], &mut out),
            Ok(LONGEST_NOTE)
        );
        assert_eq!(rt; out[LONGEST_NOTE - 1], b'a');
        assert_eq!(rt; out[LONGEST_NOTE], b'.');
        Ok(())
    }
}
