// Readings of notes, and checks of what is written of them.
use edit_map::EditMap;
use punctuation::sets::PunctuationSet;
use reader::Reader;
use std::alloc::AllocError;
use std::process::Abort;
use text::Fault;
use written::{listing_lines, marked_copy, saved_list};

// More than any form of a note here takes.
const ROOM: usize = 2000;

#[derive(Clone, Copy)]
pub(crate) enum Form {
    SavedList,
    MarkedCopy,
    Listing,
}

pub(crate) const FORMS: [Form; 3] = [Form::SavedList, Form::MarkedCopy, Form::Listing];

impl Form {
    pub(crate) fn write<S: PunctuationSet>(
        self,
        map: &mut EditMap,
        reader: &Reader<S>,
        out: &mut [u8],
    ) -> Result<usize, Fault> {
        match self {
            Form::SavedList => saved_list(reader, out),
            Form::MarkedCopy => marked_copy(map, reader, out),
            Form::Listing => listing_lines(reader, out),
        }
    }
}

// A buffer is made of dots, so a dot is a byte that was not written.
pub(crate) fn are_dots(bytes: &[u8]) -> bool {
    bytes.iter().all(|b| *b == b'.')
}

// A note, the links marked in it, and a form of it.
#[derive(Clone, Copy)]
pub(crate) struct Row<'a> {
    pub(crate) note: &'a [u8],
    pub(crate) links: &'a [(usize, usize)],
    pub(crate) form: Form,
    pub(crate) written: &'a [u8],
}

// One reader has all the notes in turn.
pub(crate) fn check_rows<S: PunctuationSet + Drop>(
    rt: &(impl Abort + AllocGlobal),
    set: S,
    rows: &[Row<'_>],
) -> Result<(), AllocError> {
    let mut reader = Reader::new(rt.alloc(), set)?;
    let mut map = EditMap::new(rt.alloc())?;
    for row in rows {
        assert!(rt; resolve(&mut reader, row.note, row.links).is_ok());
        check_form(rt, &mut map, row.form, &reader, row.written);
    }
    Ok(())
}

// Reads another note, and resolves it with these links.
pub(crate) fn resolve<S: PunctuationSet>(
    reader: &mut Reader<S>,
    note: &[u8],
    links: &[(usize, usize)],
) -> Result<(), Fault> {
    reader.clear();
    reader.load(note)?;
    reader.push(note.len(), u64::MAX)?;
    reader.end(u64::MAX)?;
    for (first, last) in links {
        reader.link(*first, *last)?;
    }
    reader.resolve()
}

// What was answered: the number of a refusal and its place, or else 0 and how many bytes were written.
pub(crate) fn numbers(answer: Result<usize, Fault>) -> (u8, usize) {
    match answer {
        Ok(count) => (0, count),
        Err(fault) => (fault.number(), fault.place()),
    }
}

// The form is `expected`. It is refused in every shorter buffer that is tried, which stays as it was.
pub(crate) fn check_form<S: PunctuationSet>(
    rt: &impl Abort,
    map: &mut EditMap,
    form: Form,
    reader: &Reader<S>,
    expected: &[u8],
) {
    let mut out = [b'.'; ROOM];
    let needed = expected.len();
    assert!(rt; needed < ROOM);
    if needed > 0 {
        for room in [0, needed - 1] {
            let short = form.write(map, reader, &mut out[..room]);
            assert!(rt; numbers(short) == (16, needed));
            assert!(rt; are_dots(&out));
        }
    }
    // It just fits, and in a longer buffer the bytes past it stay.
    for room in [needed, ROOM] {
        let written = form.write(map, reader, &mut out[..room]);
        assert!(rt; numbers(written) == (0, needed));
        assert!(rt; out.starts_with(expected) && are_dots(&out[needed..]));
        out = [b'.'; ROOM];
    }
}
