// Rows of docs/FORMATS.md, sections 3 to 5, and the most addresses that a note has.
use crate::forms::{Form, Row, check_form, check_rows, resolve};
use edit_map::EditMap;
use punctuation::range_lists::house_set;
use reader::Reader;
use std::test::Fail;

const ROWS: [Row<'static>; 14] = [
    Row {
        note: b"a www.b",
        links: &[],
        form: Form::SavedList,
        written: &[0, 2, 5],
    },
    Row {
        note: b"a www.b",
        links: &[],
        form: Form::MarkedCopy,
        written: b"a {wwww.b}",
    },
    Row {
        note: b"a www.b",
        links: &[],
        form: Form::Listing,
        written: b"enter data 1:1 0\nexit data 1:3 2\nenter www 1:3 2\nexit www 1:8 7\n",
    },
    Row {
        note: b"",
        links: &[],
        form: Form::SavedList,
        written: &[],
    },
    Row {
        note: b"",
        links: &[],
        form: Form::MarkedCopy,
        written: b"",
    },
    Row {
        note: b"",
        links: &[],
        form: Form::Listing,
        written: b"",
    },
    Row {
        note: b"xmpp:a@b.c/1http://d",
        links: &[],
        form: Form::SavedList,
        written: &[4, 0, 12, 1, 0, 8],
    },
    Row {
        note: b"xmpp:a@b.c/1http://d",
        links: &[],
        form: Form::MarkedCopy,
        written: b"{xxmpp:a@b.c/1}{phttp://d}",
    },
    Row {
        note: b"{a@b.c}",
        links: &[],
        form: Form::MarkedCopy,
        written: b"{{ea@b.c}}",
    },
    // In a marked link the web link is written, and the mail address stays data.
    Row {
        note: b"a@b.c www.d e@f.g",
        links: &[(0, 3)],
        form: Form::SavedList,
        written: &[0, 6, 5, 2, 1, 5],
    },
    Row {
        note: b"a@b.c www.d e@f.g",
        links: &[(0, 3)],
        form: Form::MarkedCopy,
        written: b"a@b.c {wwww.d} {ee@f.g}",
    },
    // The links are forgotten with the note.
    Row {
        note: b"a@b.c www.d e@f.g",
        links: &[],
        form: Form::SavedList,
        written: &[2, 0, 5, 0, 1, 5, 2, 1, 5],
    },
    Row {
        note: b"a\r\nb@c.d",
        links: &[],
        form: Form::Listing,
        written: b"enter data 1:1 0\nexit data 1:2 1\nenter line-ending 1:2 1\nexit line-ending 2:1 3\nenter email 2:1 3\nexit email 2:6 8\n",
    },
    Row {
        note: b"a@b.c www.d e@f.g",
        links: &[(0, 1), (2, 3)],
        form: Form::Listing,
        written: b"enter link 1:1 0\nenter data 1:1 0\nexit data 1:7 6\nexit link 1:7 6\nenter link 1:7 6\nenter www 1:7 6\nexit www 1:12 11\nexit link 1:12 11\nenter data 1:12 11\nexit data 1:13 12\nenter email 1:13 12\nexit email 1:18 17\n",
    },
];

#[test]
fn rows_of_the_formats(rt: HostRuntime) -> Result<(), Fail> {
    check_rows(&rt, house_set(), &ROWS)?;
    Ok(())
}

// As many mail addresses as a note has room for, and they touch.
#[test]
fn most_addresses(rt: HostRuntime) -> Result<(), Fail> {
    let mut note = [0; 5 * 204];
    repeat(&mut note, b"+@b.c");
    let mut saved = [0; 3 * 204];
    repeat(&mut saved, &[2, 0, 5]);
    let mut copy = [0; 8 * 204];
    repeat(&mut copy, b"{e+@b.c}");
    let mut reader = Reader::new(rt.alloc(), house_set())?;
    let mut map = EditMap::new(rt.alloc())?;
    assert!(rt; resolve(&mut reader, &note, &[]).is_ok());
    check_form(&rt, &mut map, Form::SavedList, &reader, &saved);
    check_form(&rt, &mut map, Form::MarkedCopy, &reader, &copy);
    Ok(())
}

fn repeat(out: &mut [u8], pattern: &[u8]) {
    for (byte, of_pattern) in out.iter_mut().zip(pattern.iter().cycle()) {
        *byte = *of_pattern;
    }
}
