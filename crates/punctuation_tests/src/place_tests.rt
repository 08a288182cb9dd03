// Places in a note with every kind of line ending, and with tabs.
use std::process::Abort;
use text::{Fault, Point};

fn point(line: usize, column: usize, index: usize) -> Point {
    Point {
        line,
        column,
        index,
        vs: 0,
    }
}

fn shifts(rt: &impl Abort, from: Point, note: &[u8], index: usize, answer: Result<Point, Fault>) {
    assert_eq!(rt;
        from.shift_to(note, index),
        answer,
        "from {from:?} to {index}"
    );
}

#[test]
fn line_endings_begin_lines(rt: HostRuntime) {
    let note = b"a\rb\nc\r\nd";
    let start = point(1, 1, 0);
    shifts(&rt, start, note, 0, Ok(start));
    shifts(&rt, start, note, 2, Ok(point(2, 1, 2)));
    shifts(&rt, start, note, 4, Ok(point(3, 1, 4)));
    // Between CR and LF: the CR is passed over, and the line still goes on.
    shifts(&rt, start, note, 6, Ok(point(3, 2, 6)));
    shifts(&rt, start, note, 7, Ok(point(4, 1, 7)));
    shifts(&rt, start, note, 8, Ok(point(4, 2, 8)));
}

#[test]
fn tabs_fill_up(rt: HostRuntime) {
    let note = b"\tc@d.e\tx";
    shifts(&rt, point(1, 1, 0), note, 1, Ok(point(1, 5, 1)));
    shifts(&rt, point(1, 5, 1), note, 6, Ok(point(1, 10, 6)));
    shifts(&rt, point(1, 10, 6), note, 7, Ok(point(1, 13, 7)));
}

#[test]
fn what_lies_outside_is_refused(rt: HostRuntime) {
    let refused = Err(Fault::TargetOutOfRange);
    shifts(&rt, point(1, 1, 0), b"ab", 3, refused);
    shifts(&rt, point(1, 2, 1), b"ab", 0, refused);
    shifts(&rt, point(1026, 1, 0), b"ab", 1, refused);
    shifts(&rt, point(1, 4098, 0), b"ab", 1, refused);
    shifts(&rt, point(1, usize::MAX, 0), b"ab", 1, refused);
    let long = [b'a'; 1025];
    shifts(
        &rt,
        point(1, 1, 0),
        &long[..1024],
        1024,
        Ok(point(1, 1025, 1024)),
    );
    shifts(&rt, point(1, 1, 9), &long, 0, Err(Fault::NoteTooLong));
}
