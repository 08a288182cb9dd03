// A character of a note as it is listed.
ghost use Rattle.std.specs.Prelude.{Some};
ghost use Rattle.classes.specs.Entries.{entry_shown};

use punctuation::CharacterKind;
use std::fmt;
use text::Point;

#[derive(Clone, Copy)]
pub struct Entry {
    pub point: Point,
    pub c: char,
    pub kind: CharacterKind,
}

impl fmt::Display for Entry {
    ghost output = { λ entry. Some (entry_shown entry) };

    fn fmt<W: fmt::Write>(&self, f: &mut fmt::Formatter<W>) -> fmt::Result {
        let Entry { point, c, kind } = *self;
        let Point {
            line,
            column,
            index,
            ..
        } = point;
        let code = u32::from(c);
        write!(f, "{line}:{column} {index} U+{code:04X} {kind}")
    }
}
