// How kinds of characters are printed.
ghost use Rattle.std.specs.Prelude.{Some};
ghost use Rattle.punctuation.specs.Shown.{character_kind_shown};

use crate::kinds::CharacterKind;
use std::fmt;

impl fmt::Display for CharacterKind {
    ghost output = { λ kind. Some (character_kind_shown kind) };

    fn fmt<W: fmt::Write>(&self, f: &mut fmt::Formatter<W>) -> fmt::Result {
        f.write_str(match self {
            CharacterKind::Whitespace => "white-space",
            CharacterKind::Punctuation => "punctuation",
            CharacterKind::Other => "other",
        })
    }
}
