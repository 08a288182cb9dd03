// Kinds of characters: white space, punctuation and all else.
ghost use Rattle.std.specs.Prelude.{◌≡◌, ℕ, ◌<◌, Bool};
ghost use Rattle.punctuation.specs.Kinds.{kind_of, kind_at};

use crate::sets::PunctuationSet;
use characters::utf8::char_at;
use characters::white_space::is_white_space;

#[derive(Clone, Copy, PartialEq, Eq, Debug)]
pub enum CharacterKind {
    Whitespace,
    Punctuation,
    Other,
}

// The kind of the character at `index`. The end of the note, and all past it, is white space.
pub fn kind_after_index<S: PunctuationSet>(bytes: &[u8], index: usize, set: &mut S) -> CharacterKind
    ensures kind { result ≡ kind_at (S.member set.old) bytes.now index }
    ensures meaning_stays { S.member set.new ≡ S.member set.old }
{
    match char_at(bytes, index) {
        None => CharacterKind::Whitespace,
        Some(c) => classify(c, set),
    }
}

// The set is asked of characters from 128 up alone, and not of white space.
pub fn classify<S: PunctuationSet>(c: char, set: &mut S) -> CharacterKind
    ensures kind { result ≡ kind_of (S.member set.old) c }
    ensures meaning_stays { S.member set.new ≡ S.member set.old }
{
    if c.is_ascii() {
        classify_ascii(c)
    } else if is_white_space(c) {
        CharacterKind::Whitespace
    } else if set.contains(c) {
        CharacterKind::Punctuation
    } else {
        CharacterKind::Other
    }
}

fn classify_ascii(c: char) -> CharacterKind
    requires { c < 128 }
    ensures { (member : ℕ → Bool) → result ≡ kind_of member c }
{
    match c {
        '\t'..='\r' | ' ' => CharacterKind::Whitespace,
        '!'..='/' | ':'..='@' | '['..='`' | '{'..='~' => CharacterKind::Punctuation,
        _ => CharacterKind::Other,
    }
}
