// Which characters are white space.
ghost use Rattle.std.specs.Prelude.{◌≡◌};
ghost use Rattle.characters.specs.WhiteSpace.{white_space};

// Unicode's White_Space, as ranges with their first and last character.
const WHITE_SPACE: [(char, char); 10] = [
    ('\u{9}', '\u{D}'),
    ('\u{20}', '\u{20}'),
    ('\u{85}', '\u{85}'),
    ('\u{A0}', '\u{A0}'),
    ('\u{1680}', '\u{1680}'),
    ('\u{2000}', '\u{200A}'),
    ('\u{2028}', '\u{2029}'),
    ('\u{202F}', '\u{202F}'),
    ('\u{205F}', '\u{205F}'),
    ('\u{3000}', '\u{3000}'),
];

pub fn is_white_space(c: char) -> bool
    ensures { result ≡ white_space c }
{
    WHITE_SPACE
        .iter()
        .any(|(first, last)| *first <= c && c <= *last)
}
