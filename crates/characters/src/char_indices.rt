// The characters of some bytes in turn, each with its place, as `str::char_indices` gives those of a text.
ghost use Rattle.std.specs.Prelude.{◌≡◌};
ghost use Rattle.std.specs.Iterator.{YieldsFirst, item_count};
ghost use Rattle.characters.specs.CharacterLists.{characters_from};

use crate::utf8::char_at;
use crate::widths::char_width;

#[derive(Drop)]
pub struct CharIndices<'a> {
    bytes: &'a [u8],
    index: usize,
}

// A byte that begins no well-formed sequence counts as U+FFFD, and the next one comes after it.
pub fn char_indices(bytes: &[u8]) -> CharIndices<'_>
    ensures lent { result.bytes.now ≡ bytes.now }
    ensures start { result.index ≡ 0 }
{
    CharIndices { bytes, index: 0 }
}

impl Iterator for CharIndices<'_> {
    type Item = (usize, char);

    ghost next_gives = { YieldsFirst (λ s. characters_from s.bytes.now s.index) };

    ghost remaining = { item_count (λ s. characters_from s.bytes.now s.index) };

    fn next(&mut self) -> Option<(usize, char)> {
        let index = self.index;
        let c = char_at(self.bytes, index)?;
        self.index += char_width(self.bytes, index);
        Some((index, c))
    }
}
