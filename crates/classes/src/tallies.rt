// How many characters of each kind a note has.
ghost use Rattle.std.specs.Prelude.{◌≡◌, Some};
ghost use Rattle.classes.specs.Tallies.{uncounted, counted, tally_shown};

use punctuation::CharacterKind;
use std::fmt;

#[derive(Drop)]
pub struct Tally {
    pub bytes: usize,
    pub characters: u64,
    pub white_space: u64,
    pub punctuation: u64,
    pub other: u64,
}

impl Tally {
    pub fn new(bytes: usize) -> Tally
        ensures { result ≡ uncounted bytes }
    {
        Tally {
            bytes,
            characters: 0,
            white_space: 0,
            punctuation: 0,
            other: 0,
        }
    }

    pub fn count(&mut self, kind: CharacterKind)
        ensures { self.new ≡ counted kind self.old }
    {
        self.characters = self.characters.saturating_add(1);
        match kind {
            CharacterKind::Whitespace => self.white_space = self.white_space.saturating_add(1),
            CharacterKind::Punctuation => self.punctuation = self.punctuation.saturating_add(1),
            CharacterKind::Other => self.other = self.other.saturating_add(1),
        }
    }
}

impl fmt::Display for Tally {
    ghost output = { λ t. Some (tally_shown t) };

    fn fmt<W: fmt::Write>(&self, f: &mut fmt::Formatter<W>) -> fmt::Result {
        let Tally {
            bytes,
            characters,
            white_space,
            punctuation,
            other,
        } = self;
        write!(
            f,
            "{characters} characters in {bytes} bytes: {white_space} white-space, {punctuation} punctuation, {other} other"
        )
    }
}
