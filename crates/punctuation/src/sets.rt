// Punctuation sets: which characters from 128 up count as punctuation.
ghost use Rattle.std.specs.Prelude.{◌≡◌, ℕ, Bool};
ghost use Rattle.punctuation.specs.Sets.{AreHighScalars, nothing, either};
ghost use Rattle.punctuation.specs.HighScalars.{nothing_high, either_high};

// A set means its members. Asking may change what the set keeps, and never what it means.
pub trait PunctuationSet {
    ghost member: { Self → ℕ → Bool };

    // Members are scalar values from 128 up.
    ghost high: { (s : Self) → AreHighScalars (member s) };

    fn contains(&mut self, c: char) -> bool
        ensures answer { result ≡ member self.old c }
        ensures meaning_stays { member self.new ≡ member self.old };
}

// The set without members.
#[derive(Clone, Copy)]
pub struct EmptySet;

impl PunctuationSet for EmptySet {
    ghost member = { λ _. nothing };

    ghost high = { λ _. nothing_high };

    fn contains(&mut self, _c: char) -> bool {
        false
    }
}

// The union of two sets of any kind, such unions among them.
#[derive(Drop)]
pub struct Either<A, B>(pub A, pub B);

impl<A: PunctuationSet, B: PunctuationSet> PunctuationSet for Either<A, B> {
    ghost member = { λ s. either (A.PunctuationSet.member s.0) (B.PunctuationSet.member s.1) };

    ghost high = { λ s. either_high (A.PunctuationSet.member s.0) (B.PunctuationSet.member s.1) (A.PunctuationSet.high s.0) (B.PunctuationSet.high s.1) };

    fn contains(&mut self, c: char) -> bool {
        self.0.contains(c) || self.1.contains(c)
    }
}
