// A set that counts the questions that it is asked.
ghost use Rattle.std.specs.Prelude.{◌≡◌};

use punctuation::PunctuationSet;

#[derive(Drop)]
pub(crate) struct CountingSet<S> {
    pub(crate) set: S,
    pub(crate) questions: u64,
}

impl<S: PunctuationSet> PunctuationSet for CountingSet<S> {
    ghost member = { λ s. S.PunctuationSet.member s.set };

    ghost high = { λ s. S.PunctuationSet.high s.set };

    fn contains(&mut self, c: char) -> bool {
        self.questions = self.questions.saturating_add(1);
        self.set.contains(c)
    }
}
