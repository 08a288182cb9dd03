// How many recorded answers there are, and how many of them agree.
ghost use Rattle.std.specs.Prelude.{◌≡◌, Some};
ghost use Rattle.recorded_answers.specs.Tallies.{counted, tally_shown};

use std::fmt;

#[derive(Clone, Copy, Default, PartialEq, Eq, Debug)]
pub struct Tally {
    pub answers: u64,
    pub agreeing: u64,
}

impl Tally {
    pub fn count(&mut self, agrees: bool)
        ensures { self.new ≡ counted agrees self.old }
    {
        self.answers = self.answers.saturating_add(1);
        self.agreeing = self.agreeing.saturating_add(u64::from(agrees));
    }
}

impl fmt::Display for Tally {
    ghost output = { λ t. Some (tally_shown t) };

    fn fmt<W: fmt::Write>(&self, f: &mut fmt::Formatter<W>) -> fmt::Result {
        let Tally { answers, agreeing } = *self;
        write!(f, "{answers} answers, {agreeing} agree")
    }
}
