// How many scripts there were.
ghost use Rattle.std.specs.Prelude.{◌≡◌, Some};
ghost use Rattle.worked_scripts.specs.Tallies.{counted, tally_shown};

use std::fmt;

#[derive(Clone, Copy, Default, PartialEq, Eq, Debug)]
pub struct Tally {
    pub scripts: u64,
    pub as_written: u64,
}

impl Tally {
    // One more script.
    pub fn count(&mut self, as_written: bool)
        ensures { self.new ≡ counted as_written self.old }
    {
        self.scripts = self.scripts.saturating_add(1);
        if as_written {
            self.as_written = self.as_written.saturating_add(1);
        }
    }
}

impl fmt::Display for Tally {
    ghost output = { λ tally. Some (tally_shown tally) };

    fn fmt<W: fmt::Write>(&self, f: &mut fmt::Formatter<W>) -> fmt::Result {
        let scripts = self.scripts;
        let as_written = self.as_written;
        write!(f, "{scripts} scripts, {as_written} as written")
    }
}
