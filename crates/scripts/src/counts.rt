// Numbers of things.
ghost use Rattle.std.specs.Prelude.{◌≡◌, Some};
ghost use Rattle.scripts.specs.Counts.{counted_shown, ending};

use std::fmt;

// So many of what the noun names, whose plural takes an s.
#[derive(Clone, Copy)]
pub struct Counted {
    pub count: u64,
    pub noun: &'static str,
}

impl fmt::Display for Counted {
    ghost output = { λ counted. Some (counted_shown counted.count counted.noun.now) };

    fn fmt<W: fmt::Write>(&self, f: &mut fmt::Formatter<W>) -> fmt::Result {
        let Counted { count, noun } = *self;
        let ending = ending(count);
        write!(f, "{count} {noun}{ending}")
    }
}

fn ending(count: u64) -> &'static str
    ensures { result.now ≡ ending count }
{
    if count == 1 { "" } else { "s" }
}
