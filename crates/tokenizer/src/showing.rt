// What is shown to a state, and which state is due.
ghost use Rattle.std.specs.Prelude.{◌≡◌};
ghost use Rattle.machine.specs.Cursors.{shown_at};
ghost use Rattle.machine.specs.Runs.{passed, prepared, due, shown};
ghost use Rattle.tokenizer.specs.View.{machine};

use crate::tokenizer::Tokenizer;
use machine::{State, StateName, Until};

impl Tokenizer {
    // Passes over a CR before an LF, once the CR may be read.
    pub fn pass(&mut self, until: Until)
        ensures { machine self.new ≡ passed until (machine self.old) }
    {
        if let State::Next(_) = self.state {
            let index = self.cursor.point.index;
            if index < until.limit(self.note.len()) && self.is_cr_before_lf(index) {
                self.cursor.point.index = index + 1;
            }
        }
    }

    // Settles what has its answer, and passes over a CR. A run has two calls of it, one of them in its loop: hence the hint.
    #[inline(always)]
    pub fn prepare(&mut self, until: Until)
        ensures { machine self.new ≡ prepared until (machine self.old) }
    {
        self.settle();
        self.pass(until);
    }

    // The state that is to be called, if any.
    pub fn due(&self, until: Until) -> Option<StateName>
        ensures { result ≡ due until (machine self.now) }
    {
        match self.state {
            State::Next(name) => until.may_show(self.cursor.point.index).then_some(name),
            State::Retry(name) => Some(name),
            State::Ok | State::Nok => None,
        }
    }

    // A lone CR as an LF, a tab as a tab and then spaces; none at the end.
    pub fn look(&self) -> Option<u8>
        ensures { result ≡ shown_at self.now.note.items self.now.cursor.point }
    {
        match *self.note.get(self.cursor.point.index)? {
            b'\r' => Some(b'\n'),
            b'\t' if self.cursor.point.vs > 0 => Some(b' '),
            byte => Some(byte),
        }
    }

    // Shows what is at the point, unless a state is called anew on what it has been shown.
    pub fn show(&mut self)
        ensures { machine self.new ≡ shown (machine self.old) }
    {
        if let State::Next(_) = self.state {
            self.cursor.current = self.look();
        }
    }
}
