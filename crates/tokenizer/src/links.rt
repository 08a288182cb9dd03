// What the states of a link ask of the registers, and how they leave a domain and a path.
ghost use Rattle.std.specs.Prelude.{◌≡◌, ◌-◌, ◌≤◌, vec_len};
ghost use Rattle.machine.specs.declared.states.State.TheVariants.{Ok};
ghost use Rattle.machine.specs.Moves.{with_state, sized, sized_b};
ghost use Rattle.machine.specs.States.{call_domain_after, unclosed, protocol_read, domain_fails};
ghost use Rattle.tokenizer.specs.View.{machine};

use crate::tokenizer::Tokenizer;
use machine::{State, StateName};

impl Tokenizer {
    // A parenthesis of the path is open.
    pub fn is_unclosed(&self) -> bool
        ensures { result ≡ unclosed (machine self.now) }
    {
        self.registers.size_b < self.registers.size
    }

    // A `_` in one of the last two parts of the domain, or nothing but joints.
    pub fn domain_fails(&self) -> bool
        ensures { result ≡ domain_fails (machine self.now) }
    {
        self.registers.marker_b || self.registers.marker || !self.registers.seen
    }

    // The name of a protocol has been read: `http` or `https`, in any case.
    pub fn is_protocol_read(&self) -> bool
        requires order { self.now.registers.start ≤ self.now.cursor.point.index }
        requires within { self.now.cursor.point.index ≤ vec_len self.now.note }
        ensures { result ≡ protocol_read (machine self.now) }
    {
        let name = &self.note.as_slice()[self.registers.start..self.cursor.point.index];
        name.eq_ignore_ascii_case(b"http") || name.eq_ignore_ascii_case(b"https")
    }

    // How many letters of the protocol's name have been read.
    pub fn name_length(&self) -> usize
        requires { self.now.registers.start ≤ self.now.cursor.point.index }
        ensures { result ≡ self.now.cursor.point.index - self.now.registers.start }
    {
        self.cursor.point.index - self.registers.start
    }

    // The domain is read: whether it is valid decides, and what was noted of it is forgotten.
    pub fn leave_domain(&mut self)
        ensures { machine self.new ≡ call_domain_after (machine self.old) }
    {
        let fails = self.domain_fails();
        self.set_seen(false);
        self.set_markers(false, false);
        if fails {
            self.go(State::Nok);
        } else {
            self.go(State::Retry(StateName::PathInside));
        }
    }

    // The path is read: its parentheses are forgotten.
    pub fn leave_path(&mut self)
        ensures { machine self.new ≡ with_state Ok (sized 0 (sized_b 0 (machine self.old))) }
    {
        self.set_size_b(0);
        self.set_size(0);
        self.go(State::Ok);
    }
}
