// The moves that states are made of. Those that need room or numbers that fit ask for it: whoever calls a state has it, at every
// call of every run, as a fact (`machine/specs/Invariant`).
ghost use Rattle.std.specs.Prelude.{◌≡◌, ◌<◌, ◌≤◌, length, vec_len};
ghost use Rattle.machine.specs.Cursors.{crlf_at, moved, event};
ghost use Rattle.machine.specs.Moves.{with_state, consumed, next, sized, sized_b, saw, marked, started, entered, exited, captured, checked, attempted, kept_for};
ghost use Rattle.machine.specs.States.{www_begun, protocol_begun};
ghost use Rattle.tokenizer.specs.Bounds.{SpanFits, Within};
ghost use Rattle.tokenizer.specs.Stack.{stack};
ghost use Rattle.tokenizer.specs.View.{machine};

use crate::attempts::ATTEMPTS_ROOM;
use crate::event_table::EVENTS_ROOM;
use crate::tokenizer::Tokenizer;
use machine::{Attempt, AttemptKind, Cursor, Event, EventKind, Name, Progress, State, StateName};
use text::{Point, SpanKind};

// A tab fills up to a column of the form TAB_SIZE * k + 1.
const TAB_SIZE: usize = 4;

impl Tokenizer {
    // ---- the state and the registers
    // Kept: the definition has a move for each register, and so has the tokenizer.

    pub fn go(&mut self, state: State)
        ensures { machine self.new ≡ with_state state (machine self.old) }
    {
        self.state = state;
    }

    pub fn set_size(&mut self, size: usize)
        ensures { machine self.new ≡ sized size (machine self.old) }
    {
        self.registers.size = size;
    }

    pub fn set_size_b(&mut self, size: usize)
        ensures { machine self.new ≡ sized_b size (machine self.old) }
    {
        self.registers.size_b = size;
    }

    pub fn set_seen(&mut self, seen: bool)
        ensures { machine self.new ≡ saw seen (machine self.old) }
    {
        self.registers.seen = seen;
    }

    pub fn set_markers(&mut self, marker: bool, marker_b: bool)
        ensures { machine self.new ≡ marked marker marker_b (machine self.old) }
    {
        self.registers.marker = marker;
        self.registers.marker_b = marker_b;
    }

    pub fn set_start(&mut self, start: usize)
        ensures { machine self.new ≡ started start (machine self.old) }
    {
        self.registers.start = start;
    }

    // ---- the cursor

    // The point past what is shown there.
    pub fn point_after(&self) -> Point
        requires inside { self.now.cursor.point.index < vec_len self.now.note }
        requires line { self.now.cursor.point.line ≤ 1025 }
        requires column { self.now.cursor.point.column ≤ 4097 }
        requires vs { self.now.cursor.point.vs ≤ 3 }
        ensures { result ≡ moved self.now.note.items self.now.cursor.point }
    {
        let Point {
            line,
            column,
            index,
            vs,
        } = self.cursor.point;
        match self.note[index] {
            b'\n' | b'\r' => Point {
                line: line + 1,
                column: 1,
                index: index + 1,
                vs: 0,
            },
            b'\t' if column % TAB_SIZE != 0 => Point {
                line,
                column: column + 1,
                index,
                vs: vs + 1,
            },
            _ => Point {
                line,
                column: column + 1,
                index: index + 1,
                vs: 0,
            },
        }
    }

    // Moves past the byte shown. The end is never consumed.
    pub fn consume(&mut self)
        requires { Within (vec_len self.old.note) self.old.cursor }
        ensures { machine self.new ≡ consumed (machine self.old) }
    {
        if let Some(byte) = self.cursor.current {
            let point = self.point_after();
            self.cursor = Cursor {
                point,
                previous: Some(byte),
                current: None,
            };
        }
    }

    // Moves past the byte shown; `name` is to be called on what comes next.
    pub fn next(&mut self, name: StateName)
        requires { Within (vec_len self.old.note) self.old.cursor }
        ensures { machine self.new ≡ next name (machine self.old) }
    {
        self.consume();
        self.go(State::Next(name));
    }

    // ---- events

    // Whether a CR stands at `index`, and an LF follows.
    pub fn is_cr_before_lf(&self, index: usize) -> bool
        ensures { result ≡ crlf_at self.now.note.items index }
    {
        matches!(self.note.get(index), Some(b'\r'))
            && matches!(self.note.get(index + 1), Some(b'\n'))
    }

    // An event at the point; in front of a CR that was passed over.
    pub fn event_here(&self, kind: EventKind, name: Name) -> Event
        ensures { result ≡ event self.now.note.items kind name self.now.cursor.point }
    {
        let mut point = self.cursor.point;
        if point.index > 0 && self.is_cr_before_lf(point.index - 1) {
            point.index -= 1;
        }
        Event { kind, name, point }
    }

    pub fn enter(&mut self, name: Name)
        requires { SpanFits (machine self.old) }
        ensures { machine self.new ≡ entered name (machine self.old) }
    {
        let event = self.event_here(EventKind::Enter, name);
        self.events.push(event);
        self.names.push(name);
    }

    pub fn exit(&mut self, name: Name)
        requires { vec_len self.old.events.items < EVENTS_ROOM }
        ensures { machine self.new ≡ exited name (machine self.old) }
    {
        let event = self.event_here(EventKind::Exit, name);
        self.events.push(event);
        let _ = self.names.pop();
    }

    // ---- checks and attempts

    pub fn capture(&self) -> Progress
        ensures { result ≡ captured (machine self.now) }
    {
        Progress {
            cursor: self.cursor,
            events: self.events.items.len(),
            names: self.names.items.len(),
        }
    }

    // Kept: check and attempt are the Rust crate's; they share `put`, and differ in the kind and in what they capture.
    pub fn check(&mut self, ok: State, nok: State)
        requires { length (stack self.old.attempts) < ATTEMPTS_ROOM }
        ensures { machine self.new ≡ checked ok nok (machine self.old) }
    {
        let progress = Some(self.capture());
        self.attempts.put(Attempt {
            ok,
            nok,
            kind: AttemptKind::Check,
            progress,
        });
    }

    // What an attempt captures: nothing where it answers Nok with Nok, since what lies below puts back more.
    pub fn capture_for(&self, nok: State) -> Option<Progress>
        ensures { result ≡ kept_for nok (captured (machine self.now)) }
    {
        match nok {
            State::Nok => None,
            State::Next(_) | State::Retry(_) | State::Ok => Some(self.capture()),
        }
    }

    pub fn attempt(&mut self, ok: State, nok: State)
        requires { length (stack self.old.attempts) < ATTEMPTS_ROOM }
        ensures { machine self.new ≡ attempted ok nok (machine self.old) }
    {
        let progress = self.capture_for(nok);
        self.attempts.put(Attempt {
            ok,
            nok,
            kind: AttemptKind::Attempt,
            progress,
        });
    }
}

// ---- what begins a link, in one move each

impl Tokenizer {
    // Enters a protocol; tries its name and slashes, then the rest.
    pub fn begin_protocol(&mut self)
        requires span { SpanFits (machine self.old) }
        requires attempts { length (stack self.old.attempts) ≤ 3 }
        ensures { machine self.new ≡ protocol_begun (machine self.old) }
    {
        let index = self.cursor.point.index;
        self.enter(Name::Address(SpanKind::Protocol));
        self.attempt(State::Next(StateName::ProtocolAfter), State::Nok);
        self.attempt(State::Next(StateName::DomainInside), State::Nok);
        self.set_start(index);
    }

    // Enters a `www.` link; checks for `www.`, then tries the rest.
    pub fn begin_www(&mut self)
        requires span { SpanFits (machine self.old) }
        requires attempts { length (stack self.old.attempts) ≤ 3 }
        ensures { machine self.new ≡ www_begun (machine self.old) }
    {
        self.enter(Name::Address(SpanKind::Www));
        self.attempt(State::Next(StateName::WwwAfter), State::Nok);
        self.check(State::Next(StateName::DomainInside), State::Nok);
    }

    // Enters a span and moves past its first byte.
    pub fn enter_and_next(&mut self, name: Name, state: StateName)
        requires span { SpanFits (machine self.old) }
        requires within { Within (vec_len self.old.note) self.old.cursor }
        ensures { machine self.new ≡ next state (entered name (machine self.old)) }
    {
        self.enter(name);
        self.next(state);
    }
}
