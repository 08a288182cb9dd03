// The states. Their names are those of the Rust functions; docs/ENGINE.md, sections 6 and 7, has a row for each arm.
ghost use Rattle.std.specs.Prelude.{◌≡◌, true, if◌then◌else◌, vec_len};
ghost use Rattle.punctuation.specs.Kinds.{kind_at};
ghost use Rattle.machine.specs.declared.states.State.TheVariants.{Next, Retry, Ok, Nok};
ghost use Rattle.machine.specs.declared.states.StateName.TheVariants.{Before, Data, DomainInside, DomainAfter, PathInside, PathAfter, Trail};
ghost use Rattle.machine.specs.Moves.{with_state, next, saw, sized, exited, checked, attempted};
ghost use Rattle.machine.specs.States.{call, is_other, is_white_space, kind_here};
ghost use Rattle.tokenizer.specs.Bounds.{Within, Callable};
ghost use Rattle.tokenizer.specs.View.{machine};

use crate::bytes::{is_after_letter, may_end_path, may_precede_www};
use crate::engine::Engine;
use characters::utf8::char_at;
use machine::{Name, State, StateName};
use punctuation::kinds::{CharacterKind, classify};
use punctuation::sets::PunctuationSet;
use text::SpanKind;
use tokenizer::Tokenizer;

// ---- what several states do

// Tries the address that `start` begins with: where it is none, its first byte is data.
fn try_address(tokenizer: &mut Tokenizer, start: StateName)
    requires { Callable (machine tokenizer.old) }
    ensures { machine tokenizer.new ≡ with_state (Retry start) (attempted (Next Before) (Next Data) (machine tokenizer.old)) }
{
    tokenizer.attempt(State::Next(StateName::Before), State::Next(StateName::Data));
    tokenizer.go(State::Retry(start));
}

// Looks whether a trail follows: `ok` is next where it does, and else `nok`.
fn look_for_trail(tokenizer: &mut Tokenizer, ok: StateName, nok: StateName)
    requires { Callable (machine tokenizer.old) }
    ensures { machine tokenizer.new ≡ with_state (Retry Trail) (checked (Next ok) (Next nok) (machine tokenizer.old)) }
{
    tokenizer.check(State::Next(ok), State::Next(nok));
    tokenizer.go(State::Retry(StateName::Trail));
}

// Ends the span of this name.
fn leave(tokenizer: &mut Tokenizer, name: Name, state: State)
    requires { Callable (machine tokenizer.old) }
    ensures { machine tokenizer.new ≡ with_state state (exited name (machine tokenizer.old)) }
{
    tokenizer.exit(name);
    tokenizer.go(state);
}

// Passes the byte shown, with another size.
fn next_with_size(tokenizer: &mut Tokenizer, name: StateName, size: usize)
    requires { Callable (machine tokenizer.old) }
    ensures { machine tokenizer.new ≡ next name (sized size (machine tokenizer.old)) }
{
    tokenizer.next(name);
    tokenizer.set_size(size);
}

// Gives up, and puts the size back.
fn give_up(tokenizer: &mut Tokenizer)
    ensures { machine tokenizer.new ≡ with_state Nok (sized 0 (machine tokenizer.old)) }
{
    tokenizer.set_size(0);
    tokenizer.go(State::Nok);
}

impl<S: PunctuationSet> Engine<S> {
    // The kind of the character at the point.
    pub fn kind(&mut self) -> CharacterKind
        ensures kind { result ≡ kind_at (S.member self.old.set) self.old.tokenizer.note.items self.old.tokenizer.cursor.point.index }
        ensures meaning_stays { S.member self.new.set ≡ S.member self.old.set }
        ensures tokenizer_stays { self.new.tokenizer ≡ self.old.tokenizer }
    {
        let index = self.tokenizer.cursor.point.index;
        // Kept: most characters are ASCII, with nothing to decode; without this branch, reading takes 8 in a hundred longer.
        if let Some(byte) = self.tokenizer.note.get(index)
            && byte.is_ascii()
        {
            return classify(char::from(*byte), &mut self.set);
        }
        // Kept: no call of kind_after_index, tried: the check does not cover lending the note and the set of one engine at once.
        match char_at(self.tokenizer.note.as_slice(), index) {
            None => CharacterKind::Whitespace,
            Some(c) => classify(c, &mut self.set),
        }
    }

    // In a domain, at none of its joints: an Other character goes on with it.
    fn domain_by_kind(&mut self)
        requires { Within (vec_len self.old.tokenizer.note) self.old.tokenizer.cursor }
        ensures goes { machine self.new.tokenizer ≡ (if is_other (kind_here (S.member self.old.set) (machine self.old.tokenizer)) then next DomainInside (saw true (machine self.old.tokenizer)) else with_state (Retry DomainAfter) (machine self.old.tokenizer)) }
        ensures meaning_stays { S.member self.new.set ≡ S.member self.old.set }
    {
        match self.kind() {
            CharacterKind::Other => {
                self.tokenizer.next(StateName::DomainInside);
                self.tokenizer.set_seen(true);
            }
            CharacterKind::Whitespace | CharacterKind::Punctuation => {
                self.tokenizer.go(State::Retry(StateName::DomainAfter));
            }
        }
    }

    // In a path, at a byte that no trail begins with: white space ends it.
    fn path_by_kind(&mut self)
        requires { Within (vec_len self.old.tokenizer.note) self.old.tokenizer.cursor }
        ensures goes { machine self.new.tokenizer ≡ (if is_white_space (kind_here (S.member self.old.set) (machine self.old.tokenizer)) then with_state (Retry PathAfter) (machine self.old.tokenizer) else next PathInside (machine self.old.tokenizer)) }
        ensures meaning_stays { S.member self.new.set ≡ S.member self.old.set }
    {
        match self.kind() {
            CharacterKind::Whitespace => self.tokenizer.go(State::Retry(StateName::PathAfter)),
            CharacterKind::Punctuation | CharacterKind::Other => self
                .tokenizer
                .next(StateName::PathInside),
        }
    }

    // In a trail, at no item: white space stops it.
    fn trail_by_kind(&mut self)
        ensures goes { machine self.new.tokenizer ≡ (if is_white_space (kind_here (S.member self.old.set) (machine self.old.tokenizer)) then with_state Ok (machine self.old.tokenizer) else with_state Nok (machine self.old.tokenizer)) }
        ensures meaning_stays { S.member self.new.set ≡ S.member self.old.set }
    {
        match self.kind() {
            CharacterKind::Whitespace => self.tokenizer.go(State::Ok),
            CharacterKind::Punctuation | CharacterKind::Other => self.tokenizer.go(State::Nok),
        }
    }

    // Calls a state: what it does is decided by its name and the byte shown.
    // Kept: one match on state and shown byte together is the form of the dispatcher.
    pub fn call(&mut self, name: StateName)
        requires { Callable (machine self.old.tokenizer) }
        ensures called { machine self.new.tokenizer ≡ call (S.member self.old.set) name (machine self.old.tokenizer) }
        ensures meaning_stays { S.member self.new.set ≡ S.member self.old.set }
    {
        match (name, self.tokenizer.cursor.current) {
            // ---- text
            (StateName::Before, None) => self.tokenizer.go(State::Ok),
            (StateName::Before, Some(b'H' | b'h')) => {
                try_address(&mut self.tokenizer, StateName::ProtocolStart);
            }
            (StateName::Before, Some(b'W' | b'w')) => {
                try_address(&mut self.tokenizer, StateName::WwwStart);
            }
            (StateName::Before, Some(b'\n')) => {
                self.tokenizer
                    .enter_and_next(Name::LineEnding, StateName::Line);
            }
            (StateName::Before, Some(_)) => self.tokenizer.go(State::Retry(StateName::Data)),
            (StateName::Line, _) => {
                leave(
                    &mut self.tokenizer,
                    Name::LineEnding,
                    State::Retry(StateName::Before),
                );
            }
            (StateName::Data, _) => self.tokenizer.enter_and_next(Name::Data, StateName::Inside),
            (StateName::Inside, None | Some(b'\n' | b'H' | b'h' | b'W' | b'w')) => {
                leave(
                    &mut self.tokenizer,
                    Name::Data,
                    State::Retry(StateName::Before),
                );
            }
            (StateName::Inside, Some(_)) => self.tokenizer.next(StateName::Inside),
            // ---- protocols
            (StateName::ProtocolStart, Some(b'H' | b'h')) => {
                if is_after_letter(self.tokenizer.cursor.previous) {
                    self.tokenizer.go(State::Nok);
                } else {
                    self.tokenizer.begin_protocol();
                    self.tokenizer
                        .go(State::Retry(StateName::ProtocolPrefixInside));
                }
            }
            (StateName::ProtocolStart, _) => self.tokenizer.go(State::Nok),
            (StateName::ProtocolPrefixInside, Some(b'A'..=b'Z' | b'a'..=b'z'))
                if self.tokenizer.name_length() < 5 => {
                self.tokenizer.next(StateName::ProtocolPrefixInside);
            }
            (StateName::ProtocolPrefixInside, Some(b':')) if self.tokenizer.is_protocol_read() => {
                self.tokenizer.next(StateName::ProtocolSlashesInside);
                self.tokenizer.set_start(0);
            }
            (StateName::ProtocolPrefixInside, _) => {
                self.tokenizer.set_start(0);
                self.tokenizer.go(State::Nok);
            }
            (StateName::ProtocolSlashesInside, Some(b'/')) if self.tokenizer.registers.size == 0 =>
                {
                    next_with_size(&mut self.tokenizer, StateName::ProtocolSlashesInside, 1);
                }
            (StateName::ProtocolSlashesInside, Some(b'/')) => {
                self.tokenizer.consume();
                self.tokenizer.set_size(0);
                self.tokenizer.go(State::Ok);
            }
            (StateName::ProtocolSlashesInside, _) => {
                give_up(&mut self.tokenizer);
            }
            (StateName::ProtocolAfter, _) => {
                leave(
                    &mut self.tokenizer,
                    Name::Address(SpanKind::Protocol),
                    State::Ok,
                );
            }
            // ---- www
            (StateName::WwwStart, Some(b'W' | b'w')) => {
                if may_precede_www(self.tokenizer.cursor.previous) {
                    self.tokenizer.begin_www();
                    self.tokenizer.go(State::Retry(StateName::WwwPrefixInside));
                } else {
                    self.tokenizer.go(State::Nok);
                }
            }
            (StateName::WwwStart, _) => self.tokenizer.go(State::Nok),
            (StateName::WwwPrefixInside, Some(b'.')) if self.tokenizer.registers.size == 3 => {
                next_with_size(&mut self.tokenizer, StateName::WwwPrefixAfter, 0);
            }
            (StateName::WwwPrefixInside, Some(b'W' | b'w')) if self.tokenizer.registers.size < 3 =>
                {
                    let size = self.tokenizer.registers.size + 1;
                    next_with_size(&mut self.tokenizer, StateName::WwwPrefixInside, size);
                }
            (StateName::WwwPrefixInside, _) => {
                give_up(&mut self.tokenizer);
            }
            (StateName::WwwPrefixAfter, None) => self.tokenizer.go(State::Nok),
            (StateName::WwwPrefixAfter, Some(_)) => self.tokenizer.go(State::Ok),
            (StateName::WwwAfter, _) => {
                leave(&mut self.tokenizer, Name::Address(SpanKind::Www), State::Ok);
            }
            // ---- domains
            (StateName::DomainInside, Some(b'.' | b'_')) => {
                look_for_trail(
                    &mut self.tokenizer,
                    StateName::DomainAfter,
                    StateName::DomainAtPunctuation,
                );
            }
            (StateName::DomainInside, Some(b'-' | 0x80..=0xBF)) => self
                .tokenizer
                .next(StateName::DomainInside),
            (StateName::DomainInside, _) => self.domain_by_kind(),
            (StateName::DomainAtPunctuation, Some(b'_')) => {
                let marker_b = self.tokenizer.registers.marker_b;
                self.tokenizer.next(StateName::DomainInside);
                self.tokenizer.set_markers(true, marker_b);
            }
            (StateName::DomainAtPunctuation, _) => {
                let marker = self.tokenizer.registers.marker;
                self.tokenizer.next(StateName::DomainInside);
                self.tokenizer.set_markers(false, marker);
            }
            (StateName::DomainAfter, _) => self.tokenizer.leave_domain(),
            // ---- paths
            (StateName::PathInside, Some(0x80..=0xBF)) => self
                .tokenizer
                .next(StateName::PathInside),
            (StateName::PathInside, Some(b'(')) => {
                let size = self.tokenizer.registers.size + 1;
                next_with_size(&mut self.tokenizer, StateName::PathInside, size);
            }
            (StateName::PathInside, Some(b')')) if self.tokenizer.is_unclosed() => {
                look_for_trail(
                    &mut self.tokenizer,
                    StateName::PathAtPunctuation,
                    StateName::PathAtPunctuation,
                );
            }
            (StateName::PathInside, Some(byte)) if may_end_path(byte) => {
                look_for_trail(
                    &mut self.tokenizer,
                    StateName::PathAfter,
                    StateName::PathAtPunctuation,
                );
            }
            (StateName::PathInside, None) => self.tokenizer.go(State::Retry(StateName::PathAfter)),
            (StateName::PathInside, Some(_)) => self.path_by_kind(),
            (StateName::PathAtPunctuation, Some(b')')) => {
                let size_b = self.tokenizer.registers.size_b + 1;
                self.tokenizer.next(StateName::PathInside);
                self.tokenizer.set_size_b(size_b);
            }
            (StateName::PathAtPunctuation, _) => self.tokenizer.next(StateName::PathInside),
            (StateName::PathAfter, _) => self.tokenizer.leave_path(),
            // ---- trails
            (StateName::Trail, Some(b')')) if self.tokenizer.is_unclosed() => self
                .tokenizer
                .go(State::Nok),
            (
                StateName::Trail,
                Some(
                    b'!'
                    | b'"'
                    | b'\''
                    | b')'
                    | b'*'
                    | b','
                    | b'.'
                    | b':'
                    | b';'
                    | b'?'
                    | b'_'
                    | b'~',
                ),
            ) => {
                self.tokenizer.next(StateName::Trail);
            }
            (StateName::Trail, Some(b'&')) => self.tokenizer.next(StateName::TrailCharRefStart),
            (StateName::Trail, Some(b'<')) => self.tokenizer.go(State::Ok),
            (StateName::Trail, Some(b']')) => self.tokenizer.next(StateName::TrailBracketAfter),
            (StateName::Trail, _) => self.trail_by_kind(),
            (StateName::TrailBracketAfter, None | Some(b'\t' | b'\n' | b' ' | b'(' | b'[')) => {
                self.tokenizer.go(State::Ok);
            }
            (StateName::TrailBracketAfter, Some(_)) => self
                .tokenizer
                .go(State::Retry(StateName::Trail)),
            (StateName::TrailCharRefStart, Some(b'A'..=b'Z' | b'a'..=b'z')) => {
                self.tokenizer
                    .go(State::Retry(StateName::TrailCharRefInside));
            }
            (StateName::TrailCharRefStart, _) => self.tokenizer.go(State::Nok),
            (StateName::TrailCharRefInside, Some(b'A'..=b'Z' | b'a'..=b'z')) => {
                self.tokenizer.next(StateName::TrailCharRefInside);
            }
            (StateName::TrailCharRefInside, Some(b';')) => self.tokenizer.next(StateName::Trail),
            (StateName::TrailCharRefInside, _) => self.tokenizer.go(State::Nok),
        }
    }
}
