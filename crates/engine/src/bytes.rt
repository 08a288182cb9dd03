// Classes of bytes that states tell apart: docs/ENGINE.md, section 7.
ghost use Rattle.std.specs.Prelude.{◌≡◌};
ghost use Rattle.text.specs.Ascii.{letter};
ghost use Rattle.machine.specs.States.{on, may_precede_www, may_end_path};

// What may stand before `www.`.
pub fn may_precede_www(previous: Option<u8>) -> bool
    ensures { result ≡ may_precede_www previous }
{
    matches!(
        previous,
        None | Some(b'\t' | b'\n' | b' ' | b'(' | b'*' | b'_' | b'[' | b']' | b'~')
    )
}

pub fn is_after_letter(previous: Option<u8>) -> bool
    ensures { result ≡ on letter previous }
{
    previous.is_some_and(|byte| byte.is_ascii_alphabetic())
}

// At these a trail may end a path.
pub fn may_end_path(byte: u8) -> bool
    ensures { result ≡ may_end_path byte }
{
    matches!(
        byte,
        b'!' | b'"'
            | b'&'
            | b'\''
            | b')'
            | b'*'
            | b','
            | b'.'
            | b':'
            | b';'
            | b'<'
            | b'?'
            | b']'
            | b'_'
            | b'~'
    )
}
