// The words that lines begin with.
ghost use Rattle.std.specs.Prelude.{◌≡◌};
ghost use Rattle.scripts.specs.Keywords.{keyword_of};

use crate::errors::Expected;

#[derive(Clone, Copy)]
pub enum Keyword {
    Load,
    Push,
    End,
    Link,
    Resolve,
    Clear,
    Events,
}

pub fn parse_keyword(word: &[u8]) -> Result<Keyword, Expected>
    ensures { result ≡ keyword_of word.now }
{
    match word {
        b"load" => Ok(Keyword::Load),
        b"push" => Ok(Keyword::Push),
        b"end" => Ok(Keyword::End),
        b"link" => Ok(Keyword::Link),
        b"resolve" => Ok(Keyword::Resolve),
        b"clear" => Ok(Keyword::Clear),
        b"events" => Ok(Keyword::Events),
        _ => Err(Expected::Keyword),
    }
}
