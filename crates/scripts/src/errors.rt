// Why a script cannot be read.
ghost use Rattle.std.specs.Prelude.{◌≡◌, Some};
ghost use Rattle.scripts.specs.declared.errors.ScriptError.{ScriptError};
ghost use Rattle.scripts.specs.declared.errors.LineError.{LineError};
ghost use Rattle.scripts.specs.Errors.{script_error};
ghost use Rattle.scripts.specs.Shown.{expected_shown, script_error_shown};

use std::alloc::{AllocError, AllocFailed};
use std::fmt;

// What would have to stand where a line cannot be read.
#[derive(Clone, Copy, PartialEq, Eq, Debug)]
pub enum Expected {
    Keyword,
    Number,
    Text,
    ClosingQuote,
    Escape,
    EndOfLine,
}

impl fmt::Display for Expected {
    ghost output = { λ expected. Some (expected_shown expected) };

    fn fmt<W: fmt::Write>(&self, f: &mut fmt::Formatter<W>) -> fmt::Result {
        f.write_str(match self {
            Expected::Keyword => "load, push, end, link, resolve, clear or events",
            Expected::Number => "a decimal number below 2^64",
            Expected::Text => "a text in double quotes",
            Expected::ClosingQuote => "a closing quote",
            Expected::Escape =>
                "an escape: \\\", \\\\, \\n, \\r, \\t or \\x and two hexadecimal digits",
            Expected::EndOfLine => "the end of the line",
        })
    }
}

// Why one line cannot be read.
#[derive(Clone, Copy, PartialEq, Eq, Debug)]
pub enum LineError {
    Expected(Expected),
    OutOfMemory,
}

impl From<Expected> for LineError {
    ghost from_gives = { λ expected error. error ≡ LineError.Expected expected };

    fn from(expected: Expected) -> LineError {
        LineError::Expected(expected)
    }
}

impl From<AllocError> for LineError {
    ghost from_gives = { λ _ error. error ≡ LineError.OutOfMemory };

    fn from(_error: AllocError) -> LineError {
        LineError::OutOfMemory
    }
}

impl<T: Drop> From<AllocFailed<T>> for LineError {
    ghost from_gives = { λ _ error. error ≡ LineError.OutOfMemory };

    fn from(_error: AllocFailed<T>) -> LineError {
        LineError::OutOfMemory
    }
}

impl LineError {
    // Of the line with this number.
    pub fn at(self, line: usize) -> ScriptError
        ensures { result ≡ script_error line self }
    {
        match self {
            LineError::Expected(expected) => ScriptError::Unreadable { line, expected },
            LineError::OutOfMemory => ScriptError::OutOfMemory,
        }
    }
}

// Why a script cannot be read: the first line, from 1, that cannot be.
#[derive(Clone, Copy, PartialEq, Eq, Debug)]
pub enum ScriptError {
    Unreadable { line: usize, expected: Expected },
    OutOfMemory,
}

impl fmt::Display for ScriptError {
    ghost output = { λ error. Some (script_error_shown error) };

    fn fmt<W: fmt::Write>(&self, f: &mut fmt::Formatter<W>) -> fmt::Result {
        match self {
            ScriptError::Unreadable { line, expected } => {
                write!(f, "line {line}: expected {expected}")
            }
            ScriptError::OutOfMemory => f.write_str("out of memory"),
        }
    }
}

impl From<AllocError> for ScriptError {
    ghost from_gives = { λ _ error. error ≡ ScriptError.OutOfMemory };

    fn from(_error: AllocError) -> ScriptError {
        ScriptError::OutOfMemory
    }
}

impl<T: Drop> From<AllocFailed<T>> for ScriptError {
    ghost from_gives = { λ _ error. error ≡ ScriptError.OutOfMemory };

    fn from(_error: AllocFailed<T>) -> ScriptError {
        ScriptError::OutOfMemory
    }
}
