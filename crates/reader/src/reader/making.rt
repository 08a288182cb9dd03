// A new reader.
ghost use Rattle.std.specs.Prelude.{◌≡◌, IfOk};
ghost use Rattle.calls.specs.Calls.{new};
ghost use Rattle.reader.specs.View.{set_of, view};

use super::Reader;
use calls::Phase;
use engine::Engine;
use punctuation::sets::PunctuationSet;
use resolving::Resolver;
use std::alloc::{AllocError, Global};
use tokenizer::Tokenizer;
use tokenizer::table::Table;

impl<S: PunctuationSet + Drop> Reader<S> {
    // Reserves all memory that the reader will ever have: no other call allocates.
    pub fn new(heap: Global, set: S) -> Result<Reader<S>, AllocError>
        ensures new { IfOk result (λ reader. view reader ≡ new) }
        ensures set { IfOk result (λ reader. set_of reader ≡ set) }
    {
        let tokenizer = Tokenizer::new(heap)?;
        let links = Table::new(heap)?;
        let resolver = Resolver::new(heap)?;
        Ok(Reader {
            engine: Engine { tokenizer, set },
            phase: Phase::Empty,
            mark: 0,
            paused: false,
            links,
            resolver,
        })
    }
}
