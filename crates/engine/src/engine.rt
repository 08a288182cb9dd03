// A tokenizer, and the set that it asks about characters from 128 up.
use tokenizer::Tokenizer;

#[derive(Drop)]
pub struct Engine<S> {
    pub tokenizer: Tokenizer,
    pub set: S,
}
