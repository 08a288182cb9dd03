// Calls as values, so that any list of them can be made on a reader: specs/Steps says what each does.
use machine::Ran;

#[derive(Clone, Copy)]
pub enum Call<'a> {
    Load(&'a [u8]),
    Push { to: usize, allowance: u64 },
    End { allowance: u64 },
    Link { first: usize, last: usize },
    Resolve,
    Clear,
}

// What an accepted call answers: a push and an end, how they ran; the others, no more than that they are accepted.
pub type Reply = Option<Ran>;
