// The words of a line.
ghost use Rattle.std.specs.Prelude.{◌≡◌, ◌≤◌, length, Some};
ghost use Rattle.std.specs.Char.{is_ascii_whitespace};
ghost use Rattle.std.specs.List.{prefix_len};
ghost use Rattle.scripts.specs.Words.{is_in_word, skip_space, word, behind_word, digit_more, number_of, ended, IsNumberInFront};

use crate::errors::Expected;

// The next word of a text, and what stands behind it.
pub fn next_word(text: &[u8]) -> (&[u8], &[u8])
    ensures word { result.0.now ≡ word (skip_space text.now) }
    ensures rest { result.1.now ≡ behind_word (skip_space text.now) }
{
    let text = skip_space(text);
    text.split_at(word_length(text))
}

fn skip_space(text: &[u8]) -> &[u8]
    ensures { result.now ≡ skip_space text.now }
{
    &text[space_length(text)..]
}

// How many bytes of white space stand in front.
fn space_length(text: &[u8]) -> usize
    ensures length { result ≡ prefix_len is_ascii_whitespace text.now }
    ensures fits { result ≤ length text.now }
{
    text.iter()
        .take_while(|byte| byte.is_ascii_whitespace())
        .count()
}

// How many other bytes do.
fn word_length(text: &[u8]) -> usize
    ensures length { result ≡ prefix_len is_in_word text.now }
    ensures fits { result ≤ length text.now }
{
    text.iter()
        .take_while(|byte| !byte.is_ascii_whitespace())
        .count()
}

// The number that the next word is, and what stands behind it.
pub fn next_number(text: &[u8]) -> Result<(u64, &[u8]), Expected>
    ensures { IsNumberInFront text.now result }
{
    let (word, rest) = next_word(text);
    let number = parse_number(word).ok_or(Expected::Number)?;
    Ok((number, rest))
}

#[tactic(auto, using(crate::proofs::Numbers::none_stays))]
fn parse_number(word: &[u8]) -> Option<u64>
    ensures { result ≡ number_of word.now }
{
    if word.is_empty() {
        return None;
    }
    let mut number = 0;
    for digit in word {
        number = push_digit(number, *digit)?;
    }
    Some(number)
}

fn push_digit(number: u64, digit: u8) -> Option<u64>
    ensures { result ≡ digit_more (Some number) digit }
{
    if !digit.is_ascii_digit() {
        return None;
    }
    number.checked_mul(10)?.checked_add(u64::from(digit - b'0'))
}

// Only white space is left.
pub fn check_end(text: &[u8]) -> Result<(), Expected>
    ensures { result ≡ ended text.now }
{
    if !skip_space(text).is_empty() {
        return Err(Expected::EndOfLine);
    }
    Ok(())
}
