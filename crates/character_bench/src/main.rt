// Reads the kinds of the characters of three texts. With an argument it also prints how many it reads in a second.
#![tactic(auto)]

use characters::char_indices::char_indices;
use punctuation::kinds::classify;
use punctuation::range_lists::house_set;
use punctuation::{CharacterKind, PunctuationSet};
use std::time::Instant;
use std::{env, io};

const TEXTS: [(&str, &str); 3] = [
    (
        "ASCII",
        "The clock chip of the pack: see www.clock.example/(rev-b). Ask stores first!\n",
    ),
    (
        "Latin",
        "Für Händler: Größe, Maß und Gerät prüfen — señal débil, câble coupé, pièce usée.\n",
    ),
    ("CJK", "時計のチップを交換してください。詳しくは倉庫に連絡。电池组的购买日期丢失。\n"),
];

// How often each text is read from each of its bytes on where the time is taken.
const ROUNDS: u64 = 5_000;

fn main(rt: HostRuntime) -> io::Result<()> {
    let timed = env::args(&rt)?.count() > 1;
    for (name, text) in TEXTS {
        let (characters, punctuation) = count_kinds(text.as_bytes(), &mut house_set());
        println!(rt; "{name}: {characters} characters, {punctuation} of them punctuation")?;
        if timed {
            let rate = measure_rate(&rt, text.as_bytes())?;
            println!(rt; "{name}: {rate} characters a second")?;
        }
    }
    Ok(())
}

// Each reading begins at another byte than the one before: the compiler reads a text that stays the same once.
fn measure_rate(rt: &HostRuntime, text: &[u8]) -> io::Result<u128> {
    let mut set = house_set();
    let mut read = 0u64;
    let start = Instant::now(rt)?;
    for _ in 0..ROUNDS {
        for from in 0..text.len() {
            let (characters, _) = count_kinds(&text[from..], &mut set);
            read = read.saturating_add(characters);
        }
    }
    let micros = start.elapsed(rt)?.as_micros().max(1);
    Ok(u128::from(read).saturating_mul(1_000_000) / micros)
}

// How many characters the text has, and how many of them are punctuation.
fn count_kinds<S: PunctuationSet>(text: &[u8], set: &mut S) -> (u64, u64) {
    let mut characters = 0u64;
    let mut punctuation = 0u64;
    for (_, c) in char_indices(text) {
        characters = characters.saturating_add(1);
        if classify(c, set) == CharacterKind::Punctuation {
            punctuation = punctuation.saturating_add(1);
        }
    }
    (characters, punctuation)
}
