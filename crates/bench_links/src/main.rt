//! Takes the words of `words.bin`, a terminal in each byte, over the grammar sheet `grammar.bin`, and shows how many links they have.
#![tactic(auto)]

use built_states::BuiltStates;
use grammar::Grammar;
use links::Links;
use std::{fs, io};

/// Takes the words until one is refused.
fn take_all(states: &BuiltStates, words: &[u8]) -> Links {
    let mut links = Links::new();
    if links.open(states, 4096).is_err() {
        return links;
    }
    for word in words {
        if links.take(states, usize::from(*word), 4096).is_err() {
            return links;
        }
    }
    links
}

/// The links of the words over the sheet, or why there are none.
fn links_of(sheet: &[u8], words: &[u8]) -> Result<Links, &'static str> {
    let grammar = Grammar::read(sheet).map_err(|_| "no grammar")?;
    let states = BuiltStates::build(&grammar).map_err(|_| "too many states")?;
    Ok(take_all(&states, words))
}

fn run(rt: &HostRuntime) -> io::Result<()> {
    let sheet = fs::read(rt, "grammar.bin")?;
    let words = fs::read(rt, "words.bin")?;
    match links_of(sheet.as_slice(), words.as_slice()) {
        Ok(links) => println!(rt; "words {} links {}", links.words(), links.count()),
        Err(why) => println!(rt; "{why}"),
    }
}

fn main(rt: HostRuntime) -> io::Result<()> {
    run(&rt)
}
