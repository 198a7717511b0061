//! Grammar sheets, and the links of words over them.
use built_states::BuiltStates;
use grammar::Grammar;
use link_growth::Link;
use links::Links;
use std::test::Fail;

/// list -> list list list | list list | b
pub static W: [u8; 51] = *b"\
    \x00\x33\x00\x02\x00\x02\x00\x04\x00\x0c\x00\x30\
    \x02\x01\x03\xff\xff\xff\xff\xff\xff\
    \x03\x03\x03\x03\x03\xff\xff\xff\xff\
    \x03\x02\x03\x03\xff\xff\xff\xff\xff\
    \x03\x01\x01\xff\xff\xff\xff\xff\xff\
    \x00\
    \x01b";

/// list -> front list b | b, where front -> maybe and maybe -> nothing | c: a left recursion that is hidden behind nothing.
pub static H: [u8; 71] = *b"\
    \x00\x47\x00\x03\x00\x04\x00\x06\x00\x0c\x00\x42\
    \x03\x01\x04\xff\xff\xff\xff\xff\xff\
    \x04\x03\x05\x04\x01\xff\xff\xff\xff\
    \x04\x01\x01\xff\xff\xff\xff\xff\xff\
    \x05\x01\x06\xff\xff\xff\xff\xff\xff\
    \x06\x00\xff\xff\xff\xff\xff\xff\xff\
    \x06\x01\x02\xff\xff\xff\xff\xff\xff\
    \x00\
    \x01b\
    \x01c";

/// list -> list b | b
pub static L: [u8; 42] = *b"\
    \x00\x2a\x00\x02\x00\x02\x00\x03\x00\x0c\x00\x27\
    \x02\x01\x03\xff\xff\xff\xff\xff\xff\
    \x03\x02\x03\x01\xff\xff\xff\xff\xff\
    \x03\x01\x01\xff\xff\xff\xff\xff\xff\
    \x00\
    \x01b";

/// The states of a sheet.
pub fn states(sheet: &[u8]) -> Result<BuiltStates, Fail> {
    let grammar = Grammar::read(sheet)?;
    Ok(BuiltStates::build(&grammar)?)
}

/// The links of the words, each of which is taken.
pub fn links_of(states: &BuiltStates, words: &[usize]) -> Result<Links, Fail> {
    let mut links = Links::new();
    links.open(states, 4096)?;
    for word in words {
        links.take(states, *word, 4096)?;
    }
    Ok(links)
}

// Stands in `forest_cases` too: the sample sheets know no links.
/// A state at a place, on a state at a place below.
pub fn link(state: u8, place: u8, below: u8, below_place: u8) -> Link {
    Link {
        state,
        place,
        below,
        below_place,
    }
}
