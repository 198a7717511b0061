//! The states of sheets.
use built_states::BuiltStates;
use grammar::Grammar;
use reader::Reading;
use std::test::Fail;

/// list -> list b | b, where b is the terminal 1: as many words as a reading keeps have few links.
pub static L: [u8; 42] = *b"\
    \x00\x2a\x00\x02\x00\x02\x00\x03\x00\x0c\x00\x27\
    \x02\x01\x03\xff\xff\xff\xff\xff\xff\
    \x03\x02\x03\x01\xff\xff\xff\xff\xff\
    \x03\x01\x01\xff\xff\xff\xff\xff\xff\
    \x00\
    \x01b";

/// The grammar of a sheet.
pub fn grammar_of(sheet: &[u8]) -> Result<Grammar, Fail> {
    Grammar::read(sheet).map_err(|_| Fail::new("the sheet is refused"))
}

/// The states that are built from a grammar.
pub fn states_of(grammar: &Grammar) -> Result<BuiltStates, Fail> {
    BuiltStates::build(grammar).map_err(|_| Fail::new("there are too many states"))
}

/// A reading that is open with the highest limit, and has taken these words.
pub fn reading_of(sheet: &[u8], words: &[usize]) -> Result<Reading<BuiltStates>, Fail> {
    let mut reading = Reading::new(states_of(&grammar_of(sheet)?)?);
    reading.open(4096)?;
    for word in words {
        reading.take(*word)?;
    }
    Ok(reading)
}
