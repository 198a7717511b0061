//! How many states there may be: 255 are built, written and pass, and one more is refused.
use crate::answers::{Refused, answer};
use built_states::BuiltStates;
use grammar::Grammar;
use sample_sheets::CHAINS;
use states::StateSource;
use std::test::Fail;

/// The sheet with a rule cut to this length.
fn cut(mut sheet: [u8; 499], rule: usize, length: u8) -> [u8; 499] {
    if rule <= 40 {
        let at = 12 + 9 * rule;
        sheet[at + 1] = length;
        sheet[at + 2 + usize::from(length.min(7))..at + 9].fill(255);
    }
    sheet
}

/// The forty chains with the last four cut: the first of them to this length, and the others to nothing.
fn cut_chains(length: u8) -> [u8; 499] {
    let sheet = cut(cut(CHAINS, 38, 0), 39, 0);
    cut(cut(sheet, 40, 0), 37, length)
}

/// The states of a grammar sheet: how many are built, or why none.
fn built(sheet: &[u8]) -> Result<Result<u8, Refused>, Fail> {
    let grammar = Grammar::read(sheet)?;
    Ok(
        BuiltStates::build(&grammar)
            .map(|states| states.states())
            .map_err(|fault| fault.into()),
    )
}

#[test]
fn more_than_255_states_are_refused(rt: HostRuntime) -> Result<(), Fail> {
    assert_eq!(rt; built(&CHAINS)?, Err(Refused(30, 0, 0)));
    assert_eq!(rt; built(&cut_chains(2))?, Err(Refused(30, 0, 0)));
    assert_eq!(rt; built(&cut_chains(1))?, Ok(255));
    assert_eq!(rt; built(&cut_chains(0))?, Ok(254));
    Ok(())
}

#[test]
fn the_longest_tables_pass(rt: HostRuntime) -> Result<(), Fail> {
    let grammar = Grammar::read(&cut_chains(1))?;
    let mut room = [0; 32652];
    let length = BuiltStates::build(&grammar)?.write(&mut room)?;
    assert!(rt; length <= 32652);
    assert_eq!(rt; length, 12 + 255 * (42 + 41));
    assert_eq!(rt; answer(&grammar, &room[0..length]), Ok(()));
    Ok(())
}
