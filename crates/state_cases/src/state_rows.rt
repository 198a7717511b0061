//! The rows, steps and done marks of two small grammars, and of the table of one of them.
use built_states::BuiltStates;
use grammar::Grammar;
use rows::Row;
use sample_sheets::{P, P_TABLE, Q};
use states::StateSource;
use std::process::Abort;
use std::test::Fail;
use tables::Table;

/// The rows of P: for each state the bytes of its rules, bit d of byte r for the item (r, d).
static P_ROWS: [&[u8]; 6] = [
    &[1, 1, 1],
    &[0, 2, 0],
    &[2, 0, 2],
    &[0, 4, 0],
    &[0, 1, 5],
    &[0, 0, 10],
];

// 255 for none, as in the sheet: so the rows stay short.
/// The steps of P: for each state the target by each symbol.
static P_STEPS: [[u8; 5]; 6] = [
    [1, 255, 255, 255, 2],
    [255, 3, 255, 255, 255],
    [255, 255, 4, 255, 255],
    [255, 255, 255, 255, 255],
    [1, 255, 255, 255, 5],
    [255, 255, 4, 255, 255],
];

/// The rules that are done in the states of P.
static P_DONE: [Option<u8>; 6] = [None, None, Some(0), Some(1), None, Some(2)];

/// The rows of Q.
static Q_ROWS: [&[u8]; 4] = [&[1, 1, 1, 1], &[0, 0, 2, 0], &[2, 3, 1, 1], &[0, 7, 1, 1]];

/// The rows of the states have exactly the items that the bytes of their rules say.
fn check_rows<F: Fn(u8) -> Option<Row>>(
    rt: &impl Abort,
    row_of: F,
    rows: &[&[u8]],
) -> Result<(), Fail>
    requires { F.IsAlwaysCallable row_of }
{
    for (state, bytes) in rows.iter().enumerate() {
        let state = u8::try_from(state).map_err(|_| "too many states")?;
        let row = row_of(state).ok_or("no such state")?;
        check_row(rt, state, &row, bytes);
    }
    Ok(())
}

/// The row has exactly the items that the bytes of the rules say.
fn check_row(rt: &impl Abort, state: u8, row: &Row, bytes: &[u8]) {
    for rule in 0..64 {
        let byte = bytes.get(rule).copied().unwrap_or(0);
        for dot in 0..8u8 {
            assert_eq!(rt;
                row.holds(rule, usize::from(dot)),
                (byte >> dot) & 1 == 1,
                "rule {rule} of state {state}"
            );
        }
    }
}

/// The source answers the steps and the done marks of P, and nothing outside the ranges.
fn check_source<S: StateSource>(rt: &impl Abort, source: &S) {
    assert_eq!(rt; source.states(), 6);
    assert_eq!(rt; source.first(), 0);
    for state in 0..255u8 {
        for symbol in 0..255u8 {
            let expected = P_STEPS
                .get(usize::from(state))
                .and_then(|steps| steps.get(usize::from(symbol)))
                .copied()
                .filter(|target| *target != 255);
            assert_eq!(rt; source.next(state, symbol), expected, "{state}; {symbol}");
            let done = P_DONE.get(usize::from(state)).copied().flatten();
            assert_eq!(rt;
                source.done(state, symbol),
                done == Some(symbol),
                "{state}; {symbol}"
            );
        }
    }
}

#[test]
fn built_states_of_p(rt: HostRuntime) -> Result<(), Fail> {
    let built = BuiltStates::build(&Grammar::read(&P)?)?;
    check_rows(&rt, |state| built.row(state), &P_ROWS)?;
    assert!(rt; built.row(6).is_none());
    check_source(&rt, &built);
    Ok(())
}

// Not one function with `built_states_of_p`: `row` is no question of a source.
#[test]
fn table_of_p(rt: HostRuntime) -> Result<(), Fail> {
    let table = Table::check(&Grammar::read(&P)?, &P_TABLE)?;
    check_rows(&rt, |state| table.row(state), &P_ROWS)?;
    assert!(rt; table.row(6).is_none());
    check_source(&rt, &table);
    Ok(())
}

#[test]
fn built_states_of_q(rt: HostRuntime) -> Result<(), Fail> {
    let built = BuiltStates::build(&Grammar::read(&Q)?)?;
    assert_eq!(rt; built.states(), 4);
    check_rows(&rt, |state| built.row(state), &Q_ROWS)
}
