//! Reports of the small table, and of tables with one thing wrong.
use grammar::Grammar;
use inspection::report;
use sample_sheets::{CHAINS, P, P_IDLE, P_SECOND_FOUR, P_TABLE};
use std::process::Abort;
use std::test::Fail;
use table_inspection::{full_report, table_report};

const STATES: &str = "states: 6
state 0
  goal -> • start
  start -> • amount tea
  start -> • start and start
  by amount to 1
  by start to 2
state 1
  start -> amount • tea
  by tea to 3
state 2
  goal -> start •
  start -> start • and start
  by and to 4
state 3
  start -> amount tea •
state 4
  start -> • amount tea
  start -> • start and start
  start -> start and • start
  by amount to 1
  by start to 5
state 5
  start -> start • and start
  start -> start and start •
  by and to 4
";

/// Bytes that are put into the small table, and what is then reported: the first line, and how the words begin.
#[derive(Clone, Copy)]
struct Case {
    at: usize,
    byte: u8,
    line: &'static str,
    words: &'static str,
}

const CASES: [Case; 10] = [
    Case {
        at: 1,
        byte: 59,
        line: "refused 20 table 0 0",
        words: "The length of the sheet is 60, and its header tells 59.\nA header has 12 bytes,",
    },
    Case {
        at: 3,
        byte: 0,
        line: "refused 21 table 0 0",
        words: "The header tells states: 0, symbols: 5, rules: 3; the grammar has symbols: 5, rules: 3.\nA table has 1 to 255 states,",
    },
    Case {
        at: 7,
        byte: 2,
        line: "refused 21 table 0 0",
        words: "The header tells states: 6, symbols: 5, rules: 2; the grammar has symbols: 5, rules: 3.\n",
    },
    Case {
        at: 9,
        byte: 13,
        line: "refused 22 table 0 0",
        words: "The header tells steps from byte 13 on and done marks from byte 42 on, and the length of the sheet is 60; by its counts these are 12, 42 and 60.\n",
    },
    Case {
        at: 18,
        byte: 6,
        line: "refused 23 table 18 0",
        words: "Byte 18 is 6: the step of state 1 by `tea`. The number of states is 6.\nA step is a state,",
    },
    Case {
        at: 50,
        byte: 2,
        line: "refused 23 table 50 0",
        words: "Byte 50 is 2: the done mark of state 2 for rule 2.\nA step is a state,",
    },
    Case {
        at: 29,
        byte: 4,
        line: "refused 24 table 3 2",
        words: "State 3 steps by `and` to state 4, and no step is wanted: `and` comes next in none of its items.\nThe items of state 3:\n  start -> amount tea •\nA state has a step",
    },
    Case {
        at: 39,
        byte: 255,
        line: "refused 25 table 5 2",
        words: "State 5 has no step by `and`, and one is wanted: `and` comes next in its items.\nThe items of state 5:\n  start -> start • and start\n  start -> start and start •\nThe items of the state wanted:\n  start -> • amount tea\n  start -> • start and start\n  start -> start and • start\nA state has a step",
    },
    Case {
        at: 39,
        byte: 2,
        line: "refused 26 table 5 2",
        words: "State 5 steps by `and` to state 2, which is known with other items than those wanted.\nThe items of state 5:\n",
    },
    Case {
        at: 59,
        byte: 0,
        line: "refused 28 table 5 2",
        words: "State 5 has the done mark 0 for rule 2, `start -> start and start`, and 1 is wanted.\nThe items of state 5:\n  start -> start • and start\n  start -> start and start •\nA done mark is 1",
    },
];

/// The small table with a byte of its own.
fn changed(at: usize, byte: u8) -> [u8; 60] {
    let mut sheet = P_TABLE;
    if let Some(place) = sheet.get_mut(at) {
        *place = byte;
    }
    sheet
}

/// The report of a table for the small grammar begins so.
fn begins(rt: &(impl Abort + AllocGlobal), sheet: &[u8], begin: &str) -> Result<(), Fail> {
    let grammar = Grammar::read(&P)?;
    let text = table_report(rt.alloc(), &grammar, sheet)?;
    assert!(rt; text.as_str().starts_with(begin), "{begin}");
    Ok(())
}

/// The report of the small grammar and this table lists the states, and tells how the table was had.
fn check_both(rt: &(impl Abort + AllocGlobal), table: &[u8], how: &str) -> Result<(), Fail> {
    let first = report(rt.alloc(), &P)?;
    let both = format!(in rt.alloc(); "{first}{STATES}{how}: 60 bytes, they pass the check\n")?;
    assert_eq!(rt; full_report(rt.alloc(), &P, table)?.as_str(), both.as_str());
    Ok(())
}

#[test]
fn lists_a_table_that_passes(rt: HostRuntime) -> Result<(), Fail> {
    check_both(&rt, &P_TABLE, "supplied")
}

#[test]
fn builds_the_states_without_a_table(rt: HostRuntime) -> Result<(), Fail> {
    check_both(&rt, &[], "built and written")
}

#[test]
fn looks_at_no_table_of_a_refused_grammar(rt: HostRuntime) -> Result<(), Fail> {
    let first = report(rt.alloc(), &P_TABLE)?;
    assert_eq!(rt;
        full_report(rt.alloc(), &P_TABLE, &P_TABLE)?.as_str(),
        first.as_str()
    );
    Ok(())
}

#[test]
fn refuses_and_explains(rt: HostRuntime) -> Result<(), Fail> {
    for Case {
        at,
        byte,
        line,
        words,
    } in CASES {
        let begin = format!(in rt.alloc(); "{line}\n{words}")?;
        begins(&rt, &changed(at, byte), begin.as_str())?;
    }
    Ok(())
}

#[test]
fn refuses_a_short_sheet(rt: HostRuntime) -> Result<(), Fail> {
    begins(
        &rt,
        b"\x00\x05\x00\x06\x00",
        "refused 20 table 0 0\nThe length of the sheet is 5, too little for a header.\n",
    )
}

#[test]
fn refuses_a_second_state_for_the_same_items(rt: HostRuntime) -> Result<(), Fail> {
    begins(
        &rt,
        &P_SECOND_FOUR,
        "refused 27 table 5 2\nState 5 steps by `and` to state 6, which is new, while another state has the items wanted.\nThe items of state 5:\n",
    )
}

#[test]
fn refuses_an_idle_state(rt: HostRuntime) -> Result<(), Fail> {
    begins(
        &rt,
        &P_IDLE,
        "refused 29 table 6 0\nState 6 is not reached from state 0 by any steps.\nEvery state is reached from state 0 by steps.\n",
    )
}

#[test]
fn refuses_to_build_too_many_states(rt: HostRuntime) -> Result<(), Fail> {
    let grammar = Grammar::read(&CHAINS)?;
    assert_eq!(rt;
        table_report(rt.alloc(), &grammar, &[])?.as_str(),
        "refused 30 table 0 0\nThe grammar has more than 255 LR(0) item sets.\nA table has 1 to 255 states, one for each item set.\n"
    );
    Ok(())
}
