//! Key records, and what is answered to them.
use crate::answers::{Answer, Case, check_cases, grammar};
use std::process::Abort;
use std::test::Fail;
use words::KeyFeed;

const ENDS: [Case; 5] = [
    ("no bytes", &[], &[Answer::End]),
    ("the end", &[255], &[Answer::End]),
    ("bytes behind the end", &[255, 9], &[Answer::End]),
    (
        "the end behind words",
        &[1, 2, 255, 0],
        &[
            Answer::Terminal(1, 0, 1),
            Answer::Terminal(2, 1, 2),
            Answer::End,
        ],
    ),
    (
        "the last byte",
        &[2],
        &[Answer::Terminal(2, 0, 1), Answer::End],
    ),
];

const AMOUNTS: [Case; 7] = [
    (
        "an amount",
        &[0, 1, 44, 1],
        &[
            Answer::Amount(300, 0, 3),
            Answer::Terminal(1, 3, 4),
            Answer::End,
        ],
    ),
    (
        "the amount 0",
        &[0, 0, 0],
        &[Answer::Amount(0, 0, 3), Answer::End],
    ),
    (
        "the greatest amount",
        &[0, 255, 255],
        &[Answer::Amount(65_535, 0, 3), Answer::End],
    ),
    ("no byte of an amount", &[0], &[Answer::Refused(54, 0, 1)]),
    (
        "one byte of an amount",
        &[0, 1],
        &[Answer::Refused(54, 0, 2)],
    ),
    (
        "an end as a byte of an amount",
        &[0, 255],
        &[Answer::Refused(54, 0, 2)],
    ),
    (
        "an amount cut behind a word",
        &[1, 0, 0],
        &[Answer::Terminal(1, 0, 1), Answer::Refused(54, 1, 3)],
    ),
];

const KEYS: [Case; 3] = [
    (
        "a key past the terminals",
        &[3],
        &[Answer::Refused(53, 0, 1)],
    ),
    (
        "the last key but the end",
        &[254, 1],
        &[Answer::Refused(53, 0, 1)],
    ),
    (
        "nothing comes behind a fault",
        &[2, 40, 1],
        &[Answer::Terminal(2, 0, 1), Answer::Refused(53, 1, 2)],
    ),
];

/// Each of these records has its answers.
fn check_records(rt: &impl Abort, cases: &[Case]) -> Result<(), Fail> {
    let grammar = grammar()?;
    check_cases(rt, cases, |record| KeyFeed::new(&grammar, record));
    Ok(())
}

#[test]
fn ends(rt: HostRuntime) -> Result<(), Fail> {
    check_records(&rt, &ENDS)
}

#[test]
fn amounts(rt: HostRuntime) -> Result<(), Fail> {
    check_records(&rt, &AMOUNTS)
}

#[test]
fn keys(rt: HostRuntime) -> Result<(), Fail> {
    check_records(&rt, &KEYS)
}
