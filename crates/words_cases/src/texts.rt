//! Texts, and what is answered to them.
use crate::answers::{Answer, Case, check_cases, grammar};
use std::process::Abort;
use std::test::Fail;
use words::{TextFeed, Word};

const BLANKS: [Case; 9] = [
    ("no bytes", b"", &[Answer::End]),
    ("blanks alone", b" \t\n ", &[Answer::End]),
    ("a remark alone", b"# 1 tea", &[Answer::End]),
    ("a remark and its line feed", b"#tea\n", &[Answer::End]),
    ("remarks in remarks", b"##\n#tea # and\n", &[Answer::End]),
    (
        "a remark ends with its line",
        b"#tea\ntea",
        &[Answer::Terminal(1, 5, 8), Answer::End],
    ),
    (
        "a tab and two line feeds",
        b"\ttea\n\nand\t",
        &[
            Answer::Terminal(1, 1, 4),
            Answer::Terminal(2, 6, 9),
            Answer::End,
        ],
    ),
    (
        "a carriage return is no blank",
        b"tea\r\nand",
        &[Answer::Refused(51, 0, 4)],
    ),
    (
        "a carriage return alone",
        b" \r ",
        &[Answer::Refused(51, 1, 2)],
    ),
];

const REMARKS: [Case; 5] = [
    (
        "a remark within a word that is none",
        b"te#a",
        &[Answer::Refused(51, 0, 2)],
    ),
    (
        "a remark behind a word",
        b"tea#a",
        &[Answer::Terminal(1, 0, 3), Answer::End],
    ),
    (
        "a remark behind an amount",
        b"12#x",
        &[Answer::Amount(12, 0, 2), Answer::End],
    ),
    (
        "a word behind a remark",
        b"and#and\nand",
        &[
            Answer::Terminal(2, 0, 3),
            Answer::Terminal(2, 8, 11),
            Answer::End,
        ],
    ),
    (
        "a remark with any bytes",
        b"1 #\x00\xff\r\t\n2",
        &[
            Answer::Amount(1, 0, 1),
            Answer::Amount(2, 8, 9),
            Answer::End,
        ],
    ),
];

const AMOUNTS: [Case; 9] = [
    ("one digit", b"0", &[Answer::Amount(0, 0, 1), Answer::End]),
    (
        "five digits",
        b"99999",
        &[Answer::Amount(99_999, 0, 5), Answer::End],
    ),
    (
        "five digits with zeros in front",
        b"00012",
        &[Answer::Amount(12, 0, 5), Answer::End],
    ),
    ("six digits", b"123456", &[Answer::Refused(52, 0, 6)]),
    (
        "six digits with zeros in front",
        b"000001",
        &[Answer::Refused(52, 0, 6)],
    ),
    (
        "a letter behind digits",
        b"12x",
        &[Answer::Refused(51, 0, 3)],
    ),
    (
        "six digits and a letter",
        b"123456x",
        &[Answer::Refused(51, 0, 7)],
    ),
    ("a sign before a digit", b"-1", &[Answer::Refused(51, 0, 2)]),
    (
        "bytes next to the digits",
        b"1/ 1:",
        &[Answer::Refused(51, 0, 2)],
    ),
];

const WORDS: [Case; 10] = [
    (
        "words of every kind",
        b"1 tea and 25 tea",
        &[
            Answer::Amount(1, 0, 1),
            Answer::Terminal(1, 2, 5),
            Answer::Terminal(2, 6, 9),
            Answer::Amount(25, 10, 12),
            Answer::Terminal(1, 13, 16),
            Answer::End,
        ],
    ),
    (
        "an unknown word",
        b"2 cups",
        &[Answer::Amount(2, 0, 1), Answer::Refused(51, 2, 6)],
    ),
    (
        "two spellings without a blank",
        b"teaand",
        &[Answer::Refused(51, 0, 6)],
    ),
    ("less than a spelling", b"te", &[Answer::Refused(51, 0, 2)]),
    (
        "more than a spelling",
        b"teas",
        &[Answer::Refused(51, 0, 4)],
    ),
    ("a capital", b"Tea", &[Answer::Refused(51, 0, 3)]),
    (
        "an amount without a blank",
        b"1tea",
        &[Answer::Refused(51, 0, 4)],
    ),
    ("byte 0", b"\x00", &[Answer::Refused(51, 0, 1)]),
    (
        "byte 255",
        b"tea \xff",
        &[Answer::Terminal(1, 0, 3), Answer::Refused(51, 4, 5)],
    ),
    (
        "nothing comes behind a fault",
        b"tea 1234567 tea",
        &[Answer::Terminal(1, 0, 3), Answer::Refused(52, 4, 11)],
    ),
];

/// Each of these texts has its answers.
fn check_texts(rt: &impl Abort, cases: &[Case]) -> Result<(), Fail> {
    let grammar = grammar()?;
    check_cases(rt, cases, |text| TextFeed::new(&grammar, text));
    Ok(())
}

#[test]
fn blanks(rt: HostRuntime) -> Result<(), Fail> {
    check_texts(&rt, &BLANKS)
}

#[test]
fn remarks(rt: HostRuntime) -> Result<(), Fail> {
    check_texts(&rt, &REMARKS)
}

#[test]
fn amounts(rt: HostRuntime) -> Result<(), Fail> {
    check_texts(&rt, &AMOUNTS)
}

#[test]
fn words(rt: HostRuntime) -> Result<(), Fail> {
    check_texts(&rt, &WORDS)
}

/// The bytes of a word are that part of the text; a text that is too short has no such part.
#[test]
fn bytes_of_words(rt: HostRuntime) -> Result<(), Fail> {
    let word = Word {
        terminal: 1,
        amount: 0,
        from: 2,
        to: 5,
    };
    assert_eq!(rt;
        word.bytes_in(b"1 tea and").ok_or("no part")?,
        b"tea".as_slice()
    );
    assert_eq!(rt;
        word.bytes_in(b"1 tea").ok_or("no part")?,
        b"tea".as_slice()
    );
    assert!(rt; word.bytes_in(b"1 te").is_none());
    let turned = Word {
        terminal: 1,
        amount: 0,
        from: 2,
        to: 1,
    };
    assert!(rt; turned.bytes_in(b"1 tea").is_none());
    Ok(())
}
