//! The header: the whole length, the counts and the offsets, refused with 10, 11 and 12.
use crate::answers::Answer::*;
use crate::answers::{Answer, check_answer};
use crate::sheets::Draft;
use crate::tables::{Changed, check_changed, spelled};
use std::process::Abort;

/// Short sheets that tell their own length: nothing, eleven bytes, and a header alone.
static SHORT: [(&[u8], Answer); 3] = [
    (b"", Refused(10, 0)),
    (
        b"\x00\x0b\x00\x03\x00\x02\x00\x03\x00\x0c\x00",
        Refused(10, 0),
    ),
    (
        b"\x00\x0c\x00\x03\x00\x02\x00\x03\x00\x0c\x00\x27",
        Refused(12, 0),
    ),
];

static HEADERS: [Changed; 25] = [
    ("nothing changed", &[], Read),
    ("length one more", &[(1, 49)], Refused(10, 0)),
    ("length one less", &[(1, 47)], Refused(10, 0)),
    ("length 256 more", &[(0, 1)], Refused(10, 0)),
    ("no terminal", &[(3, 0)], Refused(11, 0)),
    ("41 terminals", &[(3, 41)], Refused(11, 0)),
    ("259 terminals", &[(2, 1)], Refused(11, 0)),
    ("one nonterminal", &[(5, 1)], Refused(11, 0)),
    ("25 nonterminals", &[(5, 25)], Refused(11, 0)),
    ("258 nonterminals", &[(4, 1)], Refused(11, 0)),
    ("no rule", &[(7, 0)], Refused(11, 0)),
    ("one rule", &[(7, 1)], Refused(11, 0)),
    ("one rule and no more", &[(7, 1), (11, 21)], Refused(11, 0)),
    ("65 rules", &[(7, 65)], Refused(11, 0)),
    ("259 rules", &[(6, 1)], Refused(11, 0)),
    ("rules from 11", &[(9, 11)], Refused(12, 0)),
    ("rules from 13", &[(9, 13)], Refused(12, 0)),
    ("rules from 268", &[(8, 1)], Refused(12, 0)),
    ("spellings from 38", &[(11, 38)], Refused(12, 0)),
    ("spellings from 40", &[(11, 40)], Refused(12, 0)),
    ("spellings from 295", &[(10, 1)], Refused(12, 0)),
    ("five rules", &[(7, 5), (11, 57)], Refused(12, 0)),
    ("length before counts", &[(1, 49), (3, 0)], Refused(10, 0)),
    ("counts before offsets", &[(3, 0), (9, 13)], Refused(11, 0)),
    ("offsets before rules", &[(9, 13), (12, 0)], Refused(12, 0)),
];

/// The short sheets have their answers.
fn check_short(rt: &impl Abort) {
    for (sheet, answer) in &SHORT {
        check_answer(rt, sheet, *answer, sheet.len());
    }
}

#[test]
fn headers_tell_the_length_the_counts_and_the_offsets(rt: HostRuntime) {
    check_short(&rt);
    check_changed(&rt, &HEADERS);
}

#[test]
fn counts_may_reach_their_bounds(rt: HostRuntime) {
    check_answer(&rt, spelled(1, &[""]).sheet(1, 2), Read, "the least");
    let mut most = Draft::new();
    most.add_rule(40, &[41]);
    for rule in 1..64 {
        most.add_rule(40 + rule.min(23), &[0, 1, 2, 3, 37, 38, 39]);
    }
    most.add_spelling(b"");
    let letters = b"abcdefghijklmnopqrstuvwxyzABCDEFGHIJKLMNOPQRSTUVWXYZ";
    for spelling in letters.windows(12).skip(1).take(39) {
        most.add_spelling(spelling);
    }
    check_answer(&rt, most.sheet(40, 24), Read, "the most");
}
