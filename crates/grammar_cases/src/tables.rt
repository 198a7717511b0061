//! Tables of cases: what a case is about, a sheet, and the answer to it.
use crate::answers::{Answer, check_answer};
use crate::sheets::Draft;
use sample_sheets::P;
use std::process::Abort;

/// The sheet is P with other bytes at some offsets.
pub type Changed = (&'static str, &'static [(usize, u8)], Answer);

/// The sheet has the terminals of P, so many nonterminals, and these rules, each with its left symbol and its right side.
pub type Ruled = (&'static str, u8, &'static [(u8, &'static [u8])], Answer);

/// The sheet has so many terminals, the goal, one more nonterminal, which is an amount, and these spellings.
pub type Spelled = (&'static str, u8, &'static [&'static str], Answer);

/// The bytes of a `Changed` sheet; zeros, which are no sheet, where an offset lies outside.
fn changed(changes: &[(usize, u8)]) -> [u8; 48] {
    let mut sheet = P;
    for (offset, byte) in changes {
        if *offset >= 48 {
            return [0; 48];
        }
        sheet[*offset] = *byte;
    }
    sheet
}

/// The draft of a `Ruled` sheet.
fn ruled(rules: &[(u8, &[u8])]) -> Draft {
    let mut draft = Draft::new();
    for (left, right) in rules {
        draft.add_rule(*left, right);
    }
    draft.add_spelling(b"");
    draft.add_spelling(b"tea");
    draft.add_spelling(b"and");
    draft
}

/// The draft of a `Spelled` sheet.
pub fn spelled(terminals: u8, spellings: &[&str]) -> Draft {
    let start = terminals.wrapping_add(1);
    let mut draft = Draft::new();
    draft.add_rule(terminals, &[start]);
    draft.add_rule(start, &[0]);
    for spelling in spellings {
        draft.add_spelling(spelling.as_bytes());
    }
    draft
}

// Three loops of one call each: a case of each kind has a sheet of its own making.
/// Each of these sheets has its answer.
pub fn check_changed(rt: &impl Abort, cases: &[Changed]) {
    for (what, changes, answer) in cases {
        check_answer(rt, &changed(changes), *answer, *what);
    }
}

/// Each of these sheets has its answer.
pub fn check_ruled(rt: &impl Abort, cases: &[Ruled]) {
    for (what, nonterminals, rules, answer) in cases {
        check_answer(rt, ruled(rules).sheet(3, *nonterminals), *answer, *what);
    }
}

/// Each of these sheets has its answer.
pub fn check_spelled(rt: &impl Abort, cases: &[Spelled]) {
    for (what, terminals, spellings, answer) in cases {
        check_answer(
            rt,
            spelled(*terminals, spellings).sheet(*terminals, 2),
            *answer,
            *what,
        );
    }
}
