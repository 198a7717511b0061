//! What a grammar answers.
use grammar::Grammar;
use sample_sheets::{P, Q};
use std::array;
use std::process::Abort;
use std::test::Fail;

/// A rule, its left symbol, its length, and its right symbols at the places 0 to 7.
type Rule = (usize, u8, u8, [u8; 8]);

/// A terminal and its spelling.
type Spelling = (usize, Option<&'static [u8]>);

static P_RULES: [Rule; 5] = [
    (0, 3, 1, [4, 255, 255, 255, 255, 255, 255, 255]),
    (1, 4, 2, [0, 1, 255, 255, 255, 255, 255, 255]),
    (2, 4, 3, [4, 2, 4, 255, 255, 255, 255, 255]),
    (3, 255, 255, [255; 8]),
    (64, 255, 255, [255; 8]),
];

static P_SPELLINGS: [Spelling; 5] = [
    (0, Some(b"")),
    (1, Some(b"tea")),
    (2, Some(b"and")),
    (3, None),
    (40, None),
];

static Q_RULES: [Rule; 6] = [
    (0, 2, 1, [3, 255, 255, 255, 255, 255, 255, 255]),
    (1, 3, 2, [3, 3, 255, 255, 255, 255, 255, 255]),
    (2, 3, 1, [1, 255, 255, 255, 255, 255, 255, 255]),
    (3, 3, 0, [255; 8]),
    (4, 255, 255, [255; 8]),
    (usize::MAX, 255, 255, [255; 8]),
];

static Q_SPELLINGS: [Spelling; 4] = [
    (0, Some(b"")),
    (1, Some(b"tin")),
    (2, None),
    (usize::MAX, None),
];

/// What the grammar answers about a rule.
fn rule_of(grammar: &Grammar, rule: usize) -> Rule {
    let right = array::from_fn(|place| grammar.right(rule, place));
    (rule, grammar.left(rule), grammar.length(rule), right)
}

// Not one loop with `check_spellings`: a rule is asked for four things, a terminal for one.
/// The grammar has these rules.
fn check_rules(rt: &impl Abort, grammar: &Grammar, rules: &[Rule]) {
    for rule in rules {
        assert_eq!(rt; rule_of(grammar, rule.0), *rule);
    }
}

/// The grammar has these spellings.
fn check_spellings(rt: &impl Abort, grammar: &Grammar, spellings: &[Spelling]) {
    for spelling in spellings {
        assert_eq!(rt; (spelling.0, grammar.spelling(spelling.0)), *spelling);
    }
}

/// The sheet is read as a grammar with these counts of terminals, nonterminals and rules, these rules and these spellings.
fn check_grammar(
    rt: &impl Abort,
    sheet: &[u8],
    counts: (u8, u8, u8),
    rules: &[Rule],
    spellings: &[Spelling],
) -> Result<(), Fail> {
    let grammar = Grammar::read(sheet)?;
    let told = (grammar.terminals(), grammar.nonterminals(), grammar.rules());
    assert_eq!(rt; (told, grammar.sheet_len()), (counts, sheet.len()));
    check_rules(rt, &grammar, rules);
    check_spellings(rt, &grammar, spellings);
    Ok(())
}

#[test]
fn grammars_answer_what_their_sheets_say(rt: HostRuntime) -> Result<(), Fail> {
    check_grammar(&rt, &P, (3, 2, 3), &P_RULES, &P_SPELLINGS)?;
    check_grammar(&rt, &Q, (2, 2, 4), &Q_RULES, &Q_SPELLINGS)
}
