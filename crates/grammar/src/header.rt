//! What the header of a grammar sheet tells.
ghost use Rattle.std.specs.Prelude.{◌≡◌, ◌≤◌};
ghost use Rattle.grammar_format.specs.Sheets.{rules_end};

/// How many terminals, nonterminals and rules there are.
#[derive(Clone, Copy)]
pub(crate) struct Header {
    pub(crate) terminals: u8,
    pub(crate) nonterminals: u8,
    pub(crate) rules: u8,
    ghost few_terminals: { terminals ≤ 40 },
    ghost few_nonterminals: { nonterminals ≤ 24 },
    ghost few_rules: { rules ≤ 64 },
}

/// The offset at which so many rules end, and the spellings begin.
pub(crate) fn rules_end(rules: u8) -> u16
    ensures { result ≡ rules_end rules }
{
    12 + 9 * u16::from(rules)
}
