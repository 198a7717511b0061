//! A fault in plain words: a line on what is wrong and where, and a line on the rule that is broken.
use crate::fields::{Header, block, remains, split_spelling};
use grammar::GrammarFault;
use std::fmt;

/// A fault of a sheet, explained from what the sheet says.
#[derive(Clone, Copy)]
pub struct Explanation<'a> {
    pub fault: GrammarFault,
    pub sheet: &'a [u8],
}

/// Bytes as numbers, each behind a blank.
#[derive(Clone, Copy)]
struct Numbers<'a>(&'a [u8]);

impl fmt::Display for Numbers<'_> {
    fn fmt<W: fmt::Write>(&self, f: &mut fmt::Formatter<W>) -> fmt::Result {
        for byte in self.0 {
            write!(f, " {byte}")?;
        }
        Ok(())
    }
}

impl Explanation<'_> {
    /// The line on the length of the sheet.
    fn explain_length<W: fmt::Write>(&self, f: &mut fmt::Formatter<W>) -> fmt::Result {
        let size = self.sheet.len();
        if size < 12 {
            return writeln!(
                f,
                "The length of the sheet is {size}, too little for a header."
            );
        }
        let Header { length, .. } = Header::of(self.sheet);
        writeln!(
            f,
            "The length of the sheet is {size}, and its header tells {length}."
        )
    }

    /// The line on the counts in the header.
    fn explain_counts<W: fmt::Write>(&self, f: &mut fmt::Formatter<W>) -> fmt::Result {
        let Header {
            terminals,
            nonterminals,
            rules,
            ..
        } = Header::of(self.sheet);
        writeln!(
            f,
            "The header tells terminals: {terminals}, nonterminals: {nonterminals}, rules: {rules}."
        )
    }

    /// The line on the offsets in the header.
    fn explain_offsets<W: fmt::Write>(&self, f: &mut fmt::Formatter<W>) -> fmt::Result {
        let size = self.sheet.len();
        let Header {
            rules,
            rules_at,
            spellings_at,
            ..
        } = Header::of(self.sheet);
        writeln!(
            f,
            "The header tells rules: {rules}, from byte {rules_at} on, and spellings from byte {spellings_at} on; the length of the sheet is {size}."
        )
    }

    /// The line on what is wrong with a rule.
    fn explain_rule<W: fmt::Write>(&self, f: &mut fmt::Formatter<W>, rule: usize) -> fmt::Result {
        let Header {
            terminals,
            nonterminals,
            ..
        } = Header::of(self.sheet);
        let symbols = u32::from(terminals) + u32::from(nonterminals);
        let bytes = Numbers(block(self.sheet, rule));
        writeln!(
            f,
            "Rule {rule} is the bytes{bytes}; symbols are below {symbols}, and terminals below {terminals}."
        )
    }

    /// The line on what is wrong with the spelling of a terminal.
    fn explain_spelling<W: fmt::Write>(
        &self,
        f: &mut fmt::Formatter<W>,
        terminal: usize,
    ) -> fmt::Result {
        let rest = remains(self.sheet, terminal);
        let left = rest.len();
        if terminal == usize::from(Header::of(self.sheet).terminals) {
            return writeln!(
                f,
                "Bytes left over after the spelling of the last terminal: {left}."
            );
        }
        match rest {
            [] => writeln!(
                f,
                "The sheet ends before the spelling of terminal {terminal}."
            ),
            [length, ..] => {
                let bytes = Numbers(split_spelling(rest).0);
                writeln!(
                    f,
                    "Terminal {terminal} is spelled with length {length} and the bytes{bytes}."
                )
            }
        }
    }

    /// The line on what is wrong, and where.
    fn explain<W: fmt::Write>(&self, f: &mut fmt::Formatter<W>) -> fmt::Result {
        match self.fault {
            GrammarFault::WholeLength => self.explain_length(f),
            GrammarFault::CountRange => self.explain_counts(f),
            GrammarFault::Offset => self.explain_offsets(f),
            GrammarFault::RuleForm { rule } | GrammarFault::GoalRule { rule } => self.explain_rule(
                f, rule,
            ),
            GrammarFault::SpellingForm { terminal } => self.explain_spelling(f, terminal),
            GrammarFault::SpellingRepeated { terminal } => {
                let bytes = Numbers(split_spelling(remains(self.sheet, terminal)).0);
                writeln!(
                    f,
                    "Terminal {terminal} is spelled with the bytes{bytes}, as a terminal before it is."
                )
            }
            GrammarFault::Unproductive { nonterminal } => writeln!(
                f,
                "Nonterminal {nonterminal} derives no list of terminals: each of its rules needs a symbol that derives none."
            ),
            GrammarFault::RoomShort { need } => writeln!(
                f,
                "The room to write the sheet has fewer than {need} bytes."
            ),
        }
    }

    /// The rule that the fault breaks.
    fn rule(&self) -> &'static str {
        match self.fault {
            GrammarFault::WholeLength =>
                "A header has 12 bytes, and its first number is the length of the whole sheet.",
            GrammarFault::CountRange =>
                "A sheet has 1 to 40 terminals, 2 to 24 nonterminals and 2 to 64 rules.",
            GrammarFault::Offset =>
                "The rules begin at byte 12 and have nine bytes each, and the spellings follow them.",
            GrammarFault::RuleForm { .. } => {
                "A rule is a nonterminal, a length from 0 to 7, and seven right symbols: symbols of the grammar up to the length, and 255 past it."
            }
            GrammarFault::GoalRule { .. } => {
                "The goal is the first nonterminal. It stands on the left of rule 0, with one other nonterminal on the right, and nowhere else."
            }
            GrammarFault::SpellingForm { .. } => {
                "The amount, terminal 0, has length 0. Any other spelling has 1 to 12 bytes from 33 to 126, none of them 35 and not all digits, and the last ends the sheet."
            }
            GrammarFault::SpellingRepeated { .. } => "No two terminals are spelled alike.",
            GrammarFault::Unproductive { .. } =>
                "Every nonterminal, the goal too, derives some list of terminals.",
            GrammarFault::RoomShort { .. } => "A sheet is written whole or not at all.",
        }
    }
}

impl fmt::Display for Explanation<'_> {
    fn fmt<W: fmt::Write>(&self, f: &mut fmt::Formatter<W>) -> fmt::Result {
        self.explain(f)?;
        writeln!(f, "{}", self.rule())
    }
}
