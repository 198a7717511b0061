//! What is wrong with a table sheet and where, in a line.
ghost use Rattle.std.specs.Prelude.{◌≡◌, ◌<◌, ◌≤◌, Some};
ghost use Rattle.parsing.specs.Grammar.{rule_count};
ghost use Rattle.grammar.specs.Meaning.{sheet as sheet_of, meaning};
ghost use Rattle.inspection.specs.Names.{symbol_name};
ghost use Rattle.table_format.specs.ItemSets.{symbols};
ghost use Rattle.table_explanation.specs.Explanations.{length_line, counts_line, offsets_line, byte_line, steps_to, where_none, lacking};
ghost use Rattle.table_explanation.specs.Explanations.{other_row, known_row, rule_shown, mark_line, fault_line};

use crate::fields::{Header, byte, is_short, mark_byte, step_byte};
use grammar::Grammar;
use inspection::{Name, RuleText};
use states::TableFault;
use std::fmt;

/// A sheet, and the grammar that it is to be a table for.
#[derive(Clone, Copy)]
pub(crate) struct Claimed<'a> {
    pub(crate) grammar: &'a Grammar,
    pub(crate) sheet: &'a [u8],
}

/// How many symbols the grammar has.
fn symbols_of(grammar: &Grammar) -> usize
    ensures value { result ≡ symbols (meaning grammar.now) }
    ensures some { 0 < result }
    ensures few { result ≤ 64 }
{
    usize::from(grammar.symbols())
}

/// How many rules the grammar has.
fn rules_of(grammar: &Grammar) -> usize
    ensures value { result ≡ rule_count (meaning grammar.now) }
    ensures some { 0 < result }
{
    usize::from(grammar.rules())
}

/// The length of the sheet.
#[derive(Clone, Copy)]
struct LengthLine<'a>(&'a [u8]);

impl fmt::Display for LengthLine<'_> {
    ghost output = { λ x. Some (length_line x.0.now) };

    fn fmt<W: fmt::Write>(&self, f: &mut fmt::Formatter<W>) -> fmt::Result {
        let size = self.0.len();
        if is_short(self.0) {
            return write!(
                f,
                "The length of the sheet is {size}, too little for a header.\n"
            );
        }
        let Header { length, .. } = Header::of(self.0);
        write!(
            f,
            "The length of the sheet is {size}, and its header tells {length}.\n"
        )
    }
}

/// The counts in the header, and those of the grammar.
#[derive(Clone, Copy)]
struct CountsLine<'a>(Claimed<'a>);

impl fmt::Display for CountsLine<'_> {
    ghost output = { λ x. Some (counts_line (meaning x.0.grammar.now) x.0.sheet.now) };

    fn fmt<W: fmt::Write>(&self, f: &mut fmt::Formatter<W>) -> fmt::Result {
        let Claimed { grammar, sheet } = self.0;
        if is_short(sheet) {
            return write!(f, "{}", LengthLine(sheet));
        }
        let Header { layout, .. } = Header::of(sheet);
        let states = layout.states;
        let symbols = layout.symbols;
        let rules = layout.rules;
        let wanted_symbols = grammar.symbols();
        let wanted_rules = grammar.rules();
        write!(
            f,
            "The header tells states: {states}, symbols: {symbols}, rules: {rules}; the grammar has symbols: {wanted_symbols}, rules: {wanted_rules}.\n"
        )
    }
}

/// The offsets in the header, and those that its counts want.
#[derive(Clone, Copy)]
struct OffsetsLine<'a>(&'a [u8]);

impl fmt::Display for OffsetsLine<'_> {
    ghost output = { λ x. Some (offsets_line x.0.now) };

    fn fmt<W: fmt::Write>(&self, f: &mut fmt::Formatter<W>) -> fmt::Result {
        if is_short(self.0) {
            return write!(f, "{}", LengthLine(self.0));
        }
        let Header {
            layout,
            steps_at,
            marks_at,
            ..
        } = Header::of(self.0);
        let size = self.0.len();
        let wanted = layout.marks_at();
        let end = layout.sheet_len();
        write!(
            f,
            "The header tells steps from byte {steps_at} on and done marks from byte {marks_at} on, and the length of the sheet is {size}; by its counts these are 12, {wanted} and {end}.\n"
        )
    }
}

/// A byte that is out of range: the step or the done mark that it is.
#[derive(Clone, Copy)]
struct ByteLine<'a>(Claimed<'a>, usize);

impl fmt::Display for ByteLine<'_> {
    ghost output = { λ x. Some (byte_line (sheet_of x.0.grammar.now) x.0.sheet.now x.1) };

    fn fmt<W: fmt::Write>(&self, f: &mut fmt::Formatter<W>) -> fmt::Result {
        let Claimed { grammar, sheet } = self.0;
        let offset = self.1;
        let byte = byte(sheet, offset);
        if is_short(sheet) {
            return write!(f, "Byte {offset} is {byte}.\n");
        }
        let Header {
            layout,
            marks_at,
            ..
        } = Header::of(sheet);
        let marks_at = usize::from(marks_at);
        if offset < marks_at {
            let states = layout.states;
            let symbols = symbols_of(grammar);
            let place = offset.saturating_sub(12);
            let state = place / symbols;
            let name = SymbolShown {
                grammar,
                symbol: (place % symbols) as u8,
            };
            return write!(
                f,
                "Byte {offset} is {byte}: the step of state {state} by `{name}`. The number of states is {states}.\n"
            );
        }
        let rules = rules_of(grammar);
        let place = offset - marks_at;
        let state = place / rules;
        let rule = place % rules;
        write!(
            f,
            "Byte {offset} is {byte}: the done mark of state {state} for rule {rule}.\n"
        )
    }
}

/// The name of a symbol.
#[derive(Clone, Copy)]
struct SymbolShown<'a> {
    grammar: &'a Grammar,
    symbol: u8,
}

impl fmt::Display for SymbolShown<'_> {
    ghost output = { λ x. Some (symbol_name (sheet_of x.grammar.now) x.symbol) };

    fn fmt<W: fmt::Write>(&self, f: &mut fmt::Formatter<W>) -> fmt::Result {
        let name = Name::of(self.grammar, self.symbol);
        write!(f, "{name}")
    }
}

/// The step of a state by a symbol, as the sheet tells it.
#[derive(Clone, Copy)]
struct StepsTo<'a>(Claimed<'a>, u8, u8);

impl fmt::Display for StepsTo<'_> {
    ghost output = { λ x. Some (steps_to (sheet_of x.0.grammar.now) x.0.sheet.now x.1 x.2) };

    fn fmt<W: fmt::Write>(&self, f: &mut fmt::Formatter<W>) -> fmt::Result {
        let StepsTo(Claimed { grammar, sheet }, state, symbol) = *self;
        let name = SymbolShown { grammar, symbol };
        let target = step_byte(sheet, state, symbol);
        write!(f, "State {state} steps by `{name}` to state {target}")
    }
}

/// A rule, where the grammar has it.
#[derive(Clone, Copy)]
struct RuleShown<'a> {
    grammar: &'a Grammar,
    rule: usize,
}

impl fmt::Display for RuleShown<'_> {
    ghost output = { λ x. Some (rule_shown (sheet_of x.grammar.now) x.rule) };

    fn fmt<W: fmt::Write>(&self, f: &mut fmt::Formatter<W>) -> fmt::Result {
        let RuleShown { grammar, rule } = *self;
        if rule < usize::from(grammar.rules()) {
            write!(f, "{}", RuleText { grammar, rule })
        } else {
            Ok(())
        }
    }
}

/// A done mark that is wrong.
#[derive(Clone, Copy)]
struct MarkLine<'a>(Claimed<'a>, u8, u8);

impl fmt::Display for MarkLine<'_> {
    ghost output = { λ x. Some (mark_line (sheet_of x.0.grammar.now) x.0.sheet.now x.1 x.2) };

    fn fmt<W: fmt::Write>(&self, f: &mut fmt::Formatter<W>) -> fmt::Result {
        let MarkLine(Claimed { grammar, sheet }, state, rule) = *self;
        let text = RuleShown {
            grammar,
            rule: usize::from(rule),
        };
        let mark = mark_byte(sheet, state, rule);
        let wanted = u8::from(mark == 0);
        write!(
            f,
            "State {state} has the done mark {mark} for rule {rule}, `{text}`, and {wanted} is wanted.\n"
        )
    }
}

/// A step where none is wanted.
#[derive(Clone, Copy)]
struct WhereNoneLine<'a>(Claimed<'a>, u8, u8);

impl fmt::Display for WhereNoneLine<'_> {
    ghost output = { λ x. Some (where_none (sheet_of x.0.grammar.now) x.0.sheet.now x.1 x.2) };

    fn fmt<W: fmt::Write>(&self, f: &mut fmt::Formatter<W>) -> fmt::Result {
        let WhereNoneLine(claimed, state, symbol) = *self;
        let steps = StepsTo(claimed, state, symbol);
        let grammar = claimed.grammar;
        let name = SymbolShown { grammar, symbol };
        write!(
            f,
            "{steps}, and no step is wanted: `{name}` comes next in none of its items.\n"
        )
    }
}

/// No step where one is wanted.
#[derive(Clone, Copy)]
struct LackingLine<'a>(Claimed<'a>, u8, u8);

impl fmt::Display for LackingLine<'_> {
    ghost output = { λ x. Some (lacking (sheet_of x.0.grammar.now) x.1 x.2) };

    fn fmt<W: fmt::Write>(&self, f: &mut fmt::Formatter<W>) -> fmt::Result {
        let LackingLine(claimed, state, symbol) = *self;
        let grammar = claimed.grammar;
        let name = SymbolShown { grammar, symbol };
        write!(
            f,
            "State {state} has no step by `{name}`, and one is wanted: `{name}` comes next in its items.\n"
        )
    }
}

/// A step to a known state with other items.
#[derive(Clone, Copy)]
struct OtherRowLine<'a>(StepsTo<'a>);

impl fmt::Display for OtherRowLine<'_> {
    ghost output = { λ x. Some (other_row (sheet_of x.0.0.grammar.now) x.0.0.sheet.now x.0.1 x.0.2) };

    fn fmt<W: fmt::Write>(&self, f: &mut fmt::Formatter<W>) -> fmt::Result {
        let steps = self.0;
        write!(
            f,
            "{steps}, which is known with other items than those wanted.\n"
        )
    }
}

/// A step to a new state, while another has the items wanted.
#[derive(Clone, Copy)]
struct KnownRowLine<'a>(StepsTo<'a>);

impl fmt::Display for KnownRowLine<'_> {
    ghost output = { λ x. Some (known_row (sheet_of x.0.0.grammar.now) x.0.0.sheet.now x.0.1 x.0.2) };

    fn fmt<W: fmt::Write>(&self, f: &mut fmt::Formatter<W>) -> fmt::Result {
        let steps = self.0;
        write!(
            f,
            "{steps}, which is new, while another state has the items wanted.\n"
        )
    }
}

/// The line on a fault of a sheet.
#[derive(Clone, Copy)]
pub(crate) struct FaultLine<'a>(pub(crate) Claimed<'a>, pub(crate) TableFault);

impl fmt::Display for FaultLine<'_> {
    ghost output = { λ x. Some (fault_line (sheet_of x.0.grammar.now) x.0.sheet.now x.1) };

    fn fmt<W: fmt::Write>(&self, f: &mut fmt::Formatter<W>) -> fmt::Result {
        let FaultLine(claimed, fault) = *self;
        match fault {
            TableFault::WholeLength => write!(f, "{}", LengthLine(claimed.sheet)),
            TableFault::CountRange => write!(f, "{}", CountsLine(claimed)),
            TableFault::Offset => write!(f, "{}", OffsetsLine(claimed.sheet)),
            TableFault::ByteRange { offset } => write!(f, "{}", ByteLine(claimed, offset)),
            TableFault::StepWhereNone { state, symbol } => {
                write!(f, "{}", WhereNoneLine(claimed, state, symbol))
            }
            TableFault::StepLacking { state, symbol } => {
                write!(f, "{}", LackingLine(claimed, state, symbol))
            }
            TableFault::OtherRow { state, symbol } => {
                write!(f, "{}", OtherRowLine(StepsTo(claimed, state, symbol)))
            }
            TableFault::KnownRow { state, symbol } => {
                write!(f, "{}", KnownRowLine(StepsTo(claimed, state, symbol)))
            }
            TableFault::MarkWrong { state, rule } => write!(
                f,
                "{}",
                MarkLine(claimed, state, rule)
            ),
            TableFault::NeverReached { state } => {
                write!(
                    f,
                    "State {state} is not reached from state 0 by any steps.\n"
                )
            }
            TableFault::TooManyStates => {
                write!(f, "The grammar has more than 255 LR(0) item sets.\n")
            }
            TableFault::RoomShort { need } => {
                write!(
                    f,
                    "The room to write the sheet has fewer than {need} bytes.\n"
                )
            }
        }
    }
}
