//! How the symbols of a grammar are called. A sheet spells its terminals and has no names for its nonterminals.
ghost use Rattle.std.specs.Prelude.{◌≡◌, Some, IsUtf8};
ghost use Rattle.grammar.specs.Meaning.{sheet};
ghost use Rattle.inspection.specs.Names.{called, symbol_name};

use grammar::Grammar;
use std::fmt;

/// The name of a symbol.
#[derive(Clone, Copy)]
pub enum Name<'a> {
    /// Terminal 0, which has no spelling.
    Amount,
    /// Another terminal, by its spelling.
    Word(&'a str),
    /// The first nonterminal.
    Goal,
    /// The right symbol of rule 0.
    Start,
    /// Any other nonterminal, by its number.
    Other(u8),
}

/// A spelling as text.
fn text(spelling: &[u8]) -> &str
    ensures { IsUtf8 spelling.now → result.now ≡ spelling.now }
{
    std::str::from_utf8(spelling).unwrap_or("?")
}

impl Name<'_> {
    /// What a symbol of the grammar is called.
    pub fn of(grammar: &Grammar, symbol: u8) -> Name<'_>
        ensures { called result ≡ symbol_name (sheet grammar.now) symbol }
    {
        if symbol == 0 {
            return Name::Amount;
        }
        if let Some(spelling) = grammar.spelling(usize::from(symbol)) {
            return Name::Word(text(spelling));
        }
        if symbol == grammar.terminals() {
            return Name::Goal;
        }
        if symbol == grammar.right(0, 0) {
            return Name::Start;
        }
        Name::Other(symbol)
    }
}

impl fmt::Display for Name<'_> {
    ghost output = { λ name. Some (called name) };

    fn fmt<W: fmt::Write>(&self, f: &mut fmt::Formatter<W>) -> fmt::Result {
        match *self {
            Name::Amount => f.write_str("amount"),
            Name::Word(text) => f.write_str(text),
            Name::Goal => f.write_str("goal"),
            Name::Start => f.write_str("start"),
            Name::Other(symbol) => write!(f, "part-{symbol}"),
        }
    }
}
