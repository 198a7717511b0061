//! Why a recipe has no answer.
ghost use Rattle.std.specs.Prelude.{◌≡◌, Some};
ghost use Rattle.panel.specs.declared.fault.Fault.TheVariants.{TooLong, Grammar, Table, Reading};
ghost use Rattle.reader.specs.declared.fault.ThroughFault.TheVariants.{Reading as Itself};
ghost use Rattle.panel.specs.Faults.{place_of, refusal_of, outcome_of};
ghost use Rattle.panel.specs.Lines.{lines};

use grammar::{GrammarFault, Layer, Refusal};
use reader::{ReadingFault, ThroughFault};
use states::TableFault;
use std::fmt;

/// What is read, in the order in which it is looked at.
#[derive(Clone, Copy, PartialEq, Eq, Debug)]
pub enum Input {
    Grammar,
    Table,
    Words,
}

/// The faults, in the order in which they are looked for. The fault from below is carried whole.
#[derive(Clone, Copy, PartialEq, Eq, Debug)]
pub enum Fault {
    /// More bytes than are read.
    TooLong(Input),
    Grammar(GrammarFault),
    Table(TableFault),
    Reading(ThroughFault),
}

impl From<GrammarFault> for Fault {
    ghost from_gives = { λ f r. r ≡ Grammar f };

    fn from(fault: GrammarFault) -> Fault {
        Fault::Grammar(fault)
    }
}

impl From<TableFault> for Fault {
    ghost from_gives = { λ f r. r ≡ Table f };

    fn from(fault: TableFault) -> Fault {
        Fault::Table(fault)
    }
}

impl From<ThroughFault> for Fault {
    ghost from_gives = { λ f r. r ≡ Reading f };

    fn from(fault: ThroughFault) -> Fault {
        Fault::Reading(fault)
    }
}

impl From<ReadingFault> for Fault {
    ghost from_gives = { λ f r. r ≡ Reading (Itself f) };

    fn from(fault: ReadingFault) -> Fault {
        Fault::Reading(ThroughFault::Reading(fault))
    }
}

impl Input {
    /// The place that a refusal names.
    fn place(self) -> usize
        ensures { result ≡ place_of self }
    {
        match self {
            Input::Grammar => 1,
            Input::Table => 2,
            Input::Words => 3,
        }
    }
}

impl Fault {
    /// The refusal that the fault is shown as, without the bytes of a word.
    fn refusal(&self) -> Refusal
        ensures { result ≡ refusal_of self.now }
    {
        match self {
            Fault::TooLong(input) => Refusal {
                number: 55,
                layer: Layer::Program,
                first: input.place(),
                second: 0,
            },
            Fault::Grammar(fault) => fault.refusal(),
            Fault::Table(fault) => fault.refusal(),
            Fault::Reading(fault) => fault.refusal(),
        }
    }
}

impl fmt::Display for Fault {
    ghost output = { λ fault. Some (lines (outcome_of fault)) };

    fn fmt<W: fmt::Write>(&self, f: &mut fmt::Formatter<W>) -> fmt::Result {
        let refusal = self.refusal();
        match self {
            Fault::Reading(ThroughFault::Word(word)) => {
                let from = word.from;
                let to = word.to;
                write!(f, "{refusal} bytes {from} {to}\n")
            }
            _ => write!(f, "{refusal}\n"),
        }
    }
}
