//! What every refusal tells: its number, the layer that refused, and two places. It is shown in one line, as `refused 13 grammar 2 0`.
ghost use Rattle.std.specs.Prelude.{Some};
ghost use Rattle.grammar.specs.Lines.{layer_name, refusal_line};

use std::fmt;

/// The layer that refused.
#[derive(Clone, Copy, PartialEq, Eq, Debug)]
pub enum Layer {
    Grammar,
    Table,
    Reading,
    Feed,
    Program,
}

/// A refusal as it is shown; a place that the refusal does not name is 0.
#[derive(Clone, Copy, PartialEq, Eq, Debug)]
pub struct Refusal {
    // A number, since it is what is shown: the faults behind it are enums.
    pub number: u8,
    pub layer: Layer,
    pub first: usize,
    pub second: usize,
}

impl fmt::Display for Layer {
    ghost output = { λ layer. Some (layer_name layer) };

    fn fmt<W: fmt::Write>(&self, f: &mut fmt::Formatter<W>) -> fmt::Result {
        match self {
            Layer::Grammar => write!(f, "grammar"),
            Layer::Table => write!(f, "table"),
            Layer::Reading => write!(f, "reading"),
            Layer::Feed => write!(f, "feed"),
            Layer::Program => write!(f, "program"),
        }
    }
}

impl fmt::Display for Refusal {
    ghost output = { λ refusal. Some (refusal_line refusal) };

    fn fmt<W: fmt::Write>(&self, f: &mut fmt::Formatter<W>) -> fmt::Result {
        let Refusal {
            number,
            layer,
            first,
            second,
        } = *self;
        write!(f, "refused {number} {layer} {first} {second}")
    }
}
