//! Why a forest is not gathered.
ghost use Rattle.std.specs.Prelude.{◌≡◌};
ghost use Rattle.forest.specs.Refusals.{refusal as told};

use grammar::{Layer, Refusal};

/// The faults of a gathering, in the order in which they are looked for.
#[derive(Clone, Copy, PartialEq, Eq, Debug)]
pub enum GatherFault {
    /// The words are not a sentence.
    NoSentence,
    /// The list of nodes is too short.
    NodesShort,
    /// The list of alternatives is too short.
    AlternativesShort,
}

impl From<GatherFault> for Refusal {
    ghost from_gives = { λ f r. r ≡ told f };

    fn from(fault: GatherFault) -> Refusal {
        let number = match fault {
            GatherFault::NoSentence => 48,
            GatherFault::NodesShort => 49,
            GatherFault::AlternativesShort => 50,
        };
        Refusal {
            number,
            layer: Layer::Reading,
            first: 0,
            second: 0,
        }
    }
}

impl GatherFault {
    /// The refusal that the fault is shown as.
    pub fn refusal(&self) -> Refusal
        ensures { result ≡ told self.now }
    {
        Refusal::from(*self)
    }
}
