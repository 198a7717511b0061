//! What ends a feed before its time.
ghost use Rattle.std.specs.Prelude.{◌≡◌};
ghost use Rattle.words.specs.Refusals.{refusal as told};

use grammar::{Layer, Refusal};

/// The faults of word feeds, each with the bytes from which and up to which it stands.
#[derive(Clone, Copy, PartialEq, Eq, Debug)]
pub enum FeedFault {
    /// A word of a text that is no spelling and not all digits.
    UnknownWord { from: usize, to: usize },
    /// An amount of more than five digits.
    LongAmount { from: usize, to: usize },
    /// A key that is no terminal.
    UnknownKey { from: usize, to: usize },
    /// An amount key without its two bytes.
    CutAmount { from: usize, to: usize },
}

impl From<FeedFault> for Refusal {
    ghost from_gives = { λ fault refusal. refusal ≡ told fault };

    fn from(fault: FeedFault) -> Refusal {
        let (number, first, second) = match fault {
            FeedFault::UnknownWord { from, to } => (51, from, to),
            FeedFault::LongAmount { from, to } => (52, from, to),
            FeedFault::UnknownKey { from, to } => (53, from, to),
            FeedFault::CutAmount { from, to } => (54, from, to),
        };
        Refusal {
            number,
            layer: Layer::Feed,
            first,
            second,
        }
    }
}

impl FeedFault {
    /// The refusal that the fault is shown as.
    pub fn refusal(&self) -> Refusal
        ensures { result ≡ told self.now }
    {
        Refusal::from(*self)
    }
}
