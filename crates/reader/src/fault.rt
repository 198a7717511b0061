//! Why a call on a reading is refused.
ghost use Rattle.std.specs.Prelude.{◌≡◌};
ghost use Rattle.reader.specs.declared.fault.ReadingFault.TheVariants.{Gather};
ghost use Rattle.reader.specs.declared.fault.ThroughFault.TheVariants.{Feed, Reading, Word};
ghost use Rattle.reader.specs.Refusals.{refusal as told, through_refusal as shown};

use forest::GatherFault;
use grammar::{Layer, Refusal};
use links::TakeFault;
use words::FeedFault;

/// The faults of a reading, in the order of their numbers.
#[derive(Clone, Copy, PartialEq, Eq, Debug)]
pub enum ReadingFault {
    /// The reading is closed.
    Closed,
    /// A limit of links is 1 to 4,096.
    LimitRange,
    /// The links of no words are more than the limit.
    LimitTooLow,
    /// The terminal is not taken behind so many kept words.
    Take {
        fault: TakeFault,
        kept: usize,
        terminal: usize,
    },
    /// Fewer words are kept than those to go back to.
    BackBeyond {
        words: usize,
        kept: usize,
    },
    /// The forest is not gathered.
    Gather(GatherFault),
}

impl From<GatherFault> for ReadingFault {
    ghost from_gives = { λ f r. r ≡ Gather f };

    fn from(fault: GatherFault) -> ReadingFault {
        ReadingFault::Gather(fault)
    }
}

impl From<ReadingFault> for Refusal {
    ghost from_gives = { λ f r. r ≡ told f };

    fn from(fault: ReadingFault) -> Refusal {
        let (number, first, second) = match fault {
            ReadingFault::Closed => (40, 0, 0),
            ReadingFault::LimitRange => (41, 0, 0),
            ReadingFault::LimitTooLow => (42, 0, 0),
            ReadingFault::Take {
                fault,
                kept,
                terminal,
            } => (fault.number(), kept, terminal),
            ReadingFault::BackBeyond { words, kept } => (47, words, kept),
            ReadingFault::Gather(fault) => return fault.refusal(),
        };
        Refusal {
            number,
            layer: Layer::Reading,
            first,
            second,
        }
    }
}

impl ReadingFault {
    /// The refusal that the fault is shown as.
    pub fn refusal(&self) -> Refusal
        ensures { result ≡ told self.now }
    {
        Refusal::from(*self)
    }
}

/// A word of a feed that the reading refused, with the bytes from which and up to which it stands.
#[derive(Clone, Copy, PartialEq, Eq, Debug)]
pub struct WordRefused {
    pub fault: ReadingFault,
    pub from: usize,
    pub to: usize,
}

/// Why a read-through ends before its feed does. The fault from below is carried whole.
#[derive(Clone, Copy, PartialEq, Eq, Debug)]
pub enum ThroughFault {
    /// The fault of the feed.
    Feed(FeedFault),
    /// The fault of the reading itself.
    Reading(ReadingFault),
    /// The fault of the reading at a word.
    Word(WordRefused),
}

impl From<FeedFault> for ThroughFault {
    ghost from_gives = { λ f r. r ≡ Feed f };

    fn from(fault: FeedFault) -> ThroughFault {
        ThroughFault::Feed(fault)
    }
}

impl From<ReadingFault> for ThroughFault {
    ghost from_gives = { λ f r. r ≡ Reading f };

    fn from(fault: ReadingFault) -> ThroughFault {
        ThroughFault::Reading(fault)
    }
}

impl From<WordRefused> for ThroughFault {
    ghost from_gives = { λ w r. r ≡ Word w };

    fn from(refused: WordRefused) -> ThroughFault {
        ThroughFault::Word(refused)
    }
}

impl ThroughFault {
    /// The refusal that the fault is shown as, without the bytes of a word.
    pub fn refusal(&self) -> Refusal
        ensures { result ≡ shown self.now }
    {
        match self {
            ThroughFault::Feed(fault) => fault.refusal(),
            ThroughFault::Reading(fault) => fault.refusal(),
            ThroughFault::Word(refused) => refused.fault.refusal(),
        }
    }
}
