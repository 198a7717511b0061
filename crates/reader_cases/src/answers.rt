//! What a reading answers to a call.
use grammar::{Layer, Refusal};
use reader::{Counts, ReadingFault, ThroughFault};
use replay::Told;

/// The answer to a call.
#[derive(Clone, Copy, PartialEq, Eq, Debug)]
pub enum Answer {
    Done,
    Judged(bool),
    /// How many nodes and alternatives.
    Counted(usize, usize),
    /// The number of a refusal of the reading, and its places.
    Refused(u8, usize, usize),
    /// The number of a refusal of the reading at a word, its places, and the bytes of the word.
    AtWord(u8, usize, usize, usize, usize),
    /// The number of a refusal of the feed, and its places.
    OfFeed(u8, usize, usize),
    /// Anything else.
    Strange,
}

impl From<Refusal> for Answer {
    fn from(refusal: Refusal) -> Answer {
        match refusal {
            Refusal {
                number,
                layer: Layer::Reading,
                first,
                second,
            } => Answer::Refused(number, first, second),
            Refusal {
                number,
                layer: Layer::Feed,
                first,
                second,
            } => Answer::OfFeed(number, first, second),
            _ => Answer::Strange,
        }
    }
}

impl From<ThroughFault> for Answer {
    fn from(fault: ThroughFault) -> Answer {
        match (fault, Answer::from(fault.refusal())) {
            (ThroughFault::Word(word), Answer::Refused(number, first, second)) => {
                Answer::AtWord(number, first, second, word.from, word.to)
            },
            (ThroughFault::Word(_), _) => Answer::Strange,
            (_, answer) => answer,
        }
    }
}

impl From<Result<(), ReadingFault>> for Answer {
    fn from(told: Result<(), ReadingFault>) -> Answer {
        match told {
            Ok(()) => Answer::Done,
            Err(fault) => Answer::from(fault.refusal()),
        }
    }
}

impl From<Result<bool, ReadingFault>> for Answer {
    fn from(told: Result<bool, ReadingFault>) -> Answer {
        match told {
            Ok(yes) => Answer::Judged(yes),
            Err(fault) => Answer::from(fault.refusal()),
        }
    }
}

impl From<Result<bool, ThroughFault>> for Answer {
    fn from(told: Result<bool, ThroughFault>) -> Answer {
        match told {
            Ok(yes) => Answer::Judged(yes),
            Err(fault) => Answer::from(fault),
        }
    }
}

impl From<Result<Counts, ReadingFault>> for Answer {
    fn from(told: Result<Counts, ReadingFault>) -> Answer {
        match told {
            Ok(counts) => Answer::Counted(counts.nodes, counts.alternatives),
            Err(fault) => Answer::from(fault.refusal()),
        }
    }
}

impl From<Told> for Answer {
    fn from(told: Told) -> Answer {
        match told {
            Told::Done(done) => Answer::from(done),
            Told::Judged(judged) => Answer::from(judged),
            Told::ReadThrough(through) => Answer::from(through),
            Told::Gathered(gathered) => Answer::from(gathered),
        }
    }
}
