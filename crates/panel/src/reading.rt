//! One reading of a feed.
ghost use Rattle.reader.specs.Readings.{held};
ghost use Rattle.panel.specs.Answers.{outcome};
ghost use Rattle.panel.specs.Gathered.{GathersHeld};
ghost use Rattle.panel.specs.Outcomes.{Answered};

use crate::answer::Answer;
use crate::fault::Fault;
use crate::gathered::{ALTERNATIVES, Forest};
use reader::Reading;
use records::{Alternative, Node};
use states::StateSource;
use words::WordFeed;

/// How many links a reading may have.
const LINKS: usize = 4096;

/// How many nodes there is room for.
const NODES: usize = 512;

/// The forest of the words that a reading keeps.
fn gathered<S: StateSource>(reading: &Reading<S>) -> Result<Forest, Fault>
    ensures { GathersHeld (S.meaning reading.now.source) (held reading.now) result }
{
    let mut nodes = [Node::blank(); NODES];
    let mut list = [Alternative::blank(); ALTERNATIVES];
    let counts = reading.gather(&mut nodes, &mut list)?;
    Ok(Forest { counts, list })
}

/// Reads a feed through over a source of states; where its words are a sentence, their forest is gathered.
pub(crate) fn answer<S: StateSource + Drop, F: WordFeed>(
    source: S,
    feed: &mut F,
) -> Result<Answer, Fault>
    ensures { Answered (S.meaning source) (F.coming feed.old) (outcome result) }
{
    let mut reading = Reading::new(source);
    reading.open(LINKS)?;
    let sentence = reading.read_through(feed)?;
    let words = reading.words();
    let links = reading.count();
    if !sentence {
        return Ok(Answer {
            words,
            links,
            forest: None,
        });
    }
    let forest = gathered(&reading)?;
    Ok(Answer {
        words,
        links,
        forest: Some(forest),
    })
}
