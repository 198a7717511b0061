//! Two feeds on one reading: what can be read of the first, and behind it the second, whole or not at all.
ghost use Rattle.std.specs.Prelude.{◌≡◌, ◌≤◌, ◌↔◌, length, take, drop, Err, OnErr, IsErr, IsSome};
ghost use Rattle.histories.specs.Questions.{word_count};
ghost use Rattle.histories.specs.Histories.{History};
ghost use Rattle.reader.specs.declared.fault.ThroughFault.TheVariants.{Word};
ghost use Rattle.reader.specs.declared.fault.WordRefused.{WordRefused};
ghost use Rattle.reader.specs.Readings.{held};
ghost use Rattle.reader.specs.Replies.{through};
ghost use Rattle.replay.specs.Chains.{Leads};
ghost use Rattle.replay.specs.Pairs.{ReadsPast, whole, PairRead};

use crate::law::histories_are_right;
use link_growth::Link;
use reader::{Counts, Reading, ReadingFault, ThroughFault, WordRefused};
use records::{Alternative, Node};
use states::StateSource;
use words::WordFeed;

/// What came of reading two feeds.
#[derive(Clone, Copy, PartialEq, Eq, Debug)]
pub struct Report {
    pub opened: Result<(), ReadingFault>,
    /// How many words of the first feed were refused and passed over.
    pub passed: usize,
    /// What the first feed was answered in the end.
    pub first: Result<bool, ThroughFault>,
    /// How many words were kept between the feeds, and links, and whether a link was there.
    pub words: usize,
    pub links: usize,
    pub linked: bool,
    pub second: Result<bool, ThroughFault>,
    /// The answer of going back, where the second feed was refused.
    pub back: Option<Result<(), ReadingFault>>,
    pub judged: Result<bool, ReadingFault>,
    pub gathered: Result<Counts, ReadingFault>,
}

/// Reads a feed through, and on behind each word that is refused, as long as there is room to note them. Answers what was told last, and how
/// many words were noted.
fn read_past<S: StateSource, F: WordFeed>(
    reading: &mut Reading<S>,
    feed: &mut F,
    refused: &mut [WordRefused],
) -> (Result<bool, ThroughFault>, usize)
    ensures reads { (s : S) (h : History) → Leads S.meaning s h reading.old
        → ReadsPast S.meaning s h (F.coming feed.old) (take result.1 refused.new) (through result.0) (F.coming feed.new) reading.new }
    ensures within { result.1 ≤ length refused.new }
    // It ends at a refused word only where there is no more room.
    ensures room { (w : WordRefused) → result.0 ≡ Err (Word w) → result.1 ≡ length refused.new }
    ensures stays { drop result.1 refused.new ≡ drop result.1 refused.old }
{
    for i in 0..refused.len() {
        let told = reading.read_through(feed);
        let Err(ThroughFault::Word(word)) = told else {
            return (told, i);
        };
        refused[i] = word;
    }
    (reading.read_through(feed), refused.len())
}

/// Reads a feed through. Where that is refused, it goes back to the words that were kept before.
fn read_whole<S: StateSource, F: WordFeed>(
    reading: &mut Reading<S>,
    feed: &mut F,
) -> (Result<bool, ThroughFault>, Option<Result<(), ReadingFault>>)
    ensures back { IsSome result.1 ↔ IsErr result.0 }
    ensures undone { OnErr result.0 (held reading.new ≡ held reading.old) }
    ensures leads { (s : S) (h : History) → Leads S.meaning s h reading.old
        → Leads S.meaning s (whole h (word_count (held reading.old)) (F.coming feed.old) (through result.0) (F.coming feed.new) result.1) reading.new }
{
    let kept = reading.words();
    let told = reading.read_through(feed);
    if told.is_ok() {
        return (told, None);
    }
    (told, Some(reading.back(kept)))
}

/// Opens a reading over the source. Of the first feed it reads what can be read: a word that is refused is noted and passed over, as long as
/// there is room for notes. The second feed is read behind it, whole or not at all. Then it judges, and gathers into the two lists.
pub fn read_pair<S: StateSource, A: WordFeed, B: WordFeed>(
    source: S,
    limit: usize,
    first: &mut A,
    second: &mut B,
    link: Link,
    refused: &mut [WordRefused],
    nodes: &mut [Node],
    alternatives: &mut [Alternative],
) -> (Reading<S>, Report)
    ensures reads { PairRead S.meaning source limit link
        (record { first = A.coming first.old; second = B.coming second.old; nodes = nodes.old; alternatives = alternatives.old })
        (take result.1.passed refused.new) result.1
        (record { first = A.coming first.new; second = B.coming second.new; nodes = nodes.new; alternatives = alternatives.new })
        result.0 }
    // A word of the first feed is the last that is read only where there is no more room to note it.
    ensures room { (w : WordRefused) → result.1.first ≡ Err (Word w) → result.1.passed ≡ length refused.new }
    ensures stays { drop result.1.passed refused.new ≡ drop result.1.passed refused.old }
{
    histories_are_right(&source);
    let mut reading = Reading::new(source);
    let opened = reading.open(limit);
    let (told, passed) = read_past(&mut reading, first, refused);
    let words = reading.words();
    let links = reading.count();
    let linked = reading.link(link);
    let (whole, back) = read_whole(&mut reading, second);
    let judged = reading.judge();
    let gathered = reading.gather(nodes, alternatives);
    let report = Report {
        opened,
        passed,
        first: told,
        words,
        links,
        linked,
        second: whole,
        back,
        judged,
        gathered,
    };
    (reading, report)
}
