//! Reading feeds through, and what comes of the feed afterwards.
use crate::answers::Answer;
use crate::sheets::{grammar_of, reading_of, states_of};
use reader::Reading;
use sample_sheets::P;
use std::process::Abort;
use std::test::Fail;
use words::{FeedFault, KeyFeed, TextFeed, Word, WordFeed};

/// The answer to a read-through over P, how many words are kept then, and links, and what the feed gives next.
struct Through {
    answer: Answer,
    words: usize,
    count: usize,
    next: Result<Option<Word>, FeedFault>,
}

static TEXTS: [(&[u8], Through); 6] = [
    (
        b"1 tea and 2 tea",
        Through {
            answer: Answer::Judged(true),
            words: 5,
            count: 8,
            next: Ok(None),
        },
    ),
    (
        b"1 tea and",
        Through {
            answer: Answer::Judged(false),
            words: 3,
            count: 4,
            next: Ok(None),
        },
    ),
    (
        b"",
        Through {
            answer: Answer::Judged(false),
            words: 0,
            count: 0,
            next: Ok(None),
        },
    ),
    (
        b"2 tea tea",
        Through {
            answer: Answer::AtWord(45, 2, 1, 6, 9),
            words: 2,
            count: 3,
            next: Ok(None),
        },
    ),
    (
        b"2 tea tea and 3",
        Through {
            answer: Answer::AtWord(45, 2, 1, 6, 9),
            words: 2,
            count: 3,
            next: Ok(Some(Word {
                terminal: 2,
                amount: 0,
                from: 10,
                to: 13,
            })),
        },
    ),
    (
        b"2 cups",
        Through {
            answer: Answer::OfFeed(51, 2, 6),
            words: 1,
            count: 1,
            next: Err(FeedFault::UnknownWord { from: 2, to: 6 }),
        },
    ),
];

static RECORDS: [(&[u8], Through); 4] = [
    (
        &[0, 0, 1, 1, 2, 0, 0, 2, 1],
        Through {
            answer: Answer::Judged(true),
            words: 5,
            count: 8,
            next: Ok(None),
        },
    ),
    (
        &[0, 0, 2, 1, 1, 2],
        Through {
            answer: Answer::AtWord(45, 2, 1, 4, 5),
            words: 2,
            count: 3,
            next: Ok(Some(Word {
                terminal: 2,
                amount: 0,
                from: 5,
                to: 6,
            })),
        },
    ),
    (
        &[0, 0, 2, 40],
        Through {
            answer: Answer::OfFeed(53, 3, 4),
            words: 1,
            count: 1,
            next: Err(FeedFault::UnknownKey { from: 3, to: 4 }),
        },
    ),
    (
        &[0, 0],
        Through {
            answer: Answer::OfFeed(54, 0, 2),
            words: 0,
            count: 0,
            next: Err(FeedFault::CutAmount { from: 0, to: 2 }),
        },
    ),
];

impl Through {
    /// A feed is read through so.
    fn check<F: WordFeed>(&self, rt: &impl Abort, feed: &mut F) -> Result<(), Fail> {
        let mut reading = reading_of(&P, &[])?;
        assert_eq!(rt; Answer::from(reading.read_through(feed)), self.answer);
        assert_eq!(rt; reading.words(), self.words);
        assert_eq!(rt; reading.count(), self.count);
        assert_eq!(rt; feed.next_word(), self.next);
        Ok(())
    }
}

#[test]
fn texts(rt: HostRuntime) -> Result<(), Fail> {
    let grammar = grammar_of(&P)?;
    for (text, through) in &TEXTS {
        through.check(&rt, &mut TextFeed::new(&grammar, text))?;
    }
    Ok(())
}

#[test]
fn records(rt: HostRuntime) -> Result<(), Fail> {
    let grammar = grammar_of(&P)?;
    for (record, through) in &RECORDS {
        through.check(&rt, &mut KeyFeed::new(&grammar, record))?;
    }
    Ok(())
}

/// The words that are kept before stay in front of those of the feed.
#[test]
fn behind_kept_words(rt: HostRuntime) -> Result<(), Fail> {
    let grammar = grammar_of(&P)?;
    let mut reading = reading_of(&P, &[0, 1])?;
    assert!(rt; reading.read_through(&mut TextFeed::new(&grammar, b"and 2 tea"))?);
    assert_eq!(rt; reading.words(), 5);
    assert_eq!(rt; reading.count(), 8);
    Ok(())
}

/// While closed, the feed is not asked.
#[test]
fn closed(rt: HostRuntime) -> Result<(), Fail> {
    let grammar = grammar_of(&P)?;
    let mut reading = Reading::new(states_of(&grammar)?);
    let mut feed = TextFeed::new(&grammar, b"tea and");
    assert_eq!(rt;
        Answer::from(reading.read_through(&mut feed)),
        Answer::Refused(40, 0, 0)
    );
    assert_eq!(rt; reading.words(), 0);
    assert_eq!(rt;
        feed.next_word(),
        Ok(Some(Word {
            terminal: 1,
            amount: 0,
            from: 0,
            to: 3,
        }))
    );
    Ok(())
}
