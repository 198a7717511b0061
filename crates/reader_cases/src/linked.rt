//! The links of kept words, as a reading tells of them.
use crate::sheets::reading_of;
use link_growth::Link;
use sample_sheets::{P, Q};
use std::process::Abort;
use std::test::Fail;

/// A state, its place, the state below, and its place.
type Four = (u8, u8, u8, u8);

/// Words, the number of their links, whether the words are a sentence, some links that are there, and some that are not.
#[derive(Clone, Copy)]
struct Case {
    words: &'static [usize],
    count: usize,
    sentence: bool,
    there: &'static [Four],
    not_there: &'static [Four],
}

/// What no word has made is not there, in whatever range the numbers are.
static OVER_P: [Case; 4] = [
    Case {
        words: &[],
        count: 0,
        sentence: false,
        there: &[],
        not_there: &[(0, 0, 0, 0), (1, 1, 0, 0), (2, 0, 0, 0)],
    },
    Case {
        words: &[0, 1],
        count: 3,
        sentence: true,
        there: &[(1, 1, 0, 0), (3, 2, 1, 1), (2, 2, 0, 0)],
        not_there: &[
            (3, 2, 1, 0),
            (3, 2, 0, 1),
            (3, 1, 1, 1),
            (1, 2, 1, 1),
            (2, 3, 0, 0),
            (255, 255, 255, 255),
        ],
    },
    Case {
        words: &[0, 1, 2, 0, 1],
        count: 8,
        sentence: true,
        there: &[(5, 5, 4, 3), (2, 5, 0, 0)],
        not_there: &[(2, 3, 0, 0), (5, 5, 4, 6)],
    },
    Case {
        words: &[0, 1, 2, 0, 1, 2, 0, 1],
        count: 15,
        sentence: true,
        there: &[(5, 8, 4, 3), (5, 8, 4, 6), (2, 8, 0, 0)],
        not_there: &[(5, 8, 4, 5)],
    },
];

/// Q has links before any word.
static OVER_Q: [Case; 2] = [
    Case {
        words: &[],
        count: 3,
        sentence: true,
        there: &[(2, 0, 0, 0), (3, 0, 2, 0), (3, 0, 3, 0)],
        not_there: &[(1, 0, 0, 0), (3, 0, 0, 0)],
    },
    Case {
        words: &[1],
        count: 11,
        sentence: true,
        there: &[(3, 1, 3, 1), (3, 1, 2, 1), (3, 1, 3, 0), (2, 1, 0, 0)],
        not_there: &[(2, 1, 0, 1), (1, 1, 2, 1)],
    },
];

/// A link by these four.
fn link(four: Four) -> Link {
    let (state, place, below, below_place) = four;
    Link {
        state,
        place,
        below,
        below_place,
    }
}

impl Case {
    /// A reading over the sheet tells all this.
    fn check(&self, rt: &impl Abort, sheet: &[u8]) -> Result<(), Fail> {
        let reading = reading_of(sheet, self.words)?;
        assert_eq!(rt; reading.words(), self.words.len());
        assert_eq!(rt; reading.count(), self.count);
        assert_eq!(rt; reading.judge()?, self.sentence);
        for four in self.there {
            assert!(rt; reading.link(link(*four)));
        }
        for four in self.not_there {
            assert!(rt; !reading.link(link(*four)));
        }
        Ok(())
    }
}

#[test]
fn links(rt: HostRuntime) -> Result<(), Fail> {
    for case in OVER_P {
        case.check(&rt, &P)?;
    }
    for case in OVER_Q {
        case.check(&rt, &Q)?;
    }
    Ok(())
}

/// Behind words that were given up, the links are those of the words that are left.
#[test]
fn links_behind_going_back(rt: HostRuntime) -> Result<(), Fail> {
    let mut reading = reading_of(&P, &[0, 1, 2, 0, 1, 2, 0, 1])?;
    reading.back(2)?;
    assert_eq!(rt; reading.words(), 2);
    assert_eq!(rt; reading.count(), 3);
    assert!(rt; reading.judge()?);
    assert!(rt; reading.link(link((2, 2, 0, 0))));
    assert!(rt; !reading.link(link((4, 3, 2, 2))));
    Ok(())
}
