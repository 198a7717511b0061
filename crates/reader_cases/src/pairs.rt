//! A text and then a record of pressed keys, read on one reading.
use crate::answers::Answer;
use crate::forests::{ROOM, old_alternative, old_node};
use crate::sheets::{grammar_of, states_of};
use link_growth::Link;
use reader::{ReadingFault, WordRefused};
use replay::read_pair;
use sample_sheets::P;
use std::process::Abort;
use std::test::Fail;
use words::{KeyFeed, TextFeed};

/// A text and keys, and what comes of them with room to note one refused word: how many are noted, the answers, how many words and links there
/// are between the feeds, and how many words in the end.
#[derive(Clone, Copy)]
struct Case {
    text: &'static [u8],
    keys: &'static [u8],
    passed: usize,
    first: Answer,
    between: (usize, usize),
    second: Answer,
    back: Answer,
    judged: Answer,
    gathered: Answer,
    words: usize,
}

/// What is answered where nothing was refused, and the reading does not go back.
const NOT_ASKED: Answer = Answer::Strange;

static OVER_P: [Case; 3] = [
    // The second tea is passed over; the keys are: and, 1, tea.
    Case {
        text: b"1 tea tea",
        keys: b"\x02\0\0\x01\x01",
        passed: 1,
        first: Answer::Judged(true),
        between: (2, 3),
        second: Answer::Judged(true),
        back: NOT_ASKED,
        judged: Answer::Judged(true),
        gathered: Answer::Counted(3, 3),
        words: 5,
    },
    // The keys are: and, tea. They are read not at all.
    Case {
        text: b"1 tea",
        keys: b"\x02\x01",
        passed: 0,
        first: Answer::Judged(true),
        between: (2, 3),
        second: Answer::AtWord(45, 3, 1, 1, 2),
        back: Answer::Done,
        judged: Answer::Judged(true),
        gathered: Answer::Counted(1, 1),
        words: 2,
    },
    // There is no room to note the third tea.
    Case {
        text: b"1 tea tea tea and",
        keys: b"\x02",
        passed: 1,
        first: Answer::AtWord(45, 2, 1, 10, 13),
        between: (2, 3),
        second: Answer::Judged(false),
        back: NOT_ASKED,
        judged: Answer::Judged(false),
        gathered: Answer::Refused(48, 0, 0),
        words: 3,
    },
];

impl Case {
    /// It comes so.
    fn check(&self, rt: &impl Abort) -> Result<(), Fail> {
        let grammar = grammar_of(&P)?;
        let mut refused = [WordRefused {
            fault: ReadingFault::Closed,
            from: 0,
            to: 0,
        }];
        let (reading, report) = read_pair(
            states_of(&grammar)?,
            4096,
            &mut TextFeed::new(&grammar, self.text),
            &mut KeyFeed::new(&grammar, self.keys),
            Link {
                state: 1,
                place: 1,
                below: 0,
                below_place: 0,
            },
            &mut refused,
            &mut [old_node(); ROOM],
            &mut [old_alternative(); ROOM],
        );
        assert_eq!(rt; Answer::from(report.opened), Answer::Done);
        assert_eq!(rt; report.passed, self.passed);
        assert_eq!(rt; Answer::from(report.first), self.first);
        assert_eq!(rt; (report.words, report.links), self.between);
        assert!(rt; report.linked);
        assert_eq!(rt; Answer::from(report.second), self.second);
        assert_eq!(rt;
            report.back.map_or(NOT_ASKED, |back| Answer::from(back)),
            self.back
        );
        assert_eq!(rt; Answer::from(report.judged), self.judged);
        assert_eq!(rt; Answer::from(report.gathered), self.gathered);
        assert_eq!(rt; reading.words(), self.words);
        if self.passed > 0 {
            assert_eq!(rt; (refused[0].from, refused[0].to), (6, 9));
        }
        Ok(())
    }
}

#[test]
fn a_text_and_then_keys(rt: HostRuntime) -> Result<(), Fail> {
    for case in OVER_P {
        case.check(&rt)?;
    }
    Ok(())
}
