//! Each refusal of a reading, and that nothing has changed then.
use crate::answers::Answer::{AtWord, Counted, Done, Judged, OfFeed, Refused};
use crate::calls::Call::{Back, Gather, Judge, Open, Read, Take};
use crate::calls::Script;
use crate::sheets::{L, grammar_of, reading_of};
use sample_sheets::{P, P_TABLE, Q};
use std::test::Fail;
use tables::Table;

/// The scripts over P.
pub static OVER_P: [Script; 7] = [
    Script {
        what: "closed",
        calls: &[
            (Take(0), Refused(40, 0, 0), 0, 0),
            (Take(usize::MAX), Refused(40, 0, 0), 0, 0),
            (Back(0), Refused(40, 0, 0), 0, 0),
            (Back(3), Refused(40, 0, 0), 0, 0),
            (Judge, Refused(40, 0, 0), 0, 0),
            (Gather(0, 0), Refused(40, 0, 0), 0, 0),
            (Read(b"2 cups"), Refused(40, 0, 0), 0, 0),
        ],
    },
    Script {
        what: "the limits that may be",
        calls: &[
            (Open(0), Refused(41, 0, 0), 0, 0),
            (Open(4097), Refused(41, 0, 0), 0, 0),
            (Judge, Refused(40, 0, 0), 0, 0),
            (Open(1), Done, 0, 0),
            (Take(0), Done, 1, 1),
            (Take(1), Refused(46, 1, 1), 1, 1),
            (Open(usize::MAX), Refused(41, 0, 0), 1, 1),
            (Judge, Judged(false), 1, 1),
            (Open(4096), Done, 0, 0),
        ],
    },
    Script {
        what: "terminals that are none, and no step",
        calls: &[
            (Open(4096), Done, 0, 0),
            (Take(3), Refused(44, 0, 3), 0, 0),
            (Take(256), Refused(44, 0, 256), 0, 0),
            (Take(usize::MAX), Refused(44, 0, usize::MAX), 0, 0),
            (Take(1), Refused(45, 0, 1), 0, 0),
            (Take(0), Done, 1, 1),
            (Take(0), Refused(45, 1, 0), 1, 1),
            (Take(2), Refused(45, 1, 2), 1, 1),
            (Take(1), Done, 2, 3),
        ],
    },
    Script {
        what: "a limit that suffices",
        calls: &[
            (Open(8), Done, 0, 0),
            (Read(b"1 tea and 2 tea"), Judged(true), 5, 8),
            (Back(2), Done, 2, 3),
            (Judge, Judged(true), 2, 3),
            (Take(2), Done, 3, 4),
            (Take(0), Done, 4, 5),
            (Take(1), Done, 5, 8),
        ],
    },
    Script {
        what: "a limit of one less",
        calls: &[
            (Open(7), Done, 0, 0),
            (Take(0), Done, 1, 1),
            (Take(1), Done, 2, 3),
            (Take(2), Done, 3, 4),
            (Take(0), Done, 4, 5),
            (Take(1), Refused(46, 4, 1), 4, 5),
            (Take(9), Refused(44, 4, 9), 4, 5),
            (Read(b"tea"), AtWord(46, 4, 1, 0, 3), 4, 5),
            (Judge, Judged(false), 4, 5),
        ],
    },
    Script {
        what: "going back",
        calls: &[
            (Open(4096), Done, 0, 0),
            (Take(0), Done, 1, 1),
            (Take(1), Done, 2, 3),
            (Back(3), Refused(47, 3, 2), 2, 3),
            (Back(usize::MAX), Refused(47, usize::MAX, 2), 2, 3),
            (Back(2), Done, 2, 3),
            (Back(0), Done, 0, 0),
            (Back(1), Refused(47, 1, 0), 0, 0),
        ],
    },
    Script {
        what: "gathering",
        calls: &[
            (Open(4096), Done, 0, 0),
            (Gather(8, 8), Refused(48, 0, 0), 0, 0),
            (Take(0), Done, 1, 1),
            (Take(1), Done, 2, 3),
            (Gather(0, 8), Refused(49, 0, 0), 2, 3),
            (Gather(1, 0), Refused(50, 0, 0), 2, 3),
            (Gather(1, 1), Counted(1, 1), 2, 3),
            (Read(b"and cups"), OfFeed(51, 4, 8), 3, 4),
            (Gather(0, 0), Refused(48, 0, 0), 3, 4),
        ],
    },
];

/// The scripts over Q, which has links before any word.
pub static OVER_Q: [Script; 2] = [
    Script {
        what: "a limit that is too low for no words",
        calls: &[
            (Open(2), Refused(42, 0, 0), 0, 0),
            (Judge, Refused(40, 0, 0), 0, 0),
            (Open(3), Done, 0, 3),
            (Judge, Judged(true), 0, 3),
            (Take(1), Refused(46, 0, 1), 0, 3),
        ],
    },
    Script {
        what: "an open that is refused",
        calls: &[
            (Open(11), Done, 0, 3),
            (Take(1), Done, 1, 11),
            (Open(2), Refused(42, 0, 0), 1, 11),
            (Take(1), Refused(46, 1, 1), 1, 11),
            (Judge, Judged(true), 1, 11),
            (Gather(3, 7), Counted(3, 7), 1, 11),
            (Open(3), Done, 0, 3),
        ],
    },
];

#[test]
fn over_p(rt: HostRuntime) -> Result<(), Fail> {
    for script in OVER_P {
        script.check(&rt, &P)?;
    }
    Ok(())
}

/// The states of a table that passes its check are read over alike.
#[test]
fn over_the_table_of_p(rt: HostRuntime) -> Result<(), Fail> {
    let grammar = grammar_of(&P)?;
    for script in OVER_P {
        let Ok(table) = Table::check(&grammar, &P_TABLE) else {
            return Err(Fail::new("the table is refused"));
        };
        script.check_over(&rt, &grammar, table)?;
    }
    Ok(())
}

#[test]
fn over_q(rt: HostRuntime) -> Result<(), Fail> {
    for script in OVER_Q {
        script.check(&rt, &Q)?;
    }
    Ok(())
}

/// A full reading takes no word, whatever its terminal.
#[test]
fn words_are_at_most_254(rt: HostRuntime) -> Result<(), Fail> {
    let grammar = grammar_of(&L)?;
    let mut reading = reading_of(&L, &[1; 254])?;
    let last = [
        (Take(1), Refused(43, 254, 1), 254, 508),
        (Take(9), Refused(43, 254, 9), 254, 508),
        (Read(b" b"), AtWord(43, 254, 1, 1, 2), 254, 508),
        (Judge, Judged(true), 254, 508),
        (Back(255), Refused(47, 255, 254), 254, 508),
        (Back(253), Done, 253, 506),
        (Read(b"b b"), AtWord(43, 254, 1, 2, 3), 254, 508),
    ];
    for (call, answer, words, count) in last {
        assert_eq!(rt; call.make(&mut reading, &grammar), answer);
        assert_eq!(rt; reading.words(), words);
        assert_eq!(rt; reading.count(), count);
    }
    Ok(())
}
