//! Table sheets of P: the right one, others like it with one thing wrong, and one with other numbers for the states.
use crate::answers::{Refused, answer};
use grammar::Grammar;
use sample_sheets::{P, P_IDLE, P_SECOND_FOUR, P_TABLE};
use std::test::Fail;

/// A byte that is put into the table of P, and the answer then.
static CASES: [(usize, u8, Refused); 17] = [
    (1, 61, Refused(20, 0, 0)),
    (3, 0, Refused(21, 0, 0)),
    (2, 1, Refused(21, 0, 0)),
    (5, 4, Refused(21, 0, 0)),
    (7, 2, Refused(21, 0, 0)),
    (3, 255, Refused(22, 0, 0)),
    (9, 13, Refused(22, 0, 0)),
    (11, 43, Refused(22, 0, 0)),
    (12, 6, Refused(23, 12, 0)),
    (41, 254, Refused(23, 41, 0)),
    (42, 2, Refused(23, 42, 0)),
    (29, 4, Refused(24, 3, 2)),
    (39, 255, Refused(25, 5, 2)),
    (39, 2, Refused(26, 5, 2)),
    (16, 1, Refused(26, 0, 4)),
    (42, 1, Refused(28, 0, 0)),
    (59, 0, Refused(28, 5, 2)),
];

/// Whole sheets for P, and the answer to each.
static SHEETS: [(&[u8], Result<(), Refused>); 3] = [
    // The state k, for each but 0, is called 6 - k.
    (
        b"\
        \x00\x3c\x00\x06\x00\x05\x00\x03\x00\x0c\x00\x2a\
        \x05\xff\xff\xff\x04\
        \xff\xff\x02\xff\xff\
        \x05\xff\xff\xff\x01\
        \xff\xff\xff\xff\xff\
        \xff\xff\x02\xff\xff\
        \xff\x03\xff\xff\xff\
        \x00\x00\x00\
        \x00\x00\x01\
        \x00\x00\x00\
        \x00\x01\x00\
        \x01\x00\x00\
        \x00\x00\x00",
        Ok(()),
    ),
    // A byte too many, which the header tells.
    (
        b"\
        \x00\x3d\x00\x06\x00\x05\x00\x03\x00\x0c\x00\x2a\
        \x01\xff\xff\xff\x02\
        \xff\x03\xff\xff\xff\
        \xff\xff\x04\xff\xff\
        \xff\xff\xff\xff\xff\
        \x01\xff\xff\xff\x05\
        \xff\xff\x04\xff\xff\
        \x00\x00\x00\
        \x00\x00\x00\
        \x01\x00\x00\
        \x00\x01\x00\
        \x00\x00\x00\
        \x00\x00\x01\
        \x00",
        Err(Refused(22, 0, 0)),
    ),
    // One state alone, with no steps and no marks.
    (
        b"\
        \x00\x14\x00\x01\x00\x05\x00\x03\x00\x0c\x00\x11\
        \xff\xff\xff\xff\xff\
        \x00\x00\x00",
        Err(Refused(25, 0, 0)),
    ),
];

#[test]
fn a_wrong_byte_is_told_with_its_places(rt: HostRuntime) -> Result<(), Fail> {
    let grammar = Grammar::read(&P)?;
    assert_eq!(rt; answer(&grammar, &P_TABLE), Ok(()));
    for (offset, byte, refused) in CASES {
        let mut sheet = P_TABLE;
        assert!(rt; offset < 60);
        sheet[offset] = byte;
        assert_eq!(rt; answer(&grammar, &sheet), Err(refused), "{offset}");
    }
    Ok(())
}

#[test]
fn whole_sheets_are_answered(rt: HostRuntime) -> Result<(), Fail> {
    let grammar = Grammar::read(&P)?;
    for (sheet, expected) in SHEETS {
        assert_eq!(rt; answer(&grammar, sheet), expected);
    }
    assert_eq!(rt; answer(&grammar, &P_SECOND_FOUR), Err(Refused(27, 5, 2)));
    assert_eq!(rt; answer(&grammar, &P_IDLE), Err(Refused(29, 6, 0)));
    Ok(())
}

#[test]
fn a_sheet_that_is_cut_short_is_refused(rt: HostRuntime) -> Result<(), Fail> {
    let grammar = Grammar::read(&P)?;
    for length in 0..60 {
        assert_eq!(rt;
            answer(&grammar, &P_TABLE[0..length]),
            Err(Refused(20, 0, 0)),
            "{length}"
        );
    }
    Ok(())
}
