//! The spellings: their form, refused with 15, and no two alike, refused with 16.
use crate::answers::Answer::*;
use crate::answers::{Answer, check_answer};
use crate::tables::{Changed, Spelled, check_changed, check_spelled, spelled};

/// The spelling of terminal 1, and the answer to the sheet.
static FORMS: [(&str, Answer); 29] = [
    ("", Refused(15, 1)),
    ("a", Read),
    ("marshmallows", Read),
    ("blackcurrants", Refused(15, 1)),
    ("\x00", Refused(15, 1)),
    ("\t", Refused(15, 1)),
    ("\n", Refused(15, 1)),
    ("\x1f", Refused(15, 1)),
    (" ", Refused(15, 1)),
    ("te a", Refused(15, 1)),
    ("tea ", Refused(15, 1)),
    ("!", Read),
    ("\"", Read),
    ("#", Refused(15, 1)),
    ("#tea", Refused(15, 1)),
    ("tea#", Refused(15, 1)),
    ("$", Read),
    ("~", Read),
    ("\x7f", Refused(15, 1)),
    ("té", Refused(15, 1)),
    ("€", Refused(15, 1)),
    ("0", Refused(15, 1)),
    ("12", Refused(15, 1)),
    ("999999999999", Refused(15, 1)),
    ("1a", Read),
    ("a1", Read),
    ("1.5", Read),
    ("/", Read),
    (":", Read),
];

static ENDS: [Spelled; 9] = [
    ("the amount alone", 1, &[""], Read),
    ("the amount has a byte", 1, &["a"], Refused(15, 0)),
    ("the rules end the sheet", 3, &[], Refused(15, 0)),
    ("the last one lacks", 3, &["", "a"], Refused(15, 2)),
    ("one is left over", 2, &["", "a", "b"], Refused(15, 2)),
    ("a 0 is left over", 2, &["", "a", ""], Refused(15, 2)),
    ("amount before 1", 2, &["a", "#"], Refused(15, 0)),
    ("1 before 2", 3, &["", "12", "#"], Refused(15, 1)),
    ("form before the end", 2, &["", "#", "a"], Refused(15, 1)),
];

static CUTS: [Changed; 5] = [
    ("the amount has length 1", &[(39, 1)], Refused(15, 0)),
    ("`tea` runs past the end", &[(40, 8)], Refused(15, 1)),
    ("`tea` runs up to the end", &[(40, 7)], Refused(15, 1)),
    ("`and` runs past the end", &[(44, 4)], Refused(15, 2)),
    ("`and` leaves a byte over", &[(44, 2)], Refused(15, 3)),
];

static REPEATS: [Spelled; 10] = [
    ("twice", 3, &["", "tea", "tea"], Refused(16, 2)),
    ("twice apart", 4, &["", "a", "b", "a"], Refused(16, 3)),
    ("thrice", 4, &["", "a", "a", "a"], Refused(16, 2)),
    ("two, crossed", 5, &["", "a", "b", "b", "a"], Refused(16, 3)),
    ("a capital", 3, &["", "tea", "Tea"], Read),
    ("one more letter", 3, &["", "tea", "teas"], Read),
    ("one letter less", 3, &["", "tea", "te"], Read),
    ("the same letters", 3, &["", "tea", "eat"], Read),
    ("form before", 4, &["", "a", "a", "12"], Refused(15, 3)),
    ("end before", 3, &["", "a", "a", ""], Refused(15, 3)),
];

#[test]
fn spellings_have_one_to_twelve_visible_bytes_and_not_all_digits(rt: HostRuntime) {
    for (spelling, answer) in &FORMS {
        check_answer(
            &rt,
            spelled(2, &["", *spelling]).sheet(2, 2),
            *answer,
            *spelling,
        );
    }
}

#[test]
fn spellings_go_by_terminal_and_end_with_the_sheet(rt: HostRuntime) {
    check_spelled(&rt, &ENDS);
    check_changed(&rt, &CUTS);
}

#[test]
fn no_two_terminals_are_spelled_alike(rt: HostRuntime) {
    check_spelled(&rt, &REPEATS);
}
