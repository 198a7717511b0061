//! Every nonterminal derives some list of terminals; the lowest that derives none is refused with 17.
use crate::answers::Answer::*;
use crate::tables::{Changed, Ruled, check_changed, check_ruled};

static DERIVES: [Ruled; 10] = [
    ("P", 2, &[(3, &[4]), (4, &[0, 1]), (4, &[4, 2, 4])], Read),
    (
        "P less rule 1",
        2,
        &[(3, &[4]), (4, &[4, 2, 4])],
        Refused(17, 3),
    ),
    (
        "5 has no rule",
        3,
        &[(3, &[4]), (4, &[0, 1])],
        Refused(17, 5),
    ),
    (
        "5 only derives itself",
        3,
        &[(3, &[4]), (4, &[0, 1]), (5, &[5])],
        Refused(17, 5),
    ),
    (
        "5 and 6 need each other",
        4,
        &[(3, &[4]), (4, &[0]), (5, &[6]), (6, &[5])],
        Refused(17, 5),
    ),
    (
        "6 can do without 5",
        4,
        &[(3, &[4]), (4, &[0]), (5, &[6]), (6, &[5]), (6, &[])],
        Read,
    ),
    (
        "4 needs 5",
        3,
        &[(3, &[4]), (4, &[0, 5]), (5, &[1, 5])],
        Refused(17, 3),
    ),
    (
        "4 can do without 5",
        3,
        &[(3, &[4]), (4, &[5]), (4, &[0]), (5, &[5])],
        Refused(17, 5),
    ),
    (
        "each needs the next one",
        4,
        &[(3, &[4]), (4, &[5]), (5, &[6]), (6, &[0])],
        Read,
    ),
    (
        "nothing is a list too",
        3,
        &[(3, &[4]), (4, &[5, 5]), (5, &[])],
        Read,
    ),
];

/// Rule 1 needs its own left symbol.
static ORDER: [Changed; 3] = [
    ("nothing else", &[(23, 4)], Refused(17, 3)),
    (
        "`and` is `tea` too",
        &[(23, 4), (45, b't'), (46, b'e'), (47, b'a')],
        Refused(16, 2),
    ),
    ("`and` has a blank", &[(23, 4), (45, b' ')], Refused(15, 2)),
];

#[test]
fn every_nonterminal_derives_some_list(rt: HostRuntime) {
    check_ruled(&rt, &DERIVES);
    check_changed(&rt, &ORDER);
}
