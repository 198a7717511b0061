//! The rules: their form, refused with 13, and the place of the goal, refused with 14.
use crate::answers::Answer::*;
use crate::tables::{Changed, check_changed};

static FORMS: [Changed; 25] = [
    ("left the amount", &[(21, 0)], Refused(13, 1)),
    ("left a terminal", &[(21, 2)], Refused(13, 1)),
    ("left too high", &[(21, 5)], Refused(13, 1)),
    ("left 255", &[(21, 255)], Refused(13, 1)),
    ("length 8", &[(22, 8)], Refused(13, 1)),
    ("length 255", &[(22, 255)], Refused(13, 1)),
    ("length over the symbols", &[(22, 3)], Refused(13, 1)),
    ("length under the symbols", &[(22, 1)], Refused(13, 1)),
    (
        "no symbols",
        &[(31, 0), (32, 255), (33, 255), (34, 255)],
        Read,
    ),
    (
        "seven symbols",
        &[(31, 7), (35, 2), (36, 4), (37, 2), (38, 4)],
        Read,
    ),
    (
        "seven symbols and length 8",
        &[(31, 8), (35, 2), (36, 4), (37, 2), (38, 4)],
        Refused(13, 2),
    ),
    ("first right too high", &[(23, 5)], Refused(13, 1)),
    ("last right too high", &[(24, 5)], Refused(13, 1)),
    ("last right 255", &[(24, 255)], Refused(13, 1)),
    ("first filling 4", &[(25, 4)], Refused(13, 1)),
    ("last filling 254", &[(29, 254)], Refused(13, 1)),
    ("rule 0 left a terminal", &[(12, 0)], Refused(13, 0)),
    ("rule 0 left too high", &[(12, 5)], Refused(13, 0)),
    ("rule 0 length 8", &[(13, 8)], Refused(13, 0)),
    ("rule 0 right too high", &[(14, 5)], Refused(13, 0)),
    ("rule 0 filling 0", &[(15, 0)], Refused(13, 0)),
    ("rule 2 last filling 0", &[(38, 0)], Refused(13, 2)),
    ("rule 0 before rule 2", &[(13, 8), (31, 8)], Refused(13, 0)),
    ("rule 1 before rule 2", &[(22, 8), (31, 8)], Refused(13, 1)),
    ("form before the goal", &[(12, 4), (31, 8)], Refused(13, 2)),
];

static GOALS: [Changed; 18] = [
    ("rule 0 left not the goal", &[(12, 4)], Refused(14, 0)),
    ("rule 0 to nothing", &[(13, 0), (14, 255)], Refused(14, 0)),
    ("rule 0 to two", &[(13, 2), (15, 4)], Refused(14, 0)),
    ("rule 0 to the amount", &[(14, 0)], Refused(14, 0)),
    ("rule 0 to a terminal", &[(14, 2)], Refused(14, 0)),
    ("rule 0 to the goal", &[(14, 3)], Refused(14, 0)),
    ("rule 1 left the goal", &[(21, 3)], Refused(14, 1)),
    ("rule 2 left the goal", &[(30, 3)], Refused(14, 2)),
    ("rule 1 first the goal", &[(23, 3)], Refused(14, 1)),
    ("rule 2 first the goal", &[(32, 3)], Refused(14, 2)),
    ("rule 2 last the goal", &[(34, 3)], Refused(14, 2)),
    ("rule 2 left and last", &[(30, 3), (34, 3)], Refused(14, 2)),
    (
        "rule 2 like rule 0",
        &[(30, 3), (31, 1), (33, 255), (34, 255)],
        Refused(14, 2),
    ),
    (
        "rule 2 like rule 1",
        &[(31, 2), (32, 0), (33, 1), (34, 255)],
        Read,
    ),
    ("rule 0 before rule 1", &[(12, 4), (21, 3)], Refused(14, 0)),
    ("rule 0 before rule 2", &[(14, 0), (30, 3)], Refused(14, 0)),
    ("rule 1 before rule 2", &[(24, 3), (30, 3)], Refused(14, 1)),
    ("goal before spelling", &[(30, 3), (40, 0)], Refused(14, 2)),
];

#[test]
fn rules_have_their_form(rt: HostRuntime) {
    check_changed(&rt, &FORMS);
}

#[test]
fn the_goal_stands_in_rule_0_alone(rt: HostRuntime) {
    check_changed(&rt, &GOALS);
}
