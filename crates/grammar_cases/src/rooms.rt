//! Sheets are written where there is room for them; a shorter room is refused with 31 and the need.
use crate::answers::Answer::*;
use crate::answers::answer_in;
use sample_sheets::{P, Q};
use std::process::Abort;

/// The sheet is written to a room of as many bytes as it has and to longer ones, and to no shorter one.
fn check_rooms(rt: &impl Abort, sheet: &[u8]) {
    for length in 0..100 {
        let answer = if length < sheet.len() {
            Short(sheet.len())
        } else {
            Read
        };
        assert_eq!(rt; answer_in(sheet, length), answer, "{length}");
    }
}

#[test]
fn sheets_are_written_where_there_is_room(rt: HostRuntime) {
    check_rooms(&rt, &P);
    check_rooms(&rt, &Q);
}
