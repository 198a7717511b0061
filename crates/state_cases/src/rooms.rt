//! Tables are written where there is room for them; a shorter room is refused with 31 and the need.
use crate::answers::Refused;
use built_states::BuiltStates;
use grammar::Grammar;
use sample_sheets::{P, P_TABLE};
use std::process::Abort;
use std::test::Fail;

// Stands in `grammar_cases` too: a public one would be asked for a contract.
/// What a room holds before anything is written to it.
const BLANK: u8 = 7;

/// Whether the room begins with these bytes and is blank past them.
fn holds(room: &[u8], bytes: &[u8]) -> bool {
    room.strip_prefix(bytes)
        .is_some_and(|rest| rest.iter().all(|byte| *byte == BLANK))
}

/// The table of P is written to a blank room of at least 60 bytes; another is refused, and stays as it was.
fn check_room(rt: &impl Abort, built: &BuiltStates, room: &mut [u8]) {
    let length = room.len();
    let answer = built.write(room).map_err(Refused::from);
    if length < 60 {
        assert_eq!(rt; answer, Err(Refused(31, 60, 0)), "in a room of {length}");
        assert!(rt; holds(room, &[]), "in a room of {length}");
    } else {
        assert_eq!(rt; answer, Ok(60), "in a room of {length}");
        assert!(rt; holds(room, &P_TABLE), "in a room of {length}");
    }
}

#[test]
fn tables_are_written_where_there_is_room(rt: HostRuntime) -> Result<(), Fail> {
    let built = BuiltStates::build(&Grammar::read(&P)?)?;
    for length in 0..80 {
        let mut room = [BLANK; 80];
        check_room(&rt, &built, &mut room[0..length]);
    }
    Ok(())
}
