//! What is answered to a sheet.
ghost use Rattle.std.specs.Prelude.{◌≤◌};

use grammar::{Grammar, GrammarFault, Layer, Refusal, rewrite};
use std::fmt;
use std::process::Abort;

// No `Result`: what is neither read nor refused rightly is a case too.
/// The answer to a sheet.
#[derive(Clone, Copy, PartialEq, Eq, Debug)]
pub enum Answer {
    /// It is read and written: the room begins with the very bytes of the sheet, and stays as it was past them.
    Read,
    /// The grammar refuses it with this number, at this place, and the room stays as it was.
    Refused(u8, usize),
    /// The room is refused, since so many bytes are needed, and stays as it was.
    Short(usize),
    /// Anything else.
    Strange,
}

impl Answer {
    /// What the fault is shown as.
    fn of(fault: GrammarFault) -> Answer {
        match fault.refusal() {
            Refusal {
                number,
                layer: Layer::Grammar,
                first,
                second: 0,
            } => Answer::Refused(number, first),
            Refusal {
                number: 31,
                layer: Layer::Table,
                first,
                second: 0,
            } => Answer::Short(first),
            _ => Answer::Strange,
        }
    }
}

/// What a room holds before anything is written to it.
const BLANK: u8 = 7;

/// Whether the room begins with these bytes and is blank past them.
fn holds(room: &[u8], bytes: &[u8]) -> bool {
    let rest = room.strip_prefix(bytes);
    rest.is_some_and(|rest| rest.iter().all(|byte| *byte == BLANK))
}

/// The answer as the sheet is written to a blank room of so many bytes.
fn written<W: FnOnce(&[u8], &mut [u8]) -> Result<usize, GrammarFault>>(
    sheet: &[u8],
    length: usize,
    write: W,
) -> Answer
    requires callable { W.IsAlwaysCallable write }
    requires room { length ≤ 1200 }
{
    let mut blank = [BLANK; 1200];
    let room = &mut blank[..length];
    match write(sheet, room) {
        Ok(count) if count == sheet.len() && holds(room, sheet) => Answer::Read,
        Err(fault) if holds(room, &[]) => Answer::of(fault),
        _ => Answer::Strange,
    }
}

/// The answer to the sheet in a room of so many bytes, at most 1200. It must be the same by `read` and `write` as by `rewrite`.
pub fn answer_in(sheet: &[u8], length: usize) -> Answer {
    if length > 1200 {
        return Answer::Strange;
    }
    let answer = written(sheet, length, |sheet, room| rewrite(sheet, room));
    let by_parts = written(
        sheet,
        length,
        |sheet, room| Grammar::read(sheet)?.write(room),
    );
    if by_parts == answer {
        answer
    } else {
        Answer::Strange
    }
}

/// The sheet has this answer in a room that suffices; a failure names the case.
pub fn check_answer(rt: &impl Abort, sheet: &[u8], answer: Answer, what: impl fmt::Display + Drop) {
    assert_eq!(rt; answer_in(sheet, 1200), answer, "{what}");
}
