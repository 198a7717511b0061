//! What becomes of the table of P with one wrong byte, whichever it is.
use crate::answers::{Refused, answer};
use grammar::Grammar;
use sample_sheets::{P, P_TABLE};
use std::test::Fail;

/// How many of the wrong sheets are refused with 20, with 21 and so on up to 29. None passes.
static COUNTS: [u32; 10] = [510, 1276, 1274, 12042, 141, 10, 27, 1, 19, 0];

// Not one function with the test of `grammar_cases`: it would take what is done with a sheet as a closure, and be no shorter.
#[test]
fn every_wrong_byte_is_refused(rt: HostRuntime) -> Result<(), Fail> {
    let grammar = Grammar::read(&P)?;
    let mut counts = [0u32; 10];
    // By offset: each sheet is a copy with one byte changed.
    for offset in 0..P_TABLE.len() {
        for step in 1..=255 {
            let mut sheet = P_TABLE;
            sheet[offset] = sheet[offset].wrapping_add(step);
            let row = match answer(&grammar, &sheet) {
                Err(Refused(number @ 20..30, _, _)) => usize::from(number) - 20,
                _ => return Err(Fail::new(offset)),
            };
            counts[row] = counts[row].wrapping_add(1);
        }
    }
    assert_eq!(rt; counts, COUNTS);
    Ok(())
}
