//! What becomes of a sheet with one wrong byte, whichever it is.
use crate::answers::{Answer, answer_in};
use sample_sheets::P;
use std::test::Fail;

/// How many of the wrong sheets are read, and are refused with 10, with 11 and so on up to 17.
static COUNTS: [u32; 9] = [565, 510, 1407, 1082, 6897, 12, 1743, 0, 24];

#[test]
fn a_wrong_byte_is_refused_or_kept(rt: HostRuntime) -> Result<(), Fail> {
    let mut counts = [0u32; 9];
    // By offset: each sheet is a copy with one byte changed.
    for offset in 0..P.len() {
        for step in 1..=255 {
            let mut sheet = P;
            sheet[offset] = sheet[offset].wrapping_add(step);
            let row = match answer_in(&sheet, 48) {
                Answer::Read => 0,
                Answer::Refused(number @ 10..18, _) => usize::from(number) - 9,
                _ => return Err(Fail::new(offset)),
            };
            counts[row] = counts[row].wrapping_add(1);
        }
    }
    assert_eq!(rt; counts, COUNTS);
    Ok(())
}
