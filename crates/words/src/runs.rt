//! Where the runs of a text begin and end.
ghost use Rattle.std.specs.Prelude.{◌≡◌, ◌+◌, ◌<◌, ◌≤◌, false, length, drop, slice_index};
ghost use Rattle.words.specs.Bytes.{is_blank, opens_remark};
ghost use Rattle.words.specs.Runs.{unremarked, front, runs};

use crate::kind::{Kind, ends_run};

/// Where the first run from a place on begins; the length of the text where there is none.
pub(crate) fn run_start(text: &[u8], place: usize) -> usize
    ensures within { result ≤ length text.now }
    ensures same { runs result (drop result text.now) ≡ runs place (drop place text.now) }
    ensures begins { result < length text.now → (is_blank (slice_index text.now result) ≡ false) × (opens_remark (slice_index text.now result) ≡ false) }
{
    let Some(rest) = text.get(place..) else {
        return text.len();
    };
    let mut remark = false;
    for (i, byte) in rest.iter().enumerate() {
        match Kind::of(*byte) {
            Kind::LineFeed => remark = false,
            Kind::Hash => remark = true,
            Kind::Blank => {}
            Kind::Digit | Kind::Other => {
                if !remark {
                    return place + i;
                }
            }
        }
    }
    text.len()
}

/// Where the run that begins at a place ends: before the first blank or remark, or at the end of the text.
pub(crate) fn run_end(text: &[u8], from: usize) -> usize
    requires { from ≤ length text.now }
    ensures value { result ≡ from + length (front (unremarked false (drop from text.now))) }
    ensures within { result ≤ length text.now }
{
    let rest = &text[from..];
    let length = rest.iter().position(|byte| ends_run(*byte));
    from + length.unwrap_or(rest.len())
}
