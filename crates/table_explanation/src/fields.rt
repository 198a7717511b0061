//! Where the parts of a table sheet stand, read off any bytes, whether they have the form or not.
ghost use Rattle.std.specs.Prelude.{◌≡◌, length as size, nat_lt, slice_index};
ghost use Rattle.grammar_format.specs.Fields.{number as number_of};
ghost use Rattle.table_explanation.specs.Explanations.{step_at, mark_at};
ghost use Rattle.table_explanation.specs.Heads.{Tells};

use table_layout::Layout;

/// The six numbers of a header; three of them are counts, and lay the sheet out.
#[derive(Clone, Copy)]
pub(crate) struct Header {
    pub(crate) length: u16,
    pub(crate) layout: Layout,
    pub(crate) steps_at: u16,
    pub(crate) marks_at: u16,
}

/// Whether a sheet is too short for a header.
pub(crate) fn is_short(sheet: &[u8]) -> bool
    ensures { result ≡ nat_lt (size sheet.now) 12 }
{
    sheet.len() < 12
}

/// The byte at an offset; 0 past the end.
pub(crate) fn byte(sheet: &[u8], at: usize) -> u8
    ensures { result ≡ slice_index sheet.now at }
{
    sheet.get(at).copied().unwrap_or(0)
}

/// The number of 16 bits at an offset.
#[tactic(auto, unfolding(grammar_format::specs::Fields::number))]
fn number(sheet: &[u8], at: u8) -> u16
    ensures { result ≡ number_of sheet.now at }
{
    let at = usize::from(at);
    u16::from(byte(sheet, at)) * 256 + u16::from(byte(sheet, at + 1))
}

impl Header {
    /// What the header of a sheet tells. What is past the end counts as 0.
    pub(crate) fn of(sheet: &[u8]) -> Header
        ensures { Tells sheet.now result }
    {
        let layout = Layout {
            states: number(sheet, 2),
            symbols: number(sheet, 4),
            rules: number(sheet, 6),
        };
        Header {
            length: number(sheet, 0),
            layout,
            steps_at: number(sheet, 8),
            marks_at: number(sheet, 10),
        }
    }
}

/// The step byte of a state by a symbol, as the header places it.
#[tactic(auto, unfolding(crate::specs::Explanations::step_at, table_format::specs::Sheets::table_of))]
pub(crate) fn step_byte(sheet: &[u8], state: u8, symbol: u8) -> u8
    ensures { result ≡ step_at sheet.now state symbol }
{
    byte(sheet, Header::of(sheet).layout.step_at(state, symbol))
}

/// The mark byte of a state for a rule, as the header places it.
#[tactic(auto, unfolding(crate::specs::Explanations::mark_at, table_format::specs::Sheets::table_of))]
pub(crate) fn mark_byte(sheet: &[u8], state: u8, rule: u8) -> u8
    ensures { result ≡ mark_at sheet.now state rule }
{
    byte(sheet, Header::of(sheet).layout.mark_at(state, rule))
}
