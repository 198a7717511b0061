//! Where the parts of a grammar sheet stand, read off any bytes, whether they keep the rules or not.
ghost use Rattle.std.specs.Prelude.{◌≡◌, drop, slice_index};
ghost use Rattle.grammar_format.specs.Fields.{number as number_of, block as block_of, remains as remains_of, first_spelling, behind_spelling};
ghost use Rattle.inspection.specs.Heads.{Tells};

/// What a header tells.
#[derive(Clone, Copy)]
pub(crate) struct Header {
    pub(crate) length: u16,
    pub(crate) terminals: u16,
    pub(crate) nonterminals: u16,
    pub(crate) rules: u16,
    pub(crate) rules_at: u16,
    pub(crate) spellings_at: u16,
}

/// The byte at an offset; 0 past the end.
fn byte(sheet: &[u8], at: usize) -> u8
    ensures { result ≡ slice_index sheet.now at }
{
    sheet.get(at).copied().unwrap_or(0)
}

/// The number of 16 bits at an offset.
#[tactic(auto, unfolding(grammar_format::specs::Fields::number))]
fn number(sheet: &[u8], at: u8) -> u16
    ensures { result ≡ number_of sheet.now at }
{
    let at = usize::from(at);
    u16::from(byte(sheet, at)) * 256 + u16::from(byte(sheet, at + 1))
}

impl Header {
    /// The six numbers of a sheet. What is past the end counts as 0.
    pub(crate) fn of(sheet: &[u8]) -> Header
        ensures { Tells sheet.now result }
    {
        Header {
            length: number(sheet, 0),
            terminals: number(sheet, 2),
            nonterminals: number(sheet, 4),
            rules: number(sheet, 6),
            rules_at: number(sheet, 8),
            spellings_at: number(sheet, 10),
        }
    }
}

/// What stands behind the first bytes of a sheet.
fn behind(sheet: &[u8], skipped: usize) -> &[u8]
    ensures { result.now ≡ drop skipped sheet.now }
{
    sheet.get(skipped..).unwrap_or(&[])
}

/// The nine bytes of a rule, or what there is of them.
pub(crate) fn block(sheet: &[u8], rule: usize) -> &[u8]
    ensures { result.now ≡ block_of sheet.now rule }
{
    let rest = behind(sheet, rule.saturating_mul(9).saturating_add(12));
    &rest[..rest.len().min(9)]
}

/// The first spelling of what remains of a sheet, and what then remains.
pub(crate) fn split_spelling(rest: &[u8]) -> (&[u8], &[u8])
    ensures spelling { result.0.now ≡ first_spelling rest.now }
    ensures behind { result.1.now ≡ behind_spelling rest.now }
{
    match rest {
        [] => (rest, rest),
        [length, bytes @ ..] => bytes.split_at(usize::from(*length).min(bytes.len())),
    }
}

/// What remains of a sheet from the spelling of a terminal on.
pub(crate) fn remains(sheet: &[u8], terminal: usize) -> &[u8]
    ensures { result.now ≡ remains_of sheet.now terminal }
{
    let mut rest = behind(sheet, 12 + 9 * usize::from(Header::of(sheet).rules));
    for _ in 0..terminal {
        if rest.is_empty() {
            return rest;
        }
        rest = split_spelling(rest).1;
    }
    rest
}
