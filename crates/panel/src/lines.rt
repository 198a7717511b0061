//! Alternatives in lines.
ghost use Rattle.std.specs.Prelude.{◌≡◌, Some};
ghost use Rattle.std.specs.List.{take_while, flat_map};
ghost use Rattle.panel.specs.Lines.{is_used, cut_text, alternative_text, alternative_lines};

use records::Alternative;
use std::fmt;

/// Cuts, each behind a blank.
#[derive(Clone, Copy)]
struct Cuts<'a>(&'a [u8]);

/// The rule of an alternative and its cuts, as `2 0 2 3 5`.
#[derive(Clone, Copy)]
struct AlternativeText(Alternative);

/// Alternatives, a line for each.
#[derive(Clone, Copy)]
pub(crate) struct AlternativeLines<'a>(pub(crate) &'a [Alternative]);

/// The cuts before the first that is not used.
fn used(cuts: &[u8]) -> &[u8]
    ensures { result.now ≡ take_while is_used cuts.now }
{
    let end = cuts
        .iter()
        .position(|cut| *cut == 255)
        .unwrap_or(cuts.len());
    &cuts[0..end]
}

impl fmt::Display for Cuts<'_> {
    ghost output = { λ x. Some (flat_map cut_text x.0.now) };

    fn fmt<W: fmt::Write>(&self, f: &mut fmt::Formatter<W>) -> fmt::Result {
        for cut in self.0 {
            write!(f, " {cut}")?;
        }
        Ok(())
    }
}

impl fmt::Display for AlternativeText {
    ghost output = { λ x. Some (alternative_text x.0) };

    fn fmt<W: fmt::Write>(&self, f: &mut fmt::Formatter<W>) -> fmt::Result {
        let rule = self.0.rule;
        let cuts = Cuts(used(&self.0.cuts));
        write!(f, "{rule}{cuts}")
    }
}

impl fmt::Display for AlternativeLines<'_> {
    ghost output = { λ x. Some (alternative_lines x.0.now) };

    fn fmt<W: fmt::Write>(&self, f: &mut fmt::Formatter<W>) -> fmt::Result {
        for alternative in self.0 {
            writeln!(f, "{}", AlternativeText(*alternative))?;
        }
        Ok(())
    }
}
