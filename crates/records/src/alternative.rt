//! An alternative of a node.
ghost use Rattle.std.specs.Prelude.{◌≡◌};
ghost use Rattle.records.specs.Cuts.{first, last};
ghost use Rattle.records.specs.Blanks.{blank_alternative};
ghost use Rattle.std.specs.Ordering.{as_partial_cmp};
ghost use Rattle.records.specs.Orders.{alternative_cmp, by_alternative};
ghost use Rattle.std.specs.Cmp.{partial_order_from_agreeing_total};
ghost use Rattle.records.specs.OrderLaws.{alternative_ties};
ghost use Rattle.std.proofs.Common.{refl};

use std::cmp::Ordering;

/// A rule with its cuts: where its parts begin, and where the last one ends. Cuts that are not used are 255. Alternatives go by the
/// first cut, then the last that is used, then the rule, then the cuts between.
#[derive(Clone, Copy, PartialEq, Eq, Debug)]
pub struct Alternative {
    pub rule: u8,
    // Not options: the field is public, and a cut that is not used is laid down as 255.
    pub cuts: [u8; 8],
}

impl Alternative {
    // Not `Default`, which is derived as 0 throughout.
    /// What a slot without an alternative holds: 255 throughout.
    pub fn blank() -> Alternative
        ensures { result ≡ blank_alternative }
    {
        Alternative {
            rule: 255,
            cuts: [255; 8],
        }
    }

    /// Where the first part begins.
    pub fn first_cut(&self) -> u8
        ensures { result ≡ first self.now }
    {
        self.cuts[0]
    }

    /// Where the last part ends: the last cut that is used.
    pub fn last_cut(&self) -> u8
        ensures { result ≡ last self.now }
    {
        let used = self.cuts.iter().copied().take_while(|cut| *cut != 255);
        used.last().unwrap_or(self.cuts[0])
    }
}

// By hand: the last cut that is used comes before the rule, which no order of the fields gives.
impl PartialOrd for Alternative {
    ghost partial_cmp = { as_partial_cmp alternative_cmp };

    ghost laws = { partial_order_from_agreeing_total alternative_cmp by_alternative (λ _ _. refl) alternative_ties };

    fn partial_cmp(&self, other: &Alternative) -> Option<Ordering> {
        Some(self.cmp(other))
    }
}

impl Ord for Alternative {
    ghost cmp = { alternative_cmp };

    ghost total = { by_alternative };

    ghost matches_partial_cmp = { λ _ _. refl };

    ghost matches_eq = { alternative_ties };

    fn cmp(&self, other: &Alternative) -> Ordering {
        let mine = (self.first_cut(), self.last_cut(), self.rule, self.cuts);
        let theirs = (other.first_cut(), other.last_cut(), other.rule, other.cuts);
        mine.cmp(&theirs)
    }
}
