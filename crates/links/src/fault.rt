//! Why links are refused.
ghost use Rattle.std.specs.Prelude.{◌≡◌};
ghost use Rattle.links.specs.Refusals.{number_of};

/// The links are more than the limit allows.
#[derive(Clone, Copy, Debug, PartialEq, Eq)]
pub struct TooManyLinks;

/// Why a word is not taken, in the order in which the reasons are looked for.
#[derive(Clone, Copy, Debug, PartialEq, Eq)]
pub enum TakeFault {
    /// 254 words are taken already.
    TooManyWords,
    /// The word is no terminal of the grammar.
    NoTerminal,
    /// No state that is live at the last place has a step by the word.
    NoStep,
    /// The links of the words with this one are more than the limit allows.
    TooManyLinks,
}

impl TakeFault {
    /// The number of the refusal that the fault is shown as.
    pub fn number(self) -> u8
        ensures { result ≡ number_of self }
    {
        match self {
            TakeFault::TooManyWords => 43,
            TakeFault::NoTerminal => 44,
            TakeFault::NoStep => 45,
            TakeFault::TooManyLinks => 46,
        }
    }
}
