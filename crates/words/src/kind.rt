//! What a byte of a text is.
ghost use Rattle.std.specs.Prelude.{◌≡◌, ◌||◌};
ghost use Rattle.words.specs.Bytes.{is_blank, opens_remark, is_digit as digit};
ghost use Rattle.words.specs.Kinds.{Kinded};

/// The kinds of bytes.
#[derive(Clone, Copy)]
pub(crate) enum Kind {
    /// A blank that ends no line.
    Blank,
    /// A blank that ends the line, and with it a remark.
    LineFeed,
    /// What opens a remark.
    Hash,
    /// A digit.
    Digit,
    /// Any other byte.
    Other,
}

impl Kind {
    /// The kind of a byte.
    #[tactic(auto, unfolding(crate::specs::Bytes::is_blank, crate::specs::Bytes::opens_remark, crate::specs::Bytes::ends_remark, crate::specs::Bytes::is_digit))]
    pub(crate) fn of(byte: u8) -> Kind
        ensures { Kinded result byte }
    {
        match byte as char {
            ' ' | '\t' => Kind::Blank,
            '\n' => Kind::LineFeed,
            '#' => Kind::Hash,
            '0'..='9' => Kind::Digit,
            _ => Kind::Other,
        }
    }
}

/// Whether a byte ends a run: a blank, or what opens a remark.
pub(crate) fn ends_run(byte: u8) -> bool
    ensures { result ≡ (opens_remark byte || is_blank byte) }
{
    matches!(Kind::of(byte), Kind::Blank | Kind::LineFeed | Kind::Hash)
}

/// Whether a byte is a digit.
pub(crate) fn is_digit(byte: u8) -> bool
    ensures { result ≡ digit byte }
{
    matches!(Kind::of(byte), Kind::Digit)
}
