//! A record of pressed keys.
ghost use Rattle.std.specs.Prelude.{◌≤◌, length};

/// The words of a record of pressed keys from a place on, for so many terminals.
#[derive(Drop)]
pub struct KeyFeed<'a> {
    pub(crate) terminals: u8,
    pub(crate) keys: &'a [u8],
    pub(crate) place: usize,
    ghost within: { place ≤ length keys.now },
}
