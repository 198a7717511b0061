//! A reading over one source of states.
use arrayvec::ArrayVec;
use links::Links;
use states::StateSource;
use std::marker::Model;

/// The words that are kept, and their links. A reading holds its source; it has a limit of links while it is open, and none while it is
/// closed.
#[derive(Drop)]
pub struct Reading<S: StateSource> {
    pub(crate) source: S,
    pub(crate) links: Links,
    pub(crate) words: ArrayVec<u8, 254>,
    pub(crate) limit: Option<usize>,
}

impl<S: StateSource> Model for Reading<S> {
    ghost use Rattle.reader.specs.Readings.{Reading as Kept, reading_code};
    ghost use Rattle.reader.specs.Holding.{Sound};

    ghost Value = { Kept S };

    ghost coded = { reading_code S.code };

    ghost view = { λ r. record { source = r.source; limit = r.limit; words = r.words.items } };

    ghost invariant = { λ r. Sound (S.meaning r.source) r.limit r.words.items r.links };
}
