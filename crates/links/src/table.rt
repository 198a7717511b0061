//! The table of links, in the order of their places.
ghost use Rattle.std.specs.Prelude.{◌≡◌, ◌≢◌, ℕ, ◌<◌, ◌≤◌, length, slice_index};
ghost use Rattle.link_growth.specs.Entries.{at, Small};

use link_growth::Link;

/// The first `count` of `links`, up to the last place, `place`. The links of the place i begin at `starts[i]`.
#[derive(Drop)]
pub(crate) struct Table {
    // 4,096 blank links with a count beside them, and not an `ArrayVec`: laid down (docs/DECISIONS.md).
    pub(crate) links: [Link; 4096],
    pub(crate) count: usize,
    // A slot for each place, so that no start is searched for.
    pub(crate) starts: [u16; 256],
    pub(crate) place: u8,
    ghost room: { length links ≡ 4096 },
    ghost slots: { length starts ≡ 256 },
    ghost few: { count ≤ 4096 },
    ghost small: { ((k : ℕ) → k < count → Small (at links k)) },
    ghost once: { ((h k : ℕ) → h < k → k < count → at links h ≢ at links k) },
    ghost falls: { ((k : ℕ) → k < count → (at links k).below_place ≤ (at links k).place) },
    ghost high: { ((k : ℕ) → k < count → (at links k).place ≤ place) },
    ghost within: { ((i : ℕ) → i ≤ place → slice_index starts i ≤ count) },
    ghost under: { ((i k : ℕ) → i ≤ place → k < slice_index starts i → (at links k).place < i) },
    ghost over: { ((i k : ℕ) → (i ≤ place) × (slice_index starts i ≤ k) × (k < count) → i ≤ (at links k).place) },
}
