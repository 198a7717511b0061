//! Word feeds: what a reading takes its words from. The first two are the text of a recipe and a record of pressed keys.
#![tactic(auto)]

mod fault;
mod feed;
mod keys;
mod kind;
mod mixed;
mod press;
mod presses;
mod recording;
mod runs;
mod spelled;
mod stretch;
mod texts;
mod word;

pub use fault::FeedFault;
pub use feed::WordFeed;
pub use keys::KeyFeed;
pub use recording::one_list_is_recorded;
pub use stretch::runs_are_stretches;
pub use texts::TextFeed;
pub use word::Word;
