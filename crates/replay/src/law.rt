//! The law on every history of a reading, and what holds of every history beside it.
ghost use Rattle.replay.specs.Chains.{EveryHistory};
ghost use Rattle.replay.specs.Statements.{NoMemory, Begun, OneByOne, TwoFeeds};

use states::StateSource;

/// The law holds of every history of every reading over this kind of source: of any chain of calls, each of which did what it ensures.
pub fn histories_are_right<S: StateSource>(_source: &S)
    ensures { EveryHistory S.meaning }
{}

/// A reading remembers nothing but its limit and its words: what it was asked before does not matter.
pub fn readings_have_no_memory<S: StateSource>(_source: &S)
    ensures { NoMemory S.meaning }
{}

/// The kept words of an open reading begin some sentence.
pub fn kept_words_begin_a_sentence<S: StateSource>(_source: &S)
    ensures { Begun S.meaning }
{}

/// A read-through is the takes of its words, one by one until one is refused, and then a judgement.
pub fn read_throughs_are_takes<S: StateSource>(_source: &S)
    ensures { OneByOne S.meaning }
{}

/// Two feeds that are read through in turn are read as one with the words of both.
pub fn feeds_in_turn_are_one<S: StateSource>(_source: &S)
    ensures { TwoFeeds S.meaning }
{}
