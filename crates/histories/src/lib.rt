//! Histories of readings: what each call answers and leaves, which words a history keeps, and the law on every history, as theorems
//! that functions carry as their contracts.
#![tactic(auto)]

ghost use Rattle.histories.specs.Statements.{Tidiness, Determinacy, Lawfulness, NoMemory, Viable, OneByOne, TwoFeeds};

/// What occurs in a derivation lies within the words, and is never the goal or its rule.
pub fn records_lie_within_the_words()
    ensures { Tidiness }
{}

/// Each call on a reading has one answer, and leaves one thing held.
pub fn calls_have_one_answer()
    ensures { Determinacy }
{}

/// Every history whose calls do what their rules say keeps the law.
pub fn histories_keep_the_law()
    ensures { Lawfulness }
{}

/// A read-through is the takes of its words, one by one until one is refused, and then a judgement.
pub fn a_read_through_takes_one_by_one()
    ensures { OneByOne }
{}

/// Reading through two feeds, the first without a fault, is reading through their words in one.
pub fn two_feeds_are_one()
    ensures { TwoFeeds }
{}

/// An open reading knows its limit and its kept words, and nothing else of its history.
pub fn an_open_reading_has_no_memory()
    ensures { NoMemory }
{}

/// The kept words of an open reading begin some sentence.
pub fn kept_words_begin_a_sentence()
    ensures { Viable }
{}
