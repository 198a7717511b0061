//! False answers of readings, which the law on histories refutes: theorems that functions carry as their contracts.
//! Each of them holds after any history, over any source, or over any source of the small grammar P.
#![tactic(auto)]

ghost use Rattle.false_answers.specs.Statements.{DeadAsAlive, AliveAsDead, WrongPlaces, FeedAsDead, DroppedWord, SecretWord};
ghost use Rattle.false_answers.specs.Statements.{FrontKept, InventedWords, EarlyEnd, LeftWords, RefusedJudgement, WhatIsWritten};
ghost use Rattle.false_answers.specs.Statements.{LackingRecord, StrangeRecord, RecordTwice, OutOfOrder, ClosedCall, OpenedBeyond};
ghost use Rattle.false_answers.specs.Statements.{BackBeyond, FirstAsDead, SecondAsAlive, NoOfSentence, YesOfNone, EarlyYes};
ghost use Rattle.false_answers.specs.Statements.{OneGather, EmptyGather, OneNodeMore, OneAlternativeMore};

/// A word that no sentence begins with, over the kept words, is answered by a 45, and not otherwise.
pub fn a_dead_end_is_not_taken()
    ensures { DeadAsAlive }
{}

/// A word that some sentence begins with, over the kept words, is not answered by a 45.
pub fn a_word_that_begins_a_sentence_is_not_refused_as_45()
    ensures { AliveAsDead }
{}

/// A 45 to a take has the number of kept words and the terminal for its places.
pub fn a_dead_end_has_its_places()
    ensures { WrongPlaces }
{}

/// A read-through of words that some sentence begins with is not answered by a 45.
pub fn a_feed_that_begins_a_sentence_is_not_refused_as_45()
    ensures { FeedAsDead }
{}

/// A word that is answered as taken is not dropped.
pub fn a_taken_word_is_kept()
    ensures { DroppedWord }
{}

/// A word that is answered by a refusal is not kept.
pub fn a_refused_word_is_not_kept()
    ensures { SecretWord }
{}

/// After a read-through the words before it and a front of its feed's words are kept, and nothing else.
pub fn a_read_through_keeps_a_front()
    ensures { FrontKept }
{}

/// A read-through does not keep its first word and invent the rest.
pub fn a_read_through_invents_no_words()
    ensures { InventedWords }
{}

/// A read-through that judges has added all words of its feed.
pub fn a_read_through_judges_all_words()
    ensures { EarlyEnd }
{}

/// A read-through that judges leaves no words in its feed.
pub fn a_read_through_that_judges_leaves_no_words()
    ensures { LeftWords }
{}

/// Judge is not refused while the reading is open.
pub fn a_judgement_is_not_refused()
    ensures { RefusedJudgement }
{}

/// What a gather writes and counts is all that occurs in the derivations of a sentence, each once, in order.
pub fn a_gather_writes_what_occurs()
    ensures { WhatIsWritten }
{}

/// A gather leaves out no record that occurs in a derivation.
pub fn a_gather_lacks_no_record()
    ensures { LackingRecord }
{}

/// A gather writes no record that occurs in no derivation.
pub fn a_gather_writes_no_strange_record()
    ensures { StrangeRecord }
{}

/// A gather writes no record twice.
pub fn a_gather_writes_no_record_twice()
    ensures { RecordTwice }
{}

/// A gather writes no records out of their order.
pub fn a_gather_keeps_the_order()
    ensures { OutOfOrder }
{}

/// While the reading is closed, each call but open is refused as 40, with what was lent to it unchanged.
pub fn a_closed_reading_refuses_each_call()
    ensures { ClosedCall }
{}

/// An open with what can be no limit is not done.
pub fn an_open_beyond_the_limits_is_not_done()
    ensures { OpenedBeyond }
{}

/// Going back to more words than are kept is not done.
pub fn going_back_beyond_the_words_is_not_done()
    ensures { BackBeyond }
{}

/// Over P, nothing kept, 0 is not refused as 45, with whatever places.
pub fn over_p_the_first_word_is_not_refused_as_45()
    ensures { FirstAsDead }
{}

/// Over P, nothing kept, 1 is refused as 45, and not answered otherwise.
pub fn over_p_the_second_word_is_not_taken_first()
    ensures { SecondAsAlive }
{}

/// Over P, 0 1 is not judged to be no sentence.
pub fn over_p_two_words_are_not_judged_none()
    ensures { NoOfSentence }
{}

/// Over P, 0 1 2 is not judged to be a sentence.
pub fn over_p_three_words_are_not_judged_a_sentence()
    ensures { YesOfNone }
{}

/// Over P, a read-through of 0 1 1 is not answered yes, whatever is kept then.
pub fn over_p_a_read_through_does_not_say_yes_early()
    ensures { EarlyYes }
{}

/// Over P and 0 1 2 0 1 2 0 1, a gather with room for six nodes and seven alternatives has one answer.
pub fn over_p_eight_words_have_one_gather()
    ensures { OneGather }
{}

/// Over P and these words, a gather does not write nothing.
pub fn over_p_an_empty_gather_is_refuted()
    ensures { EmptyGather }
{}

/// Over P and these words, a gather does not write one node more.
pub fn over_p_a_node_more_is_refuted()
    ensures { OneNodeMore }
{}

/// Over P and these words, a gather does not write one alternative more.
pub fn over_p_an_alternative_more_is_refuted()
    ensures { OneAlternativeMore }
{}
