//! What the calls do to the links of some words.
ghost use Rattle.links.specs.Words.{Wordwise};

/// Where exactly the links of some words are held, the calls leave exactly the links of those words that they are to leave.
pub fn links_are_those_of_the_words()
    ensures { Wordwise }
{}
