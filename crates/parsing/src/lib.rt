//! The theory of generalised LR parsing over LR(0) states: definitions, and theorems that functions carry as their contracts.
#![tactic(auto)]

ghost use Rattle.parsing.specs.Statements.{Productivity, Soundness, Entering, Completeness, Judgement, Viability, ViablePrefix};
ghost use Rattle.parsing.specs.Statements.{Stability, Forest, Leastness, RowsByBits, Witness};

/// Whether a symbol derives any words can be decided.
pub fn productivity_is_decidable()
    ensures { Productivity }
{}

/// A link enters its upper state by a symbol that derives the words between its two places.
pub fn links_are_sound()
    ensures { Soundness }
{}

/// All steps that enter a state are by the same symbol.
pub fn states_are_entered_by_one_symbol()
    ensures { Entering }
{}

/// Where a symbol comes next in a live state, each of its derivations makes a link.
pub fn links_are_complete()
    ensures { Completeness }
{}

/// The words are a sentence exactly when the step of the first state by the start symbol is linked over all of them.
pub fn links_judge_sentences()
    ensures { Judgement }
{}

/// The words and a terminal begin a sentence exactly when a live state at their end has a step by it.
pub fn live_states_show_what_may_follow()
    ensures { Viability }
{}

/// The words begin a sentence exactly when some state is live at their end.
pub fn live_states_show_viable_prefixes()
    ensures { ViablePrefix }
{}

/// More words change neither links nor live states at the places before them.
pub fn links_keep_to_their_words()
    ensures { Stability }
{}

/// What occurs in some derivation of a sentence is what is reached from its top.
pub fn forests_are_reached_from_the_top()
    ensures { Forest }
{}

/// The links are saturated, and any table of links that is saturated up to a place holds those up to that place.
pub fn links_are_the_least()
    ensures { Leastness }
{}

/// Two rows of 64 bytes are equal exactly when all their bits are.
pub fn rows_are_told_by_their_bits()
    ensures { RowsByBits }
{}

/// Some source of states is lawful, over a well-formed grammar: the other theorems do not speak of nothing.
pub fn lawful_sources_exist()
    ensures { Witness }
{}
