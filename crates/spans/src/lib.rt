//! Which symbols span which words, and why a gathering need only ask that.
#![tactic(auto)]

ghost use Rattle.spans.specs.Statements.{SpansTell, SpansJudge, MetForest, MetIsOne};

/// Over the links of a sentence, words and spans tell what a gathering wants.
pub fn links_tell_what_fits()
    ensures { SpansTell }
{}

/// The words are a sentence exactly when the start symbol fits over all of them.
pub fn spans_judge_sentences()
    ensures { SpansJudge }
{}

/// What is met from the top is what occurs in some derivation.
pub fn what_is_met_occurs()
    ensures { MetForest }
{}

/// Where two answers to what fits agree on the symbols of the grammar, the same is met from the top by both.
pub fn what_is_met_is_one()
    ensures { MetIsOne }
{}
