//! How a text falls into runs. The function's contract is a theorem.
ghost use Rattle.words.specs.Stretches.{Splitting};

/// The runs of a text are exactly its unbroken rows of bytes that are no blanks and stand in no remark.
pub fn runs_are_stretches()
    ensures { Splitting }
{}
