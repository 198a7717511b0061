//! What a key record says of its bytes. The function's contract is a theorem.
ghost use Rattle.words.specs.Pressed.{OneRecording};

/// There is one list of words, with one end, that is the whole record.
pub fn one_list_is_recorded()
    ensures { OneRecording }
{}
