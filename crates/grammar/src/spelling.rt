//! A spelling as a grammar holds it.
use crate::few::Few;

/// At most twelve bytes.
pub(crate) type Spelling = Few<u8, 12>;
