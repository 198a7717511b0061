//! Calls on a reading as values, and lists of calls with what is answered to each.
use crate::answers::Answer;
use crate::forests::{Lists, ROOM, old_alternative, old_node};
use crate::sheets::{grammar_of, states_of};
use grammar::Grammar;
use reader::Reading;
use replay::Step;
use states::StateSource;
use std::alloc::{AllocError, Global};
use std::process::Abort;
use std::test::Fail;
use words::TextFeed;

/// A call on a reading. The feed is a text; the lists of a gather have this room.
#[derive(Clone, Copy)]
pub enum Call {
    Open(usize),
    Take(usize),
    Read(&'static [u8]),
    Back(usize),
    Judge,
    Gather(usize, usize),
}

impl Call {
    /// Makes the call.
    pub fn make<S: StateSource>(self, reading: &mut Reading<S>, grammar: &Grammar) -> Answer {
        match self {
            Call::Open(limit) => Answer::from(reading.open(limit)),
            Call::Take(terminal) => Answer::from(reading.take(terminal)),
            Call::Read(text) => {
                Answer::from(reading.read_through(&mut TextFeed::new(grammar, text)))
            },
            Call::Back(words) => Answer::from(reading.back(words)),
            Call::Judge => Answer::from(reading.judge()),
            Call::Gather(n, m) => Lists::gathered(reading, n, m).0,
        }
    }

    /// The call as a step of a history.
    pub fn step<'g>(
        self,
        grammar: &'g Grammar,
        heap: Global,
    ) -> Result<Step<TextFeed<'g, 'static>>, AllocError> {
        let step = match self {
            Call::Open(limit) => Step::Open(limit),
            Call::Take(terminal) => Step::Take(terminal),
            Call::Read(text) => Step::ReadThrough(TextFeed::new(grammar, text)),
            Call::Back(words) => Step::Back(words),
            Call::Judge => Step::Judge,
            Call::Gather(n, m) => {
                let mut nodes = Vec::new(heap);
                nodes.extend_from_slice(&[old_node(); ROOM][..n.min(ROOM)])?;
                let mut alternatives = Vec::new(heap);
                alternatives.extend_from_slice(&[old_alternative(); ROOM][..m.min(ROOM)])?;
                Step::Gather(nodes, alternatives)
            },
        };
        Ok(step)
    }
}

/// A call, its answer, and how many words are kept then, and links.
pub type Answered = (Call, Answer, usize, usize);

/// Calls on one reading, and what they are about.
#[derive(Clone, Copy)]
pub struct Script {
    pub what: &'static str,
    pub calls: &'static [Answered],
}

impl Script {
    /// The calls are answered so on a new reading over this source.
    pub fn check_over<S: StateSource + Drop>(
        &self,
        rt: &impl Abort,
        grammar: &Grammar,
        source: S,
    ) -> Result<(), Fail> {
        let what = self.what;
        let mut reading = Reading::new(source);
        for (call, answer, words, count) in self.calls {
            assert_eq!(rt; call.make(&mut reading, grammar), *answer, "{what}");
            assert_eq!(rt; reading.words(), *words, "{what}");
            assert_eq!(rt; reading.count(), *count, "{what}");
        }
        Ok(())
    }

    /// The calls are answered so over the states that are built from the sheet.
    pub fn check(&self, rt: &impl Abort, sheet: &[u8]) -> Result<(), Fail> {
        let grammar = grammar_of(sheet)?;
        self.check_over(rt, &grammar, states_of(&grammar)?)
    }
}
