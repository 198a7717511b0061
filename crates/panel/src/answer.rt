//! What is told of words that were all read.
ghost use Rattle.std.specs.Prelude.{Some};
ghost use Rattle.panel.specs.Answers.{told};
ghost use Rattle.panel.specs.Lines.{lines};

use crate::gathered::Forest;
use crate::lines::AlternativeLines;
use std::fmt;

/// How many words and links there are, and the forest where the words are a sentence.
#[derive(Clone, Copy)]
pub struct Answer {
    pub words: usize,
    pub links: usize,
    pub forest: Option<Forest>,
}

impl fmt::Display for Answer {
    ghost output = { λ answer. Some (lines (told answer)) };

    fn fmt<W: fmt::Write>(&self, f: &mut fmt::Formatter<W>) -> fmt::Result {
        let words = self.words;
        let links = self.links;
        match &self.forest {
            None => write!(f, "words {words} links {links} sentence no\n"),
            Some(forest) => {
                let nodes = forest.counts.nodes;
                let alternatives = forest.alternatives();
                let count = alternatives.len();
                let each = AlternativeLines(alternatives);
                write!(
                    f,
                    "words {words} links {links} sentence yes\nnodes {nodes} alternatives {count}\n{each}"
                )
            }
        }
    }
}
