//! The words of a text by a grammar sheet.
ghost use Rattle.std.specs.Prelude.{IfOk, Some, string_bytes};
ghost use Rattle.word_listing.specs.Reports.{Report, report_text, Told};

use crate::listing::list_words;
use grammar::{Grammar, GrammarFault};
use std::alloc::{AllocError, Global};
use std::fmt;
use words::TextFeed;

/// What is told of a text by a sheet: its words, a line for each and one for the end, or the line of the refusal of the sheet.
#[derive(Clone, Copy)]
pub enum TextReport<'a> {
    /// The grammar of the sheet, and the text.
    Listed { grammar: Grammar, text: &'a [u8] },
    Refused(GrammarFault),
}

impl<'a> TextReport<'a> {
    /// What is told of a text by a sheet.
    pub fn of(sheet: &[u8], text: &'a [u8]) -> TextReport<'a>
        ensures { Told sheet.now text.now result }
    {
        match Grammar::read(sheet) {
            Ok(grammar) => TextReport::Listed { grammar, text },
            Err(fault) => TextReport::Refused(fault),
        }
    }
}

impl fmt::Display for TextReport<'_> {
    ghost output = { λ report. Some (report_text report) };

    fn fmt<W: fmt::Write>(&self, f: &mut fmt::Formatter<W>) -> fmt::Result {
        match self {
            TextReport::Listed { grammar, text } => {
                let mut feed = TextFeed::new(grammar, text);
                list_words(&mut feed, f)
            }
            TextReport::Refused(fault) => {
                let refusal = fault.refusal();
                write!(f, "{refusal}\n")
            }
        }
    }
}

/// What `show_words` prints: the words of a text by a grammar sheet, or the refusal of the sheet.
pub fn report_words(heap: Global, sheet: &[u8], text: &[u8]) -> Result<String, AllocError>
    ensures { IfOk result (λ out. Report sheet.now text.now (string_bytes out)) }
{
    TextReport::of(sheet, text).to_string(heap)
}
