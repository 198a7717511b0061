//! The report of a sheet.
ghost use Rattle.std.specs.Prelude.{◌≡◌, ℕ, true, List, ◌++◌, length, IfOk, Some, string_bytes, codes, Decides};
ghost use Rattle.grammar_format.specs.Sheets.{sheet_bytes};
ghost use Rattle.grammar.specs.Meaning.{sheet as sheet_of};
ghost use Rattle.grammar.specs.Lines.{refusal_line};
ghost use Rattle.inspection.specs.Reports.{Report, verdict_text, closing_line, report_text, Told};

use crate::explanation::Explanation;
use crate::listing::Listing;
use grammar::{Grammar, GrammarFault, Refusal};
use std::alloc::{AllocError, Global};
use std::fmt;

/// Whether a grammar, written into a room as long as the sheet, gives the sheet again.
fn is_written_back(grammar: &Grammar, room: &mut [u8], sheet: &[u8]) -> bool
    ensures { length room.old ≡ length sheet.now → Decides result (sheet_bytes (sheet_of grammar.now) ≡ sheet.now) }
{
    // Not `*room` or `room[..]`: the check finds the proof for a slice from 0 on only.
    grammar.write(room) == Ok(sheet.len()) && &room[0..] == sheet
}

/// Whether what was written is the sheet, in words.
fn verdict(same: bool) -> &'static str
    ensures { result.now ≡ verdict_text same }
{
    if same {
        "equal to the sheet"
    } else {
        "not equal to the sheet"
    }
}

/// How many bytes were written back, and whether they are the sheet.
#[derive(Clone, Copy)]
struct WrittenBack {
    size: usize,
    same: bool,
}

impl fmt::Display for WrittenBack {
    ghost output = { λ x. Some (closing_line x.size x.same) };

    fn fmt<W: fmt::Write>(&self, f: &mut fmt::Formatter<W>) -> fmt::Result {
        let size = self.size;
        let told = verdict(self.same);
        writeln!(f, "written back: {size} bytes, {told}")
    }
}

/// What is told of a sheet: all that it says, or the line of its refusal.
#[derive(Clone, Copy)]
pub enum SheetReport {
    /// The grammar of the sheet; how many bytes it was written back with, and whether they are the sheet.
    Listed {
        grammar: Grammar,
        size: usize,
        same: bool,
    },
    Refused(GrammarFault),
}

impl SheetReport {
    /// What is told of a grammar that was read from a sheet.
    fn listed(grammar: Grammar, sheet: &[u8]) -> SheetReport
        requires { sheet_bytes (sheet_of grammar) ≡ sheet.now }
        ensures { result ≡ SheetReport.Listed grammar (length sheet.now) true }
    {
        let size = grammar.sheet_len();
        let mut room = [0; 1108];
        let same = is_written_back(&grammar, &mut room[..size], sheet);
        SheetReport::Listed {
            grammar,
            size,
            same,
        }
    }

    /// What is told of a sheet.
    pub fn of(sheet: &[u8]) -> SheetReport
        ensures { Told sheet.now result }
    {
        match Grammar::read(sheet) {
            Ok(grammar) => SheetReport::listed(grammar, sheet),
            Err(fault) => SheetReport::Refused(fault),
        }
    }
}

impl fmt::Display for SheetReport {
    ghost output = { λ report. Some (report_text report) };

    fn fmt<W: fmt::Write>(&self, f: &mut fmt::Formatter<W>) -> fmt::Result {
        match self {
            SheetReport::Listed {
                grammar,
                size,
                same,
            } => {
                let listing = Listing { grammar };
                let closing = WrittenBack {
                    size: *size,
                    same: *same,
                };
                write!(f, "{listing}{closing}")
            }
            SheetReport::Refused(fault) => {
                let refusal = fault.refusal();
                write!(f, "{refusal}\n")
            }
        }
    }
}

/// The report of a refusal: its line, and then the words of an explanation.
pub fn refusal_report<E: fmt::Display>(
    heap: Global,
    refusal: Refusal,
    explanation: &E,
) -> Result<String, AllocError>
    ensures { IfOk result (λ text. (words : List ℕ) × (string_bytes text ≡ refusal_line refusal ++ (codes "\n" ++ words))) }
{
    let words = explanation.to_string(heap)?;
    format!(in heap; "{refusal}\n{words}")
}

/// What `inspect` prints of a sheet: what is told of it, and a refusal with its explanation.
pub fn report(heap: Global, sheet: &[u8]) -> Result<String, AllocError>
    ensures { IfOk result (λ text. Report sheet.now (string_bytes text)) }
{
    let told = SheetReport::of(sheet);
    match told {
        SheetReport::Listed { .. } => told.to_string(heap),
        SheetReport::Refused(fault) => refusal_report(
            heap,
            fault.refusal(),
            &Explanation { fault, sheet },
        ),
    }
}
