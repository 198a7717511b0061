//! The form of a table sheet: its header, and the ranges of its bytes.
ghost use Rattle.std.specs.Prelude.{◌≡◌, length, IfErr, MatchOption, MatchResult};
ghost use Rattle.grammar.specs.Meaning.{meaning};
ghost use Rattle.tables.specs.Heads.{Laid, Headed, StepsFit, StrayStep, MarksFit, StrayMark};
ghost use Rattle.tables.specs.Faults.{Faulty, Foremost, Ranging};
ghost use Rattle.tables.specs.Trying.{InNone};

use crate::claim::Claim;
use crate::header::Header;
use grammar::Grammar;
use sheet_head::read_head;
use states::TableFault;

// `no_state` stands in three contracts: an enum for the faults of the form alone would list four of `TableFault` again.
impl Header {
    /// The header of a sheet, or what is wrong with it: its length, its counts or its offsets.
    fn read(grammar: &Grammar, sheet: &[u8]) -> Result<Header, TableFault>
        ensures cases { MatchResult result (λ h. Headed (meaning grammar.now) sheet.now h) (λ f. Faulty (meaning grammar.now) sheet.now f) }
        ensures no_state { IfErr result InNone }
    {
        let numbers = read_head(sheet).ok_or(TableFault::WholeLength)?;
        let [length, states, symbols, rules, steps_at, marks_at] = numbers;
        if usize::from(length) != sheet.len() {
            return Err(TableFault::WholeLength);
        }
        let states = u8::try_from(states).map_err(|_| TableFault::CountRange)?;
        let header = Header {
            states,
            symbols: grammar.symbols(),
            rules: grammar.rules(),
        };
        let layout = header.layout();
        if states == 0 || symbols != layout.symbols || rules != layout.rules {
            return Err(TableFault::CountRange);
        }
        if steps_at != 12
            || usize::from(marks_at) != layout.marks_at()
            || sheet.len() != layout.sheet_len()
        {
            return Err(TableFault::Offset);
        }
        Ok(header)
    }

    /// The place of the first step byte that is neither a state nor 255.
    fn stray_step(&self, steps: &[u8]) -> Option<usize>
        ensures { MatchOption result (StepsFit self.now.states steps.now (length steps.now)) (λ j. StrayStep self.now.states steps.now j) }
    {
        steps
            .iter()
            .position(|byte| *byte != 255 && *byte >= self.states)
    }

    /// Checks that each step byte is a state or 255, and each mark byte 0 or 1.
    fn check_bytes(&self, sheet: &[u8]) -> Result<(), TableFault>
        requires { Laid sheet.now self.now }
        ensures cases { MatchResult result (λ _. Ranging sheet.now (length sheet.now)) (λ f. Foremost sheet.now 23 f) }
        ensures no_state { IfErr result InNone }
    {
        let (front, marks) = sheet.split_at(self.layout().marks_at());
        if let Some(place) = self.stray_step(&front[12..]) {
            return Err(TableFault::ByteRange { offset: 12 + place });
        }
        if let Some(place) = stray_mark(marks) {
            return Err(TableFault::ByteRange {
                offset: front.len() + place,
            });
        }
        Ok(())
    }
}

/// The place of the first mark byte that is neither 0 nor 1.
fn stray_mark(marks: &[u8]) -> Option<usize>
    ensures { MatchOption result (MarksFit marks.now (length marks.now)) (λ j. StrayMark marks.now j) }
{
    marks.iter().position(|byte| *byte > 1)
}

impl<'a> Claim<'a> {
    /// What the sheet claims for the grammar, or the first fault of its form.
    pub(crate) fn check(grammar: &'a Grammar, sheet: &'a [u8]) -> Result<Claim<'a>, TableFault>
        ensures cases { MatchResult result (λ c. (c.grammar.now ≡ grammar.now) × (c.sheet.now ≡ sheet.now)) (λ f. Faulty (meaning grammar.now) sheet.now f) }
        ensures no_state { IfErr result InNone }
    {
        let header = Header::read(grammar, sheet)?;
        header.check_bytes(sheet)?;
        Ok(Claim {
            grammar,
            sheet,
            header,
        })
    }
}
