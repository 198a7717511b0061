//! Writing the table sheet of built states.
ghost use Rattle.std.specs.Prelude.{◌≡◌, ◌<◌, ◌≤◌, length, MatchResult, slice_index};
ghost use Rattle.parsing.specs.Grammar.{rule_count};
ghost use Rattle.grammar.specs.Meaning.{meaning};
ghost use Rattle.table_format.specs.ItemSets.{symbols as total};
ghost use Rattle.table_format.specs.Sheets.{header_bytes};
ghost use Rattle.built_states.specs.Writing.{sheet, Written, Short};

use crate::built::BuiltStates;
use sheet_head::head_bytes;
use states::TableFault;
use table_layout::Layout;

impl BuiltStates {
    // Not one function with that of `tables`: each takes its counts from where it holds them.
    /// How the table sheet is laid out.
    fn layout(&self) -> Layout
        ensures states { result.states ≡ self.now.building.count }
        ensures symbols { result.symbols ≡ total (meaning self.now.grammar) }
        ensures rules { result.rules ≡ rule_count (meaning self.now.grammar) }
    {
        Layout {
            states: u16::from(self.building.count),
            symbols: u16::from(self.grammar.symbols()),
            rules: u16::from(self.grammar.rules()),
        }
    }

    /// How many bytes the table sheet has.
    pub fn sheet_len(&self) -> usize
        ensures value { result ≡ length (sheet self.now) }
        ensures bound { result ≤ 32652 }
    {
        self.layout().sheet_len()
    }

    /// The header: the whole length; how many states, symbols and rules; the offsets of the steps and of the done marks.
    fn header(&self) -> [u8; 12]
        ensures { result ≡ header_bytes self.now.building.count (total (meaning self.now.grammar)) (rule_count (meaning self.now.grammar)) }
    {
        let layout = self.layout();
        head_bytes([
            layout.sheet_len() as u16,
            layout.states,
            layout.symbols,
            layout.rules,
            12,
            layout.marks_at() as u16,
        ])
    }

    // By offset: what stands at an offset is one function, so that writing is one loop.
    /// The byte of the sheet at an offset.
    fn sheet_byte(&self, offset: usize) -> u8
        requires { offset < length (sheet self.now) }
        ensures { result ≡ slice_index (sheet self.now) offset }
    {
        let layout = self.layout();
        let marks = layout.marks_at();
        if offset < 12 {
            self.header()[offset]
        } else if offset < marks {
            let cell = offset - 12;
            let symbols = usize::from(layout.symbols);
            self.building.steps[cell / symbols][cell % symbols].unwrap_or(255)
        } else {
            let cell = offset - marks;
            let rules = usize::from(layout.rules);
            u8::from(self.building.rows[cell / rules].is_done(&self.grammar, cell % rules))
        }
    }

    /// Writes the table sheet to the front of the room, and answers how many bytes it has; bytes past it stay. A room that is too short is
    /// refused and stays as it is. What is written passes the check of table sheets.
    pub fn write(&self, room: &mut [u8]) -> Result<usize, TableFault>
        ensures { MatchResult result (λ n. Written self.now room.old room.new n) (λ e. Short (sheet self.now) room.old room.new e) }
    {
        let need = self.sheet_len();
        if room.len() < need {
            return Err(TableFault::RoomShort { need });
        }
        let front = &mut room[..need];
        for (offset, byte) in front.iter_mut().enumerate() {
            *byte = self.sheet_byte(offset);
        }
        Ok(need)
    }
}
