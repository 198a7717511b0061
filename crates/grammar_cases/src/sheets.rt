//! Sheets that are put together from their parts.
use sheet_head::head_bytes;

// A room with its length: a `Vec` would want an allocator, and a `?` for each part that a case adds.
/// A sheet that is put together: the rules one by one, then the spellings, and at last the header. There is room for the longest sheet.
#[derive(Clone, Copy)]
pub struct Draft {
    bytes: [u8; 1200],
    length: usize,
    rules: u8,
}

impl Draft {
    /// Room for a header, and nothing else yet.
    pub fn new() -> Draft {
        Draft {
            bytes: [0; 1200],
            length: 12,
            rules: 0,
        }
    }

    /// Adds a byte.
    fn add(&mut self, byte: u8) {
        if self.length < 1200 {
            self.bytes[self.length] = byte;
            self.length += 1;
        }
    }

    /// Adds a rule, by its left symbol and its right side.
    pub fn add_rule(&mut self, left: u8, right: &[u8]) {
        self.rules = self.rules.wrapping_add(1);
        self.add(left);
        self.add(u8::try_from(right.len()).unwrap_or(255));
        for symbol in right.iter().chain(&[255; 7]).take(7) {
            self.add(*symbol);
        }
    }

    /// Adds a spelling.
    pub fn add_spelling(&mut self, letters: &[u8]) {
        self.add(u8::try_from(letters.len()).unwrap_or(255));
        for letter in letters {
            self.add(*letter);
        }
    }

    /// The sheet, whose header tells of so many terminals and nonterminals, and for the rest of what is there.
    pub fn sheet(&mut self, terminals: u8, nonterminals: u8) -> &[u8] {
        let rules = u16::from(self.rules);
        let head = head_bytes([
            u16::try_from(self.length).unwrap_or(u16::MAX),
            u16::from(terminals),
            u16::from(nonterminals),
            rules,
            12,
            12 + 9 * rules,
        ]);
        self.bytes[..12].copy_from_slice(&head);
        &self.bytes[0..self.length.min(1200)]
    }
}
