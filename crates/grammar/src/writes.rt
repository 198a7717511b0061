//! Writing a grammar sheet.
ghost use Rattle.std.specs.Prelude.{◌≡◌, ◌+◌, ◌≤◌, length, MatchResult, sum_by};
ghost use Rattle.grammar_format.specs.Sheets.{sheet_bytes, rules_bytes, spellings_bytes};
ghost use Rattle.grammar.specs.Holding.{rule_block, spelling_piece};
ghost use Rattle.grammar.specs.Lists.{items};
ghost use Rattle.grammar.specs.Meaning.{sheet};
ghost use Rattle.grammar.specs.Writing.{Put, Writes, Short, Rewrites};

use crate::fault::GrammarFault;
use crate::grammar::Grammar;
use crate::header::rules_end;
use crate::rule::Rule;
use crate::spelling::Spelling;
use sheet_head::head_bytes;

impl Rule {
    /// The nine bytes of the rule.
    fn block(&self) -> [u8; 9]
        ensures { result ≡ rule_block self.now }
    {
        let right = self.right.as_slice();
        let mut bytes = [255; 9];
        bytes[0] = self.left;
        bytes[1] = self.right.count();
        bytes[2..2 + right.len()].copy_from_slice(right);
        bytes
    }
}

/// Puts some bytes to the front of the room.
fn put(room: &mut [u8], bytes: &[u8])
    requires { length bytes.now ≤ length room.old }
    ensures { Put room.old 0 bytes.now room.new }
{
    room[..bytes.len()].copy_from_slice(bytes);
}

/// Puts the length of the spelling and its bytes to the front of the room, and answers how many bytes these are.
fn put_spelling(room: &mut [u8], spelling: &Spelling) -> usize
    requires { length (spelling_piece spelling.now) ≤ length room.old }
    ensures size { result ≡ length (spelling_piece spelling.now) }
    ensures put { Put room.old 0 (spelling_piece spelling.now) room.new }
{
    let letters = spelling.as_slice();
    put(room, &[spelling.count()]);
    put(&mut room[1..], letters);
    1 + letters.len()
}

/// How many bytes the spellings have in a sheet.
fn spellings_len(spellings: &[Spelling]) -> u16
    requires { length spellings.now ≤ 40 }
    ensures { result ≡ sum_by (λ w. length (spelling_piece w)) spellings.now }
{
    spellings
        .iter()
        .map(|spelling| 1 + u16::from(spelling.count()))
        .sum()
}

impl Grammar {
    /// Puts the rules to the front of the room.
    fn put_rules(&self, room: &mut [u8])
        requires { length (rules_bytes (sheet self.now)) ≤ length room.old }
        ensures { Put room.old 0 (rules_bytes (sheet self.now)) room.new }
    {
        for (r, rule) in self.rules.as_slice().iter().enumerate() {
            put(&mut room[9 * r..], &rule.block());
        }
    }

    /// Puts the spellings to the front of the room.
    fn put_spellings(&self, room: &mut [u8])
        requires { length (spellings_bytes (sheet self.now)) ≤ length room.old }
        ensures { Put room.old 0 (spellings_bytes (sheet self.now)) room.new }
    {
        let mut at = 0;
        for spelling in self.spellings.as_slice() {
            at += put_spelling(&mut room[at..], spelling);
        }
    }

    /// How many bytes the sheet of the grammar has, as its header tells.
    fn size(&self) -> u16
        ensures value { result ≡ length (sheet_bytes (sheet self.now)) }
        ensures bound { result ≤ 1108 }
    {
        rules_end(self.rules()) + spellings_len(self.spellings.as_slice())
    }

    /// How many bytes the sheet of the grammar has.
    pub fn sheet_len(&self) -> usize
        ensures value { result ≡ length (sheet_bytes (sheet self.now)) }
        ensures bound { result ≤ 1108 }
    {
        usize::from(self.size())
    }

    /// Writes the sheet of the grammar to the front of the room, and answers how many bytes it has; bytes past it stay. A room that is too
    /// short is refused and stays as it is.
    pub fn write(&self, room: &mut [u8]) -> Result<usize, GrammarFault>
        ensures { MatchResult result (λ n. Writes (sheet_bytes (sheet self.now)) room.old room.new n) (λ e. Short (sheet_bytes (sheet self.now)) room.old room.new e) }
    {
        let size = self.size();
        let need = usize::from(size);
        if room.len() < need {
            return Err(GrammarFault::RoomShort { need });
        }
        let terminals = u16::from(self.terminals());
        let nonterminals = u16::from(self.nonterminals);
        let rules = u16::from(self.rules());
        let end = rules_end(self.rules());
        put(
            room,
            &head_bytes([size, terminals, nonterminals, rules, 12, end]),
        );
        self.put_rules(&mut room[12..]);
        self.put_spellings(&mut room[usize::from(end)..]);
        Ok(need)
    }
}

/// Reads a sheet and writes it again: the room begins with the very bytes of the sheet. A sheet that breaks a rule, or a room that is too
/// short for it, is refused, and the room stays as it is.
pub fn rewrite(sheet: &[u8], room: &mut [u8]) -> Result<usize, GrammarFault>
    ensures { Rewrites sheet.now room.old room.new result }
{
    Grammar::read(sheet)?.write(room)
}
