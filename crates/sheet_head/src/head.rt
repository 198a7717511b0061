//! Reading the head of a sheet, and writing it.
ghost use Rattle.std.specs.Prelude.{◌≡◌, ◌<◌, length, MatchOption};
ghost use Rattle.std.specs.List.{flat_map};
ghost use Rattle.grammar_format.specs.Sheets.{wide};
ghost use Rattle.sheet_head.specs.Heads.{Tells};

/// The six numbers that a sheet begins with; none where it is too short for them.
#[tactic(auto, unfolding(grammar_format::specs::Fields::number))]
pub fn read_head(sheet: &[u8]) -> Option<[u16; 6]>
    ensures { MatchOption result (length sheet.now < 12) (λ ns. Tells sheet.now ns) }
{
    let [a, b, c, d, e, f, g, h, i, j, k, l, ..] = sheet else {
        return None;
    };
    Some([
        u16::from_be_bytes([*a, *b]),
        u16::from_be_bytes([*c, *d]),
        u16::from_be_bytes([*e, *f]),
        u16::from_be_bytes([*g, *h]),
        u16::from_be_bytes([*i, *j]),
        u16::from_be_bytes([*k, *l]),
    ])
}

/// The twelve bytes of six numbers.
pub fn head_bytes(numbers: [u16; 6]) -> [u8; 12]
    ensures { result ≡ flat_map wide numbers }
{
    let [m, n, o, p, q, r] = numbers;
    let [a, b] = m.to_be_bytes();
    let [c, d] = n.to_be_bytes();
    let [e, f] = o.to_be_bytes();
    let [g, h] = p.to_be_bytes();
    let [i, j] = q.to_be_bytes();
    let [k, l] = r.to_be_bytes();
    [a, b, c, d, e, f, g, h, i, j, k, l]
}
