//! Sheets that are refused, before a word is looked at.
use panel::{read_keys, read_text};
use sample_sheets::{CHAINS, P, P_TABLE, Q};
use std::test::Fail;

/// The bytes of both sheets, and the refusal.
#[derive(Clone, Copy)]
struct Case {
    grammar: &'static [u8],
    table: &'static [u8],
    lines: &'static str,
}

/// The table of P with its first step gone.
static STEP_LACKING: [u8; 60] = *b"\
    \x00\x3c\x00\x06\x00\x05\x00\x03\x00\x0c\x00\x2a\
    \xff\xff\xff\xff\x02\
    \xff\x03\xff\xff\xff\
    \xff\xff\x04\xff\xff\
    \xff\xff\xff\xff\xff\
    \x01\xff\xff\xff\x05\
    \xff\xff\x04\xff\xff\
    \x00\x00\x00\
    \x00\x00\x00\
    \x01\x00\x00\
    \x00\x01\x00\
    \x00\x00\x00\
    \x00\x00\x01";

const CASES: [Case; 6] = [
    Case {
        grammar: &[],
        table: &[],
        lines: "refused 10 grammar 0 0\n",
    },
    Case {
        grammar: &P_TABLE,
        table: &P_TABLE,
        lines: "refused 12 grammar 0 0\n",
    },
    Case {
        grammar: &P,
        table: &[0],
        lines: "refused 20 table 0 0\n",
    },
    Case {
        grammar: &Q,
        table: &P_TABLE,
        lines: "refused 21 table 0 0\n",
    },
    Case {
        grammar: &P,
        table: &STEP_LACKING,
        lines: "refused 25 table 0 0\n",
    },
    Case {
        grammar: &CHAINS,
        table: &[],
        lines: "refused 30 table 0 0\n",
    },
];

#[test]
fn refused_sheets(rt: HostRuntime) -> Result<(), Fail> {
    for Case {
        grammar,
        table,
        lines,
    } in CASES {
        let of_text = read_text(rt.alloc(), grammar, table, b"2 cups")?;
        assert_eq!(rt; of_text.as_str(), lines);
        let of_keys = read_keys(rt.alloc(), grammar, table, &[99])?;
        assert_eq!(rt; of_keys.as_str(), lines);
    }
    Ok(())
}
