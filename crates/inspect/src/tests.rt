//! Reports of a small sheet, and of the same sheet with one thing wrong.
use grammar::GrammarFault;
use inspection::report;
use sample_sheets::P;
use std::test::Fail;

const SMALL_REPORT: &str = "terminals: 3
  0  amount
  1  tea
  2  and
nonterminals: 2
  3  goal
  4  start
rules: 3
  0  goal -> start
  1  start -> amount tea
  2  start -> start and start
written back: 48 bytes, equal to the sheet
";

/// Bytes that are put into the small sheet, and what is then reported: the first line, and how the second begins.
#[derive(Clone, Copy)]
struct Case {
    at: usize,
    bytes: &'static [u8],
    line: &'static str,
    finding: &'static str,
}

const CASES: [Case; 11] = [
    Case {
        at: 1,
        bytes: &[47],
        line: "refused 10 grammar 0 0",
        finding: "The length of the sheet is 48, and its header tells 47.",
    },
    Case {
        at: 7,
        bytes: &[1],
        line: "refused 11 grammar 0 0",
        finding: "The header tells terminals: 3, nonterminals: 2, rules: 1.",
    },
    Case {
        at: 9,
        bytes: &[13],
        line: "refused 12 grammar 0 0",
        finding: "The header tells rules: 3, from byte 13 on, and spellings from byte 39 on; the length of the sheet is 48.",
    },
    Case {
        at: 31,
        bytes: &[8],
        line: "refused 13 grammar 2 0",
        finding: "Rule 2 is the bytes 4 8 4 2 4 255 255 255 255; symbols are below 5, and terminals below 3.",
    },
    Case {
        at: 30,
        bytes: &[3],
        line: "refused 14 grammar 2 0",
        finding: "Rule 2 is the bytes 3 3 4 2 4 255 255 255 255;",
    },
    Case {
        at: 42,
        bytes: b"#",
        line: "refused 15 grammar 1 0",
        finding: "Terminal 1 is spelled with length 3 and the bytes 116 35 97.",
    },
    Case {
        at: 40,
        bytes: b"\x07teasand",
        line: "refused 15 grammar 2 0",
        finding: "The sheet ends before the spelling of terminal 2.",
    },
    Case {
        at: 44,
        bytes: &[2],
        line: "refused 15 grammar 3 0",
        finding: "Bytes left over after the spelling of the last terminal: 1.",
    },
    Case {
        at: 45,
        bytes: b"tea",
        line: "refused 16 grammar 2 0",
        finding: "Terminal 2 is spelled with the bytes 116 101 97, as a terminal before it is.",
    },
    Case {
        at: 23,
        bytes: &[4],
        line: "refused 17 grammar 3 0",
        finding: "Nonterminal 3 derives no list of terminals",
    },
    Case {
        at: 21,
        bytes: &[3],
        line: "refused 14 grammar 1 0",
        finding: "Rule 1 is the bytes 3 2 0 1 255 255 255 255 255;",
    },
];

/// The small sheet with some bytes of its own.
fn changed(at: usize, bytes: &[u8]) -> [u8; 48] {
    let mut sheet = P;
    for (place, byte) in sheet.iter_mut().skip(at).zip(bytes) {
        *place = *byte;
    }
    sheet
}

#[test]
fn lists_a_good_sheet(rt: HostRuntime) -> Result<(), Fail> {
    let text = report(rt.alloc(), &P)?;
    assert_eq!(rt; text.as_str(), SMALL_REPORT);
    Ok(())
}

#[test]
fn refuses_and_explains(rt: HostRuntime) -> Result<(), Fail> {
    for Case {
        at,
        bytes,
        line,
        finding,
    } in CASES {
        let text = report(rt.alloc(), &changed(at, bytes))?;
        let begins = format!(in rt.alloc(); "{line}\n{finding}")?;
        assert!(rt; text.as_str().starts_with(begins.as_str()), "{line}");
    }
    Ok(())
}

#[test]
fn refuses_an_empty_sheet(rt: HostRuntime) -> Result<(), Fail> {
    let text = report(rt.alloc(), &[])?;
    assert!(rt;
        text.as_str().starts_with(
            "refused 10 grammar 0 0\nThe length of the sheet is 0, too little for a header.\n",
        )
    );
    Ok(())
}

#[test]
fn shows_a_short_room(rt: HostRuntime) -> Result<(), Fail> {
    let line = GrammarFault::RoomShort { need: 48 }
        .refusal()
        .to_string(rt.alloc())?;
    assert_eq!(rt; line.as_str(), "refused 31 table 48 0");
    Ok(())
}
