//! Texts, by the sheets of P and Q.
use panel::read_text;
use sample_sheets::{P, P_TABLE, Q};
use std::alloc::{AllocError, Global};
use std::process::Abort;
use std::test::Fail;

/// What the eight words of three teas come to.
pub const THREE_TEAS: &str = "words 8 links 15 sentence yes
nodes 6 alternatives 7
1 0 1 2
2 0 2 3 5
2 0 2 3 8
2 0 5 6 8
1 3 4 5
2 3 5 6 8
1 6 7 8
";

/// A text, and all that is printed of it.
#[derive(Clone, Copy)]
struct Case {
    text: &'static [u8],
    lines: &'static str,
}

const BY_P: [Case; 9] = [
    Case {
        text: b"1 tea and 2 tea and 3 tea",
        lines: THREE_TEAS,
    },
    Case {
        text: b"# three teas\n1 tea and\n2 tea and 3 tea\n",
        lines: THREE_TEAS,
    },
    Case {
        text: b"7 tea",
        lines: "words 2 links 3 sentence yes\nnodes 1 alternatives 1\n1 0 1 2\n",
    },
    Case {
        text: b"1 tea and",
        lines: "words 3 links 4 sentence no\n",
    },
    Case {
        text: b"",
        lines: "words 0 links 0 sentence no\n",
    },
    Case {
        text: b"2 tea tea",
        lines: "refused 45 reading 2 1 bytes 6 9\n",
    },
    Case {
        text: b"and",
        lines: "refused 45 reading 0 2 bytes 0 3\n",
    },
    Case {
        text: b"2 cups",
        lines: "refused 51 feed 2 6\n",
    },
    Case {
        text: b"1 tea and 123456 tea",
        lines: "refused 52 feed 10 16\n",
    },
];

const BY_Q: [Case; 3] = [
    Case {
        text: b"",
        lines: "words 0 links 3 sentence yes\nnodes 1 alternatives 2\n1 0 0 0\n3 0\n",
    },
    Case {
        text: b"tin",
        lines: "words 1 links 11 sentence yes
nodes 3 alternatives 7
1 0 0 0
3 0
1 0 0 1
1 0 1 1
2 0 1
1 1 1 1
3 1
",
    },
    Case {
        text: b"tin 4",
        lines: "refused 45 reading 1 0 bytes 4 5\n",
    },
];

/// A piece so many times over.
fn repeated(heap: Global, piece: &[u8], times: usize) -> Result<Vec<u8>, AllocError> {
    let mut bytes = Vec::new(heap);
    for _ in 0..times {
        bytes.extend_from_slice(piece)?;
    }
    Ok(bytes)
}

/// The text that repeats a piece comes to these lines.
fn check_repeated(
    rt: &impl Abort,
    heap: Global,
    sheet: &[u8],
    piece: &[u8],
    times: usize,
    lines: &str,
) -> Result<(), Fail> {
    let text = repeated(heap, piece, times)?;
    let got = read_text(heap, sheet, &[], text.as_slice())?;
    assert_eq!(rt; got.as_str(), lines);
    Ok(())
}

#[test]
fn texts_over_built_states(rt: HostRuntime) -> Result<(), Fail> {
    for Case { text, lines } in BY_P {
        let got = read_text(rt.alloc(), &P, &[], text)?;
        assert_eq!(rt; got.as_str(), lines);
    }
    Ok(())
}

#[test]
fn texts_over_a_table(rt: HostRuntime) -> Result<(), Fail> {
    for Case { text, lines } in BY_P {
        let got = read_text(rt.alloc(), &P, &P_TABLE, text)?;
        assert_eq!(rt; got.as_str(), lines);
    }
    Ok(())
}

#[test]
fn texts_with_empty_parts(rt: HostRuntime) -> Result<(), Fail> {
    for Case { text, lines } in BY_Q {
        let got = read_text(rt.alloc(), &Q, &[], text)?;
        assert_eq!(rt; got.as_str(), lines);
    }
    Ok(())
}

#[test]
fn too_much_of_a_text(rt: HostRuntime) -> Result<(), Fail> {
    let heap = rt.alloc();
    check_repeated(
        &rt,
        heap,
        &Q,
        b"tin ",
        100,
        "refused 46 reading 61 1 bytes 244 247\n",
    )?;
    check_repeated(&rt, heap, &Q, b"tin ", 31, "refused 49 reading 0 0\n")?;
    check_repeated(&rt, heap, &Q, b"tin ", 25, "refused 50 reading 0 0\n")
}
