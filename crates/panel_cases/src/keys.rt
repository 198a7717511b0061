//! Records of pressed keys, by the sheet of P.
use crate::texts::THREE_TEAS;
use panel::read_keys;
use sample_sheets::{P, P_TABLE};
use std::test::Fail;

/// A record, and all that is printed of it.
#[derive(Clone, Copy)]
struct Case {
    keys: &'static [u8],
    lines: &'static str,
}

const CASES: [Case; 6] = [
    Case {
        keys: &[0, 0, 1, 1, 2, 0, 0, 2, 1, 2, 0, 0, 3, 1],
        lines: THREE_TEAS,
    },
    Case {
        keys: &[0, 0, 1, 1, 2, 0, 0, 2, 1, 2, 0, 0, 3, 1, 255, 7],
        lines: THREE_TEAS,
    },
    Case {
        keys: &[0, 0, 2, 1, 1],
        lines: "refused 45 reading 2 1 bytes 4 5\n",
    },
    Case {
        keys: &[0, 0, 2, 1, 3],
        lines: "refused 53 feed 4 5\n",
    },
    Case {
        keys: &[0, 0, 2, 1, 2, 0, 1],
        lines: "refused 54 feed 5 7\n",
    },
    Case {
        keys: &[255],
        lines: "words 0 links 0 sentence no\n",
    },
];

#[test]
fn records_over_built_states(rt: HostRuntime) -> Result<(), Fail> {
    for Case { keys, lines } in CASES {
        let got = read_keys(rt.alloc(), &P, &[], keys)?;
        assert_eq!(rt; got.as_str(), lines);
    }
    Ok(())
}

#[test]
fn records_over_a_table(rt: HostRuntime) -> Result<(), Fail> {
    for Case { keys, lines } in CASES {
        let got = read_keys(rt.alloc(), &P, &P_TABLE, keys)?;
        assert_eq!(rt; got.as_str(), lines);
    }
    Ok(())
}
