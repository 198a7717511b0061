//! Inputs of 40,000 bytes, and of one more.
use panel::{read_keys, read_text};
use sample_sheets::{P, P_TABLE};
use std::alloc::Global;
use std::process::Abort;
use std::test::Fail;

/// The text and the record with these bytes come to these lines.
fn check_both(
    rt: &impl Abort,
    heap: Global,
    grammar: &[u8],
    table: &[u8],
    words: &[u8],
    lines: &str,
) -> Result<(), Fail> {
    let of_text = read_text(heap, grammar, table, words)?;
    assert_eq!(rt; of_text.as_str(), lines);
    let of_keys = read_keys(heap, grammar, table, words)?;
    assert_eq!(rt; of_keys.as_str(), lines);
    Ok(())
}

#[test]
fn one_byte_too_many(rt: HostRuntime) -> Result<(), Fail> {
    let long = vec![in rt.alloc(); 255u8; 40_001]?;
    let long = long.as_slice();
    check_both(
        &rt,
        rt.alloc(),
        long,
        long,
        long,
        "refused 55 program 1 0\n",
    )?;
    check_both(&rt, rt.alloc(), &P, long, long, "refused 55 program 2 0\n")?;
    check_both(&rt, rt.alloc(), &[], long, &[], "refused 55 program 2 0\n")?;
    check_both(
        &rt,
        rt.alloc(),
        &P,
        &P_TABLE,
        long,
        "refused 55 program 3 0\n",
    )?;
    check_both(&rt, rt.alloc(), &[], &[], long, "refused 55 program 3 0\n")
}

#[test]
fn just_few_enough(rt: HostRuntime) -> Result<(), Fail> {
    let full = vec![in rt.alloc(); 255u8; 40_000]?;
    let full = full.as_slice();
    check_both(
        &rt,
        rt.alloc(),
        full,
        full,
        full,
        "refused 10 grammar 0 0\n",
    )?;
    check_both(&rt, rt.alloc(), &P, full, full, "refused 20 table 0 0\n")?;
    let of_text = read_text(rt.alloc(), &P, &[], full)?;
    assert_eq!(rt; of_text.as_str(), "refused 51 feed 0 40000\n");
    let of_keys = read_keys(rt.alloc(), &P, &[], full)?;
    assert_eq!(rt; of_keys.as_str(), "words 0 links 0 sentence no\n");
    Ok(())
}
