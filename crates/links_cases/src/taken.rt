//! The links of words: how many there are, and that some are there.
use crate::sheets::{H, W, link, links_of, states};
use sample_sheets::{P, Q};
use std::process::Abort;
use std::test::Fail;

/// The words, the number of their links, and some of them: a state, its place, the state below, its place.
type Case = (&'static [usize], usize, &'static [(u8, u8, u8, u8)]);

/// The links are as many, and those are there.
fn check_case(rt: &impl Abort, sheet: &[u8], case: Case) -> Result<(), Fail> {
    let (words, count, some) = case;
    let states = states(sheet)?;
    let links = links_of(&states, words)?;
    assert_eq!(rt; links.words(), words.len());
    assert_eq!(rt; links.count(), count);
    for (s, j, b, i) in some {
        assert!(rt; links.has(link(*s, *j, *b, *i)));
    }
    Ok(())
}

#[test]
fn words_that_are_ambiguous(rt: HostRuntime) -> Result<(), Fail> {
    check_case(&rt, &P, (&[], 0, &[]))?;
    check_case(
        &rt,
        &P,
        (&[0, 1], 3, &[(1, 1, 0, 0), (3, 2, 1, 1), (2, 2, 0, 0)]),
    )?;
    check_case(
        &rt,
        &P,
        (&[0, 1, 2, 0, 1], 8, &[(5, 5, 4, 3), (2, 5, 0, 0)]),
    )?;
    check_case(
        &rt,
        &P,
        (
            &[0, 1, 2, 0, 1, 2, 0, 1],
            15,
            &[(5, 8, 4, 3), (5, 8, 4, 6), (2, 8, 0, 0)],
        ),
    )
}

/// A link that stays at its place, and chains through links that come later.
#[test]
fn words_of_nothing(rt: HostRuntime) -> Result<(), Fail> {
    check_case(
        &rt,
        &Q,
        (&[], 3, &[(2, 0, 0, 0), (3, 0, 2, 0), (3, 0, 3, 0)]),
    )?;
    check_case(
        &rt,
        &Q,
        (
            &[1],
            11,
            &[(3, 1, 3, 1), (3, 1, 2, 1), (3, 1, 3, 0), (2, 1, 0, 0)],
        ),
    )?;
    check_case(
        &rt,
        &Q,
        (&[1, 1, 1], 31, &[(3, 3, 3, 0), (3, 3, 3, 3), (2, 3, 0, 0)]),
    )
}

#[test]
fn recursion_behind_nothing(rt: HostRuntime) -> Result<(), Fail> {
    check_case(&rt, &H, (&[], 4, &[(4, 0, 4, 0), (5, 0, 4, 0)]))?;
    check_case(&rt, &H, (&[1, 1], 11, &[]))?;
    check_case(
        &rt,
        &H,
        (
            &[2, 1, 1],
            18,
            &[(6, 3, 4, 0), (6, 3, 4, 1), (7, 3, 6, 2), (3, 3, 0, 0)],
        ),
    )
}

#[test]
fn words_in_many_ways(rt: HostRuntime) -> Result<(), Fail> {
    check_case(
        &rt,
        &W,
        (
            &[1, 1, 1, 1],
            21,
            &[(4, 4, 4, 3), (4, 4, 3, 2), (3, 4, 2, 1), (2, 4, 0, 0)],
        ),
    )?;
    check_case(
        &rt,
        &W,
        (
            &[1, 1, 1, 1, 1, 1, 1, 1, 1, 1],
            144,
            &[(4, 10, 4, 3), (2, 10, 0, 0)],
        ),
    )
}

/// What no word has made is not there, in whatever range the numbers are.
#[test]
fn links_that_are_not_there(rt: HostRuntime) -> Result<(), Fail> {
    let states = states(&P)?;
    let links = links_of(&states, &[0, 1])?;
    assert!(rt; !links.has(link(3, 2, 1, 0)));
    assert!(rt; !links.has(link(3, 2, 0, 1)));
    assert!(rt; !links.has(link(3, 1, 1, 1)));
    assert!(rt; !links.has(link(1, 2, 1, 1)));
    assert!(rt; !links.has(link(2, 3, 0, 0)));
    assert!(rt; !links.has(link(255, 255, 255, 255)));
    assert_eq!(rt; links.of_place(2).len(), 2);
    assert_eq!(rt; links.of_place(0).len(), 0);
    assert_eq!(rt; links.of_place(3).len(), 0);
    assert_eq!(rt; links.of_place(usize::MAX).len(), 0);
    Ok(())
}
