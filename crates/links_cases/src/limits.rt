//! What is refused, in which order, and that nothing has changed then.
use crate::sheets::{L, W, link, links_of, states};
use links::{Links, TakeFault, TooManyLinks};
use sample_sheets::{P, Q};
use std::test::Fail;

/// A limit that suffices for all links, and one that is one too low.
#[test]
fn limits_are_exact(rt: HostRuntime) -> Result<(), Fail> {
    let states = states(&P)?;
    let mut links = links_of(&states, &[0, 1, 2, 0])?;
    assert_eq!(rt; links.count(), 5);
    assert_eq!(rt; links.take(&states, 1, 7), Err(TakeFault::TooManyLinks));
    assert_eq!(rt; links.count(), 5);
    assert_eq!(rt; links.words(), 4);
    assert!(rt; links.has(link(1, 4, 4, 3)));
    assert!(rt; !links.has(link(3, 5, 1, 4)));
    links.take(&states, 1, 8)?;
    assert_eq!(rt; links.count(), 8);
    Ok(())
}

#[test]
fn place_zero_has_a_limit_too(rt: HostRuntime) -> Result<(), Fail> {
    let states = states(&Q)?;
    let mut links = Links::new();
    assert_eq!(rt; links.open(&states, 2), Err(TooManyLinks));
    assert_eq!(rt; links.count(), 0);
    links.open(&states, 3)?;
    links.take(&states, 1, 4096)?;
    assert_eq!(rt; links.open(&states, 2), Err(TooManyLinks));
    assert_eq!(rt; links.count(), 11);
    assert_eq!(rt; links.words(), 1);
    links.open(&states, 3)?;
    assert_eq!(rt; links.count(), 3);
    assert_eq!(rt; links.words(), 0);
    Ok(())
}

#[test]
fn words_are_refused_in_order(rt: HostRuntime) -> Result<(), Fail> {
    let states = states(&P)?;
    let mut links = links_of(&states, &[])?;
    assert_eq!(rt; links.take(&states, 3, 0), Err(TakeFault::NoTerminal));
    assert_eq!(rt;
        links.take(&states, usize::MAX, 0),
        Err(TakeFault::NoTerminal)
    );
    assert_eq!(rt; links.take(&states, 1, 0), Err(TakeFault::NoStep));
    assert_eq!(rt; links.take(&states, 0, 0), Err(TakeFault::TooManyLinks));
    assert_eq!(rt; links.count(), 0);
    links.take(&states, 0, 1)?;
    assert_eq!(rt; links.count(), 1);
    Ok(())
}

/// The room ends in the middle of a word; then fewer words fit again.
#[test]
fn the_table_is_full(rt: HostRuntime) -> Result<(), Fail> {
    let states = states(&W)?;
    let mut links = links_of(&states, &[1; 52])?;
    assert_eq!(rt; links.count(), 4029);
    assert_eq!(rt; links.take(&states, 1, 5000), Err(TakeFault::TooManyLinks));
    assert_eq!(rt; links.count(), 4029);
    links.back(50);
    assert_eq!(rt; links.count(), 3724);
    links.take(&states, 1, 4096)?;
    assert_eq!(rt; links.words(), 51);
    Ok(())
}

#[test]
fn words_are_at_most_254(rt: HostRuntime) -> Result<(), Fail> {
    let states = states(&L)?;
    let mut links = links_of(&states, &[1; 254])?;
    assert_eq!(rt; links.words(), 254);
    assert_eq!(rt; links.count(), 508);
    assert_eq!(rt; links.take(&states, 1, 4096), Err(TakeFault::TooManyWords));
    assert_eq!(rt; links.take(&states, 9, 0), Err(TakeFault::TooManyWords));
    assert_eq!(rt; links.count(), 508);
    links.back(253);
    links.take(&states, 1, 508)?;
    assert_eq!(rt; links.words(), 254);
    Ok(())
}

#[test]
fn going_back_leaves_the_links_of_the_words_left(rt: HostRuntime) -> Result<(), Fail> {
    let states = states(&P)?;
    let mut links = links_of(&states, &[0, 1, 2, 0, 1, 2, 0, 1])?;
    links.back(9);
    links.back(8);
    assert_eq!(rt; links.count(), 15);
    links.back(2);
    assert_eq!(rt; links.count(), 3);
    assert_eq!(rt; links.words(), 2);
    assert!(rt; links.has(link(2, 2, 0, 0)));
    links.take(&states, 2, 4096)?;
    assert_eq!(rt; links.count(), 4);
    Ok(())
}
