//! Long texts and records: their time grows with their length alone.
use crate::answers::{Answer, grammar, next};
use std::alloc::{AllocError, Global};
use std::process::Abort;
use std::test::Fail;
use words::{KeyFeed, TextFeed, WordFeed};

/// A piece so many times over.
fn repeated(heap: Global, piece: &[u8], times: usize) -> Result<Vec<u8>, AllocError> {
    let mut bytes = Vec::new(heap);
    for _ in 0..times {
        bytes.extend_from_slice(piece)?;
    }
    Ok(bytes)
}

/// The answer to the call behind so many others.
fn answer_behind<F: WordFeed>(feed: &mut F, calls: usize) -> Answer {
    for _ in 0..calls {
        let _ = next(feed);
    }
    next(feed)
}

/// A text that repeats a piece has this answer behind so many others.
fn check_text(
    rt: &impl Abort,
    heap: Global,
    piece: &[u8],
    times: usize,
    calls: usize,
    answer: Answer,
) -> Result<(), Fail> {
    let grammar = grammar()?;
    let text = repeated(heap, piece, times)?;
    let mut feed = TextFeed::new(&grammar, text.as_slice());
    assert_eq!(rt; answer_behind(&mut feed, calls), answer);
    Ok(())
}

/// A record of so many amounts, each with a word behind it, ends as it must.
fn check_keys(rt: &impl Abort, feed: &mut KeyFeed, words: usize) {
    assert_eq!(rt;
        answer_behind(feed, words),
        Answer::Amount(258, 1_048_572, 1_048_575)
    );
    assert_eq!(rt; next(feed), Answer::Terminal(1, 1_048_575, 1_048_576));
    assert_eq!(rt; next(feed), Answer::End);
}

#[test]
fn forty_thousand_bytes(rt: HostRuntime) -> Result<(), Fail> {
    let heap = rt.alloc();
    check_text(
        &rt,
        heap,
        b"tea and ",
        5_000,
        9_999,
        Answer::Terminal(2, 39_996, 39_999),
    )?;
    check_text(&rt, heap, b"tea and ", 5_000, 10_000, Answer::End)?;
    check_text(
        &rt,
        heap,
        b"1234",
        10_000,
        0,
        Answer::Refused(52, 0, 40_000),
    )
}

#[test]
fn a_megabyte_of_words(rt: HostRuntime) -> Result<(), Fail> {
    let heap = rt.alloc();
    check_text(
        &rt,
        heap,
        b"tea and ",
        131_072,
        262_143,
        Answer::Terminal(2, 1_048_572, 1_048_575),
    )?;
    check_text(
        &rt,
        heap,
        b"12345\n#\n",
        131_072,
        131_071,
        Answer::Amount(12_345, 1_048_568, 1_048_573),
    )
}

#[test]
fn a_megabyte_without_words(rt: HostRuntime) -> Result<(), Fail> {
    let heap = rt.alloc();
    check_text(&rt, heap, b" ", 1_048_576, 3, Answer::End)?;
    check_text(&rt, heap, b"#", 1_048_576, 3, Answer::End)?;
    check_text(
        &rt,
        heap,
        b"tea",
        349_526,
        3,
        Answer::Refused(51, 0, 1_048_578),
    )
}

#[test]
fn a_megabyte_of_keys(rt: HostRuntime) -> Result<(), Fail> {
    let record = repeated(rt.alloc(), &[0, 1, 2, 1], 262_144)?;
    let grammar = grammar()?;
    check_keys(&rt, &mut KeyFeed::new(&grammar, record.as_slice()), 524_286);
    Ok(())
}
