//! Texts and key records in one list of feeds.
use crate::answers::{Answer, check_feed, grammar};
use either::{Either, Left, Right};
use std::test::Fail;
use words::{KeyFeed, TextFeed};

#[test]
fn texts_and_records_mix(rt: HostRuntime) -> Result<(), Fail> {
    let grammar = grammar()?;
    let mut feeds: Vec<Either<TextFeed, KeyFeed>> = Vec::new(rt.alloc());
    feeds.push(Left(TextFeed::new(&grammar, b"tea 12")))?;
    feeds.push(Right(KeyFeed::new(&grammar, &[1, 40])))?;
    feeds.push(Left(TextFeed::new(&grammar, b"cups")))?;
    let answers: [&[Answer]; 3] = [
        &[
            Answer::Terminal(1, 0, 3),
            Answer::Amount(12, 4, 6),
            Answer::End,
        ],
        &[Answer::Terminal(1, 0, 1), Answer::Refused(53, 1, 2)],
        &[Answer::Refused(51, 0, 4)],
    ];
    for (feed, answers) in feeds.iter_mut().zip(answers) {
        check_feed(&rt, "a feed of the list", feed, answers);
    }
    Ok(())
}
