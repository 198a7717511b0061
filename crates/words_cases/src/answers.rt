//! What a feed answers, one call after another.
use grammar::{Grammar, Layer, Refusal};
use sample_sheets::P;
use std::process::Abort;
use std::test::Fail;
use words::{FeedFault, Word, WordFeed};

// No `Result<Option<Word>, Refused>`: a constant may call no function, so each case would write out the four fields of a `Word`.
/// The answer to one call.
#[derive(Clone, Copy, PartialEq, Eq, Debug)]
pub enum Answer {
    /// An amount, and the bytes from which and up to which it stands.
    Amount(u32, usize, usize),
    /// Another terminal, and its bytes.
    Terminal(u8, usize, usize),
    End,
    /// The number of a refusal, and its places.
    Refused(u8, usize, usize),
    /// Anything else.
    Strange,
}

/// What the fault is shown as.
fn refused(fault: FeedFault) -> Answer {
    match fault.refusal() {
        Refusal {
            number,
            layer: Layer::Feed,
            first,
            second,
        } => Answer::Refused(number, first, second),
        _ => Answer::Strange,
    }
}

/// The answer to the next call.
pub fn next<F: WordFeed>(feed: &mut F) -> Answer {
    match feed.next_word() {
        Ok(
            Some(
                Word {
                    terminal: 0,
                    amount,
                    from,
                    to,
                },
            ),
        ) => Answer::Amount(amount, from, to),
        Ok(
            Some(
                Word {
                    terminal,
                    amount: 0,
                    from,
                    to,
                },
            ),
        ) => Answer::Terminal(terminal, from, to),
        Ok(Some(_)) => Answer::Strange,
        Ok(None) => Answer::End,
        Err(fault) => refused(fault),
    }
}

/// The grammar of P. The terminals are 0, the amount, 1, `tea`, and 2, `and`.
pub fn grammar() -> Result<Grammar, Fail> {
    Ok(Grammar::read(&P)?)
}

/// What a case is about, the bytes of a feed, and its answers, of which the last comes again and again.
pub type Case<'a> = (&'a str, &'a [u8], &'a [Answer]);

/// The feed of the case gives these answers.
pub(crate) fn check_feed<F: WordFeed>(
    rt: &impl Abort,
    what: &str,
    feed: &mut F,
    answers: &[Answer],
) {
    for answer in answers {
        assert_eq!(rt; next(feed), *answer, "{what}");
    }
    let last = answers.last().copied();
    assert_eq!(rt; Some(next(feed)), last, "{what}");
    assert_eq!(rt; Some(next(feed)), last, "{what}");
}

/// Each of these cases has its answers.
pub(crate) fn check_cases<'a, F: WordFeed + Drop, N: Fn(&'a [u8]) -> F>(
    rt: &impl Abort,
    cases: &[Case<'a>],
    feed: N,
)
    requires { N.IsAlwaysCallable feed }
{
    for (what, bytes, answers) in cases {
        check_feed(rt, what, &mut feed(bytes), answers);
    }
}
