//! Histories that are made of steps.
use crate::answers::Answer;
use crate::calls::{Answered, Call, Script};
use crate::refusals::{OVER_P, OVER_Q};
use crate::sheets::{grammar_of, reading_of, states_of};
use either::{Left, Right};
use grammar::Grammar;
use records::{Alternative, Node};
use replay::{Step, Told, perform, replay};
use sample_sheets::{P, Q};
use std::alloc::{AllocError, Global};
use std::process::Abort;
use std::test::Fail;
use words::{KeyFeed, TextFeed, Word, WordFeed};

/// What no call answers first: the log has it where nothing is written.
const NOT_WRITTEN: Told = Told::Judged(Ok(true));

/// The calls of a script as steps.
fn steps_of<'g>(
    calls: &[Answered],
    grammar: &'g Grammar,
    heap: Global,
) -> Result<Vec<Step<TextFeed<'g, 'static>>>, AllocError> {
    let mut steps = Vec::new(heap);
    for (call, _, _, _) in calls {
        steps.push(call.step(grammar, heap)?)?;
    }
    Ok(steps)
}

/// A history of the calls, with a log of ten and room in it for so many, answers as the calls do; past them, nothing is made or written.
fn check_script(
    rt: &impl Abort,
    heap: Global,
    sheet: &[u8],
    script: Script,
    room: usize,
) -> Result<(), Fail> {
    let grammar = grammar_of(sheet)?;
    let mut steps = steps_of(script.calls, &grammar, heap)?;
    let mut log = [NOT_WRITTEN; 10];
    let source = states_of(&grammar)?;
    let reading = replay(source, steps.as_mut_slice(), &mut log[..room.min(10)]);
    let mut kept = (0, 0);
    for (k, told) in log.iter().enumerate() {
        match script.calls.get(k) {
            Some((_, answer, words, count)) if k < room => {
                assert_eq!(rt; Answer::from(*told), *answer);
                kept = (*words, *count);
            },
            _ => assert_eq!(rt; *told, NOT_WRITTEN),
        }
    }
    assert_eq!(rt; (reading.words(), reading.count()), kept);
    Ok(())
}

#[test]
fn histories_answer_as_calls_do(rt: HostRuntime) -> Result<(), Fail> {
    for script in OVER_P {
        check_script(&rt, rt.alloc(), &P, script, 10)?;
    }
    for script in OVER_Q {
        check_script(&rt, rt.alloc(), &Q, script, 10)?;
    }
    Ok(())
}

/// Only so many calls are made as the log has room for.
#[test]
fn logs_shorter_than_the_steps(rt: HostRuntime) -> Result<(), Fail> {
    for script in OVER_P {
        for room in 0..7 {
            check_script(&rt, rt.alloc(), &P, script, room)?;
        }
    }
    Ok(())
}

/// The lists of a step are what a gather leaves in them.
#[test]
fn a_gather_fills_the_lists_of_its_step(rt: HostRuntime) -> Result<(), Fail> {
    let grammar = grammar_of(&P)?;
    let mut reading = reading_of(&P, &[0, 1])?;
    let mut step = Call::Gather(2, 1).step(&grammar, rt.alloc())?;
    assert_eq!(rt;
        Answer::from(perform(&mut reading, &mut step)),
        Answer::Counted(1, 1)
    );
    let Step::Gather(nodes, alternatives) = step else {
        return Err(Fail::new("another step"));
    };
    let part = Node {
        from: 0,
        to: 2,
        symbol: 4,
    };
    let way = Alternative {
        rule: 1,
        cuts: [0, 1, 2, 255, 255, 255, 255, 255],
    };
    assert_eq!(rt; nodes.as_slice(), [part, Node::blank()].as_slice());
    assert_eq!(rt; alternatives.as_slice(), [way].as_slice());
    Ok(())
}

/// A feed as a step, of the words 1, 1 and 2 at the bytes 0, 4 and 8: the second is refused, and the third is left.
fn check_feed<F: WordFeed + Drop>(rt: &impl Abort, feed: F) -> Result<(), Fail> {
    let mut reading = reading_of(&P, &[0])?;
    let mut step = Step::ReadThrough(feed);
    assert_eq!(rt;
        Answer::from(perform(&mut reading, &mut step)),
        Answer::AtWord(45, 2, 1, 4, 7)
    );
    let next = Word {
        terminal: 2,
        amount: 0,
        from: 8,
        to: 11,
    };
    let Step::ReadThrough(rest) = &mut step else {
        return Err(Fail::new("another step"));
    };
    assert_eq!(rt; rest.next_word(), Ok(Some(next)));
    Ok(())
}

/// The feed of a step is as a read-through leaves it.
#[test]
fn the_feed_of_a_step_goes_on(rt: HostRuntime) -> Result<(), Fail> {
    let grammar = grammar_of(&P)?;
    check_feed(&rt, TextFeed::new(&grammar, b"tea tea and"))
}

/// Texts and key records mix. The last key is refused.
#[test]
fn texts_and_keys_mix(rt: HostRuntime) -> Result<(), Fail> {
    let grammar = grammar_of(&P)?;
    let text = TextFeed::new(&grammar, b"1 tea");
    let keys = KeyFeed::new(&grammar, b"\x02\0\0\x01\x01\x01");
    let mut steps = [
        Step::Open(4096),
        Step::ReadThrough(Left(text)),
        Step::ReadThrough(Right(keys)),
        Step::Judge,
    ];
    let mut log = [NOT_WRITTEN; 4];
    let reading = replay(states_of(&grammar)?, &mut steps, &mut log);
    let answers = [
        Answer::Done,
        Answer::Judged(true),
        Answer::AtWord(45, 5, 1, 5, 6),
        Answer::Judged(true),
    ];
    for (told, answer) in log.iter().zip(answers) {
        assert_eq!(rt; Answer::from(*told), answer);
    }
    assert_eq!(rt; reading.words(), 5);
    Ok(())
}
