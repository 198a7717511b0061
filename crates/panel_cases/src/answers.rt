//! Answers and faults as values, without the lines.
use panel::{Answer, Fault, Input, answer_keys, answer_text};
use sample_sheets::{P, P_TABLE};
use std::test::Fail;

/// An answer that is no fault.
fn some_answer(answer: Result<Answer, Fault>) -> Result<Answer, Fail> {
    answer.map_err(|_| Fail::new("it is refused"))
}

#[test]
fn a_sentence(rt: HostRuntime) -> Result<(), Fail> {
    let answer = some_answer(answer_text(&P, &P_TABLE, b"7 tea"))?;
    let Some(forest) = answer.forest else {
        return Err(Fail::new("it has no forest"));
    };
    assert_eq!(rt; answer.words, 2);
    assert_eq!(rt; answer.links, 3);
    assert_eq!(rt; forest.counts.nodes, 1);
    assert_eq!(rt; forest.alternatives().len(), 1);
    Ok(())
}

#[test]
fn no_sentence(rt: HostRuntime) -> Result<(), Fail> {
    let answer = some_answer(answer_keys(&P, &[], &[255]))?;
    assert_eq!(rt; answer.words, 0);
    assert_eq!(rt; answer.links, 0);
    assert!(rt; answer.forest.is_none());
    Ok(())
}

#[test]
fn a_fault(rt: HostRuntime) -> Result<(), Fail> {
    let table = vec![in rt.alloc(); 0u8; 40_001]?;
    let answer = answer_text(&P, table.as_slice(), b"7 tea");
    assert!(rt; answer.is_err_and(|fault| fault == Fault::TooLong(Input::Table)));
    Ok(())
}
