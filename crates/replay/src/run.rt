//! Calls that are given as values, made on a reading.
ghost use Rattle.std.specs.Prelude.{◌≡◌};
ghost use Rattle.reader.specs.Readings.{Makes, held};
ghost use Rattle.histories.specs.Laws.{Law};
ghost use Rattle.replay.specs.Chains.{Leads};
ghost use Rattle.replay.specs.Steps.{call_of, answer_of, history_of, told_kind, step_kind, asked, Leaves};

use crate::step::{Step, Told};
use reader::Reading;
use states::StateSource;
use words::WordFeed;

/// Makes one call.
pub fn perform<S: StateSource, F: WordFeed>(reading: &mut Reading<S>, step: &mut Step<F>) -> Told
    ensures makes { Makes S.meaning reading.old (call_of F.coming step.old) (answer_of F.coming result step.new) reading.new }
    ensures kind { told_kind result ≡ step_kind step.new }
    ensures stays { asked step.new ≡ asked step.old }
{
    match step {
        Step::Open(limit) => Told::Done(reading.open(*limit)),
        Step::Take(terminal) => Told::Done(reading.take(*terminal)),
        Step::ReadThrough(feed) => Told::ReadThrough(reading.read_through(feed)),
        Step::Back(words) => Told::Done(reading.back(*words)),
        Step::Judge => Told::Judged(reading.judge()),
        Step::Gather(nodes, alternatives) => {
            Told::Gathered(reading.gather(nodes.as_mut_slice(), alternatives.as_mut_slice()))
        },
    }
}

/// Makes the calls one by one on a fresh reading over the source, as many as the log has room for, and writes their answers to the log. What
/// is past them in the steps and in the log stays. The
/// law holds of this history, of which each call did what it ensures.
pub fn replay<S: StateSource, F: WordFeed>(
    source: S,
    steps: &mut [Step<F>],
    log: &mut [Told],
) -> Reading<S>
    ensures over { result.source ≡ source }
    ensures leaves { Leaves steps.old log.old log.new steps.new }
    ensures leads { Leads S.meaning source (history_of F.coming steps.old log.new steps.new) result }
    ensures law { Law (S.meaning source) (history_of F.coming steps.old log.new steps.new) (held result) }
{
    let mut reading = Reading::new(source);
    for i in 0..steps.len().min(log.len()) {
        log[i] = perform(&mut reading, &mut steps[i]);
    }
    reading
}
