//! Builds, writes and checks the states of a grammar, up to a step that an argument names: `read`, `build`, `write` or `check`. For measurements.
#![tactic(auto)]

use anyhow::anyhow;
use built_states::BuiltStates;
use grammar::Grammar;
use states::StateSource;
use std::str::FromStr;
use std::{env, fs};
use tables::Table;

/// How far to go.
#[derive(Clone, Copy, PartialEq, Eq)]
enum Step {
    Read,
    Build,
    Write,
    Check,
}

impl FromStr for Step {
    type Err = anyhow::Error;

    fn from_str(word: &str) -> anyhow::Result<Step> {
        match word {
            "read" => Ok(Step::Read),
            "build" => Ok(Step::Build),
            "write" => Ok(Step::Write),
            "check" => Ok(Step::Check),
            _ => Err(anyhow!("the argument is read, build, write or check")),
        }
    }
}

/// The step that the first argument names; without one, the last.
fn last_step(rt: &HostRuntime) -> anyhow::Result<Step> {
    env::args(rt)?
        .nth(1)
        .map_or(Ok(Step::Check), |word| word.as_str().parse())
}

// An enum and not closures: each step works on what the one before it made.
/// The steps up to the last wanted; the grammar is read already.
fn run(rt: &HostRuntime, grammar: &Grammar, last: Step) -> anyhow::Result<()> {
    let rules = grammar.rules();
    println!(rt; "rules {rules}")?;
    if last == Step::Read {
        return Ok(());
    }
    let built = BuiltStates::build(grammar).map_err(|_| anyhow!("too many states"))?;
    let states = built.states();
    println!(rt; "states {states}")?;
    if last == Step::Build {
        return Ok(());
    }
    let mut room = [0; 32652];
    let length = built
        .write(&mut room)
        .map_err(|_| anyhow!("the sheet is too long"))?;
    println!(rt; "bytes {length}")?;
    if last == Step::Write {
        return Ok(());
    }
    let table = Table::check(grammar, &room[..length]).map_err(|_| anyhow!(
        "the sheet does not pass"
    ))?;
    println!(rt; "passes with states {}", table.states())?;
    Ok(())
}

fn main(rt: HostRuntime) -> anyhow::Result<()> {
    let last = last_step(&rt)?;
    let sheet = fs::read(&rt, "grammar.bin")?;
    let grammar = Grammar::read(sheet.as_slice()).map_err(|_| anyhow!("grammar.bin is refused"))?;
    run(&rt, &grammar, last)
}
