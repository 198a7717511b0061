//! Shows what the grammar sheet `grammar.bin` of the current folder says, or why it is refused.
#![tactic(auto)]

#[cfg(test)]
mod tests;

use file_bytes::{bytes_of, told};
use inspection::report;
use std::io;

fn run(rt: &HostRuntime) -> io::Result<()> {
    let sheet = bytes_of(rt, "grammar.bin")?;
    rt.print(report(rt.alloc(), sheet.as_slice())?)
}

fn main(rt: HostRuntime) -> io::Result<()> {
    told(&rt, "inspect: grammar.bin", run(&rt))
}
