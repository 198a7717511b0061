//! Shows the words of a text that is read from standard input, by the grammar sheet `grammar.bin` of the current folder: a line for each, then the
//! end or the refusal.
#![tactic(auto)]

use file_bytes::{bytes_of, told};
use std::io;
use std::io::Read;
use word_listing::report_words;

// Stands in `sheet` and `key` too: nothing is known of what is read, so a public one would promise nothing.
/// The bytes of the standard input.
fn input(rt: &HostRuntime) -> io::Result<Vec<u8>> {
    let mut text = Vec::new(rt.alloc());
    rt.stdin().read_to_end(&mut text)?;
    Ok(text)
}

fn run(rt: &HostRuntime) -> io::Result<()> {
    let sheet = bytes_of(rt, "grammar.bin")?;
    let text = input(rt)?;
    rt.print(report_words(rt.alloc(), sheet.as_slice(), text.as_slice())?)
}

fn main(rt: HostRuntime) -> io::Result<()> {
    told(&rt, "show_words", run(&rt))
}
