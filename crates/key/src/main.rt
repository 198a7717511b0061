//! Reads a record of pressed keys from standard input, by the grammar sheet `grammar.bin` and the table sheet `table.bin` of the current folder, and
//! prints what it comes to. Without a table sheet it builds the states.
#![tactic(auto)]

use file_bytes::{bytes_of, told};
use panel::read_keys;
use std::io;
use std::io::Read;

// Stands in `show_words`, `sheet` and `key`: nothing is known of what is read, so a public one would promise nothing.
/// The bytes of the standard input.
fn input(rt: &HostRuntime) -> io::Result<Vec<u8>> {
    let mut keys = Vec::new(rt.alloc());
    rt.stdin().read_to_end(&mut keys)?;
    Ok(keys)
}

fn run(rt: &HostRuntime) -> io::Result<()> {
    let grammar = bytes_of(rt, "grammar.bin")?;
    let table = bytes_of(rt, "table.bin")?;
    let keys = input(rt)?;
    rt.print(read_keys(
        rt.alloc(),
        grammar.as_slice(),
        table.as_slice(),
        keys.as_slice(),
    )?)
}

fn main(rt: HostRuntime) -> io::Result<()> {
    told(&rt, "key", run(&rt))
}
