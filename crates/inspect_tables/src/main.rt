//! Shows what the grammar sheet `grammar.bin` and the table sheet `table.bin` of the current folder say, or why they are refused. Without a
//! table sheet it shows the states that it builds.
#![tactic(auto)]

#[cfg(test)]
mod table_tests;

use file_bytes::{bytes_of, told};
use std::io;
use table_inspection::full_report;

fn main(rt: HostRuntime) -> io::Result<()> {
    let grammar = told(
        &rt,
        "inspect_tables: grammar.bin",
        bytes_of(&rt, "grammar.bin"),
    )?;
    let table = told(&rt, "inspect_tables: table.bin", bytes_of(&rt, "table.bin"))?;
    rt.print(full_report(rt.alloc(), grammar.as_slice(), table.as_slice())?)
}
