//! What the programs do alike: read a file that need not be there, and show an error that they end by.
#![tactic(auto)]

ghost use Rattle.std.specs.Prelude.{◌≡◌, ◌≢◌, Ok, IfErr, IsErr, MatchResult};
ghost use Rattle.std.specs.IoError.{error_kind};

#[cfg(test)]
mod tests;

use std::io::ErrorKind;
use std::{fs, io};

/// The bytes of a file; none where there is no such file, which is thus no error.
pub fn bytes_of(rt: &HostRuntime, path: &str) -> io::Result<Vec<u8>>
    ensures { IfErr result (λ e. error_kind e ≢ ErrorKind.NotFound) }
{
    fs::read(rt, path).or_else(|e| match e.kind() {
        ErrorKind::NotFound => Ok(Vec::new(rt.alloc())),
        _ => Err(e),
    })
}

/// The outcome as it is; an error is shown first, behind the words that name its place.
pub fn told<T: Drop>(rt: &HostRuntime, place: &str, outcome: io::Result<T>) -> io::Result<T>
    ensures { MatchResult outcome (λ x. result ≡ Ok x) (λ _. IsErr result) }
{
    outcome.or_else(|e| {
        eprintln!(rt; "{place}: {e}")?;
        Err(e)
    })
}
