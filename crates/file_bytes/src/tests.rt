//! A file that is there, and one that is not.
use crate::bytes_of;
use std::test::Fail;

#[test]
fn a_file_has_its_bytes(rt: HostRuntime) -> Result<(), Fail> {
    let bytes = bytes_of(&rt, "/proc/self/status")?;
    assert!(rt; bytes.as_slice().starts_with(b"Name:"));
    Ok(())
}

#[test]
fn a_missing_file_has_no_bytes(rt: HostRuntime) -> Result<(), Fail> {
    let bytes = bytes_of(&rt, "/proc/self/no such file")?;
    assert_eq!(rt; bytes.len(), 0);
    Ok(())
}
