//! The files of a row.
use std::rt::Files;
use std::{fs, io};

/// The bytes in the file of this name with this ending.
pub fn read_file<R: Files + AllocGlobal>(rt: &R, name: &str, ending: &str) -> io::Result<Vec<u8>> {
    let path = format!(in rt.alloc(); "{name}.{ending}")?;
    fs::read(rt, path)
}
