//! Writers and readers that take or give little, fail, or report how they were used.
ghost use Rattle.std.specs.Prelude.{◌≡◌, []};

use std::alloc::Global;
use std::io::{self, ErrorKind, Read, Write};

/// A writer that keeps what it took: at most so many bytes a write, and at one write none or an error.
#[derive(Drop)]
pub struct Narrow {
    pub taken: Vec<u8>,
    pub writes: usize,
    most: usize,
    stop: usize,
    fails: bool,
}

impl Narrow {
    /// It stops at the write with number `stop`, from 1: by an error where it fails, else by a count of 0.
    pub fn new(alloc: Global, most: usize, stop: usize, fails: bool) -> Narrow
        ensures taken { result.taken.items ≡ [] }
        ensures writes { result.writes ≡ 0 }
    {
        Narrow {
            taken: Vec::new(alloc),
            writes: 0,
            most,
            stop,
            fails,
        }
    }
}

impl Write for Narrow {
    fn write(&mut self, buf: &[u8]) -> io::Result<usize> {
        self.writes = self.writes.saturating_add(1);
        if self.writes == self.stop {
            return if self.fails {
                Err(ErrorKind::BrokenPipe.into())
            } else {
                Ok(0)
            };
        }
        let count = buf.len().min(self.most);
        match self.taken.extend_from_slice(&buf[..count]) {
            Ok(()) => Ok(count),
            Err(_) => Err(ErrorKind::OutOfMemory.into()),
        }
    }

    fn flush(&mut self) -> io::Result<()> {
        Ok(())
    }
}

/// A reader that gives a text, a byte a read, and then so many ends; it fails at any further read.
#[derive(Drop)]
pub struct Ended<'a> {
    rest: &'a [u8],
    ends: usize,
}

impl<'a> Ended<'a> {
    /// A reader of a text.
    pub(crate) fn new(text: &'a str, ends: usize) -> Ended<'a> {
        Ended {
            rest: text.as_bytes(),
            ends,
        }
    }
}

impl<'a> Read for Ended<'a> {
    fn read(&mut self, buf: &mut [u8]) -> io::Result<usize> {
        if buf.is_empty() {
            return Ok(0);
        }
        match self.rest.split_first() {
            Some((first, rest)) => {
                buf[0] = *first;
                self.rest = rest;
                Ok(1)
            }
            None if self.ends == 0 => Err(ErrorKind::Other.into()),
            None => {
                self.ends = self.ends.saturating_sub(1);
                Ok(0)
            }
        }
    }
}

/// A reader that gives a text in parts of at most so many bytes, and fails at one read.
#[derive(Drop)]
pub struct Parts<'a> {
    pub reads: usize,
    rest: &'a [u8],
    most: usize,
    stop: usize,
}

impl<'a> Parts<'a> {
    /// It fails at the read with number `stop`, from 1.
    pub(crate) fn new(text: &'a str, most: usize, stop: usize) -> Parts<'a> {
        Parts {
            reads: 0,
            rest: text.as_bytes(),
            most,
            stop,
        }
    }
}

impl<'a> Read for Parts<'a> {
    fn read(&mut self, buf: &mut [u8]) -> io::Result<usize> {
        self.reads = self.reads.saturating_add(1);
        if self.reads == self.stop {
            return Err(ErrorKind::Other.into());
        }
        let count = self.rest.len().min(self.most).min(buf.len());
        let (given, rest) = self.rest.split_at(count);
        buf[..count].copy_from_slice(given);
        self.rest = rest;
        Ok(count)
    }
}
