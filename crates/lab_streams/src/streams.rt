//! The streams of the program, of which it is known whether they have failed.
ghost use Rattle.std.specs.Prelude.{◌≡◌, Bool, List, Option, ℕ, IfSome, OnErr, OnOk, false, true};
ghost use Rattle.std.specs.Io.{ReadsAtMost};
ghost use Rattle.std.specs.Io.KnownBytes.{Appends, ReadConsumes};

use std::fmt::Display;
use std::io::{self, Read, Write};

/// A stream that is written to.
pub trait Stream {
    /// The bytes that it holds, where they are known.
    ghost contents: { Self → Option (List ℕ) };

    /// Whether a write has failed.
    ghost has_failed: { Self → Bool };

    /// Writes all of the bytes, or the stream has failed.
    fn write_all(&mut self, bytes: &[u8]) -> io::Result<()>
        ensures bytes { OnOk result (Appends (Self.contents self.old) (Self.contents self.new) bytes.now) }
        ensures failed { OnErr result (Self.has_failed self.new ≡ true) };

    /// Writes a text, or the stream has failed.
    fn write_fmt<D: Display>(&mut self, text: D) -> io::Result<()>
    where
        D: Drop,
        ensures bytes { OnOk result (IfSome (D.output text) (Appends (Self.contents self.old) (Self.contents self.new))) }
        ensures failed { OnErr result (Self.has_failed self.new ≡ true) };
}

/// A stream that is read.
pub trait Source: Read {
    /// Whether a read has failed, or the stream had no end.
    ghost has_failed: { Self → Bool };

    /// Reads some bytes, none at the end, or the stream has failed.
    fn fetch(&mut self, buffer: &mut [u8]) -> io::Result<usize>
        ensures bound { ReadsAtMost result buffer.new }
        ensures bytes { ReadConsumes (Self.remaining self.old) (Self.remaining self.new) result buffer.new }
        ensures failed { OnErr result (has_failed self.new ≡ true) };

    /// Counts as failed a stream that had no end, and answers this as an error.
    fn endless(&mut self) -> io::Error
        ensures { has_failed self.new ≡ true };
}

/// A stream, and whether it has failed.
#[derive(Drop)]
pub struct Watched<W> {
    stream: W,
    has_failed: bool,
}

impl<W> Watched<W> {
    /// A stream that hasn't failed.
    pub fn new(stream: W) -> Watched<W>
        ensures { result.has_failed ≡ false }
    {
        Watched {
            stream,
            has_failed: false,
        }
    }
}

impl<W: Write> Stream for Watched<W> {
    ghost contents = { λ s. W.contents s.stream };

    ghost has_failed = { λ s. s.has_failed };

    fn write_all(&mut self, bytes: &[u8]) -> io::Result<()> {
        match self.stream.write_all(bytes) {
            Ok(()) => Ok(()),
            Err(error) => {
                self.has_failed = true;
                Err(error)
            }
        }
    }

    fn write_fmt<D: Display>(&mut self, text: D) -> io::Result<()>
    where
        D: Drop,
    {
        match self.stream.write_fmt(text) {
            Ok(()) => Ok(()),
            Err(error) => {
                self.has_failed = true;
                Err(error)
            }
        }
    }
}

impl<R: Read> Read for Watched<R> {
    ghost remaining = { λ s. R.remaining s.stream };

    fn read(&mut self, buffer: &mut [u8]) -> io::Result<usize> {
        self.stream.read(buffer)
    }
}

impl<R: Read> Source for Watched<R> {
    ghost has_failed = { λ s. s.has_failed };

    fn fetch(&mut self, buffer: &mut [u8]) -> io::Result<usize> {
        match self.stream.read(buffer) {
            Ok(count) => Ok(count),
            Err(error) => {
                self.has_failed = true;
                Err(error)
            }
        }
    }

    fn endless(&mut self) -> io::Error {
        self.has_failed = true;
        io::ErrorKind::FileTooLarge.into()
    }
}
