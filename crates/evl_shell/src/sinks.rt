//! The sinks that traces go to.
ghost use Rattle.std.specs.Prelude.{◌≡◌, ◌≤◌, true, false, List, ℕ, Option, Bool, length, take, OnOk, OnErr};
ghost use Rattle.std.specs.Io.KnownBytes.{Appends};
ghost use Rattle.evl_shell.specs.Sinks.{TakesPrefix, failed_after};

use std::io::Write;

/// Something that takes bytes, and says which it took, or says nothing.
pub trait Sink {
    /// The bytes that were taken, where they are known.
    ghost told: { Self → Option (List ℕ) };

    /// Whether the sink has failed.
    ghost has_failed: { Self → Bool };

    /// The place that it writes to, as a number: for a writer that is lent, its borrow.
    ghost place: { Self → ℕ } = { λ _. 0 };

    /// Takes a front part of the bytes and answers its length. The sink has failed from the first time on that it took
    /// 0 of some bytes.
    fn put(&mut self, bytes: &[u8]) -> usize
        ensures within { result ≤ length bytes.now }
        ensures takes { Appends (told self.old) (told self.new) (take result bytes.now) }
        ensures failed { has_failed self.new ≡ failed_after (has_failed self.old) bytes.now result }
        ensures place { place self.new ≡ place self.old };

    /// Whether the sink has failed.
    fn failed(&self) -> bool
        ensures { result ≡ has_failed self.now };
}

// rule: A writer fails by an error and by a count of 0. A run's bank has at most 64 callbacks.
//   clauses: write_part: failed; Over::new; run; play; Over::into_inner
//   rows: each_write_fails_once; a_byte_a_write
/// Lets a writer take a front part of the bytes, and notes a failure: an error, or a count of 0.
pub fn write_part<W: Write>(writer: &mut W, bytes: &[u8], failed: &mut bool) -> usize
    ensures within { result ≤ length bytes.now }
    ensures takes { Appends (W.contents writer.old) (W.contents writer.new) (take result bytes.now) }
    ensures failed { failed.new ≡ failed_after failed.old bytes.now result }
{
    if bytes.is_empty() {
        return 0;
    }
    match writer.write(bytes) {
        Ok(0) => {
            *failed = true;
            0
        }
        Ok(count) => count,
        Err(_) => {
            *failed = true;
            0
        }
    }
}

/// The sink over a writer. An error and a count of 0 are its failures.
#[derive(Drop)]
pub struct Over<W: Write> {
    writer: W,
    failed: bool,
}

impl<W: Write> Over<W> {
    /// A sink over a writer, which hasn't failed.
    pub fn new(writer: W) -> Over<W>
        ensures writer { result.writer ≡ writer }
        ensures failed { result.failed ≡ false }
    {
        Over {
            writer,
            failed: false,
        }
    }

    /// The writer again.
    pub fn into_inner(self) -> W
        ensures { result ≡ self.writer }
    {
        self.writer
    }
}

impl<W: Write> Sink for Over<W> {
    ghost told = { λ s. W.contents s.writer };

    ghost has_failed = { λ s. s.failed };

    fn put(&mut self, bytes: &[u8]) -> usize {
        write_part(&mut self.writer, bytes, &mut self.failed)
    }

    fn failed(&self) -> bool {
        self.failed
    }
}

/// A sink has failed.
#[derive(Clone, Copy, PartialEq, Eq)]
pub struct SinkFailed;

/// Puts all of the bytes, or a front part where the sink fails.
pub fn put_all<S: Sink>(out: &mut S, bytes: &[u8]) -> Result<(), SinkFailed>
    ensures ok { OnOk result (Appends (S.told out.old) (S.told out.new) bytes.now) }
    ensures part { OnErr result (TakesPrefix (S.told out.old) (S.told out.new) bytes.now) }
    ensures working { OnOk result (S.has_failed out.new ≡ S.has_failed out.old) }
    ensures failed { OnErr result (S.has_failed out.new ≡ true) }
    ensures place { S.place out.new ≡ S.place out.old }
{
    let mut rest = bytes;
    while !rest.is_empty() {
        let count = out.put(rest);
        if count == 0 {
            return Err(SinkFailed);
        }
        rest = &rest[count..];
    }
    Ok(())
}
