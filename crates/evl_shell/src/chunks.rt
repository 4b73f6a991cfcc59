//! A trace on its way to a sink, in chunks.
ghost use Rattle.std.specs.Prelude.{◌≡◌, ◌++◌, [], true, false, OnOk, OnErr, IfErr};
ghost use Rattle.std.specs.Io.KnownBytes.{Appends};
ghost use Rattle.evl_shell.specs.Sinks.{TakesPrefix, Passes, kept_bytes};
ghost use Rattle.evl_shell.specs.Faults.{Stopped};

use crate::sinks::{Sink, SinkFailed, put_all};
use evl_scenario::Fault;
use std::alloc::Global;
use std::marker::Model;

// How many bytes wait before they are handed on.
const CHUNK: usize = 4096;

/// The bytes that wait for the sink: fewer than a chunk between two calls.
#[derive(Drop)]
pub struct Chunks {
    waiting: Vec<u8>,
}

impl Model for Chunks {
    ghost use Rattle.std.specs.Prelude.{List, ℕ};

    ghost Value = { List ℕ };

    ghost view = { λ c. c.waiting.items };
}

impl Chunks {
    /// No bytes wait.
    pub fn new(alloc: Global) -> Chunks
        ensures { result ≡ [] }
    {
        Chunks {
            waiting: Vec::new(alloc),
        }
    }

    /// Hands on all that waits, or a front part where the sink fails; nothing waits then.
    pub fn flush<S: Sink>(&mut self, out: &mut S) -> Result<(), SinkFailed>
        ensures ok { OnOk result (Appends (S.told out.old) (S.told out.new) self.old) }
        ensures part { OnErr result (TakesPrefix (S.told out.old) (S.told out.new) self.old) }
        ensures working { OnOk result (S.has_failed out.new ≡ S.has_failed out.old) }
        ensures failed { OnErr result (S.has_failed out.new ≡ true) }
        ensures empty { self.new ≡ [] }
    {
        let result = put_all(out, self.waiting.as_slice());
        self.waiting.clear();
        result
    }

    /// Hands on all that waits where no more can be made for want of memory, and says so: `Memory`, or `Write` where
    /// the sink fails.
    pub fn give_up<S: Sink>(&mut self, out: &mut S) -> Fault
        requires working { S.has_failed out.old ≡ false }
        ensures stopped { Stopped (S.told out.old) self.old (S.told out.new) [] (S.has_failed out.new) result }
        ensures empty { self.new ≡ [] }
    {
        match self.flush(out) {
            Ok(()) => Fault::Memory,
            Err(SinkFailed) => Fault::Write,
        }
    }

    /// Lets a text wait, and hands on all that waits where that is a chunk or more.
    /// `Memory` where the text can't wait for want of memory, `Write` where the sink fails: then nothing waits.
    pub fn put<S: Sink>(&mut self, text: &str, out: &mut S) -> Result<(), Fault>
        requires working { S.has_failed out.old ≡ false }
        ensures ok { OnOk result (Passes (S.told out.old) self.old (S.told out.new) self.new text.now) }
        ensures waits { OnOk result (self.new ≡ kept_bytes (self.old ++ text.now)) }
        ensures working { OnOk result (S.has_failed out.new ≡ false) }
        ensures stopped { IfErr result (Stopped (S.told out.old) self.old (S.told out.new) text.now (S.has_failed out.new)) }
        ensures empty { OnErr result (self.new ≡ []) }
    {
        if self.waiting.extend_from_slice(text.as_bytes()).is_err() {
            return Err(self.give_up(out));
        }
        if self.waiting.len() < CHUNK {
            return Ok(());
        }
        match self.flush(out) {
            Ok(()) => Ok(()),
            Err(SinkFailed) => Err(Fault::Write),
        }
    }
}
