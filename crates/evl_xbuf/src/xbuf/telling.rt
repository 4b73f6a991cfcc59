//! The calls on a cross-buffer with the services entered into a list of the caller's, so that no such list is moved.
ghost use Rattle.std.specs.Prelude.{◌≡◌, ◌<◌, ◌≤◌, ◌+◌, ◌&&◌, true, false, [], None, Some, Ok, IfErr, IfNone, IfOk, IfSome, if◌then◌else◌};
ghost use Rattle.std.specs.Option.{option_map};
ghost use Rattle.evl_base.specs.Limits.{thread_limit};
ghost use Rattle.evl_sync.specs.Queues.{stands_in};
ghost use Rattle.evl_sync.specs.Steps.{step_by};
ghost use Rattle.evl_xbuf.specs.Streams.{fits, is_unawaited};
ghost use Rattle.evl_xbuf.specs.Xbufs.{begin_read, begin_write, drop_waiter, reading_stage, same_stage, stream, try_read, try_write, writing_stage};

use super::XbufOf;
use crate::services::Services;
use evl_base::{Bytes, Refusal, Spares, Stage, ThreadId, Transfer, Way};
use std::alloc::Allocator;

// The most bytes of one transfer.
const MAX_TRANSFER: u16 = 256;

impl<A: Allocator> XbufOf<A> {
    /// Writes as `try_write` does, and enters whom that served into a list where nobody is yet. (Xenomai 4: EVL
    /// cross-buffer; this profile)
    #[inline(always)]
    pub fn try_write_telling(
        &mut self,
        stage: Stage,
        way: Way,
        bytes: &[u8],
        told: &mut Services,
    ) -> Result<(), Refusal>
        requires nobody { told.old ≡ [] }
        ensures step { step_by (λ _. told.new) result self.new ≡ try_write stage way bytes.now self.old }
        ensures refused { IfErr result (λ e. self.new ≡ self.old) }
        ensures untold { IfErr result (λ e. told.new ≡ told.old) }
    {
        if !writes(stage, way) {
            return Err(Refusal::WrongStage);
        }
        match way {
            Way::In => self.inbound.try_write(bytes, told),
            Way::Out => self.outbound.try_write(bytes, told),
        }
    }

    /// Writes all of the bytes, as `try_write` does, where that is accepted and nobody waits, and says whether it did;
    /// nothing changes else. (Xenomai 4: EVL cross-buffer; this profile)
    #[inline(always)]
    pub fn write_unserved(&mut self, stage: Stage, way: Way, bytes: &[u8]) -> bool
        ensures whether { result ≡ (same_stage (writing_stage way) stage && (is_unawaited (stream self.old way) && fits (stream self.old way) bytes.now)) }
        ensures step { result ≡ true → try_write stage way bytes.now self.old ≡ Ok ([], self.new) }
        ensures kept { result ≡ false → self.new ≡ self.old }
    {
        if !writes(stage, way) {
            return false;
        }
        match way {
            Way::In => self.inbound.write_unserved(bytes),
            Way::Out => self.outbound.write_unserved(bytes),
        }
    }

    /// Reads as `try_read` does, into a box of `spares`, where that is accepted, nobody waits and the bytes lie in one
    /// piece; none, and nothing changes, else. (Xenomai 4: EVL cross-buffer; this profile)
    #[inline(always)]
    pub fn read_unserved<B: Allocator>(
        &mut self,
        stage: Stage,
        way: Way,
        len: u16,
        spares: &mut Spares<B>,
    ) -> Option<Transfer>
        requires boxes { 1 ≤ spares.old }
        ensures step { IfSome result (λ read. try_read stage way len self.old ≡ Ok ((read.items, []), self.new)) }
        ensures spent { spares.old ≤ spares.new + 1 }
        ensures kept { IfNone result ((self.new ≡ self.old) × (spares.new ≡ spares.old)) }
    {
        if len > MAX_TRANSFER || !reads(stage, way) {
            return None;
        }
        match way {
            Way::In => self.inbound.read_unserved(len, spares),
            Way::Out => self.outbound.read_unserved(len, spares),
        }
    }

    /// Reads as `try_read` does, in the place of the bytes that `got` had, and enters whom that served into a list where
    /// nobody is yet. (Xenomai 4: EVL cross-buffer; this profile)
    #[inline(always)]
    pub fn try_read_telling(
        &mut self,
        stage: Stage,
        way: Way,
        len: u16,
        got: &mut Bytes,
        told: &mut Services,
    ) -> Result<(), Refusal>
        requires nobody { told.old ≡ [] }
        ensures step { step_by (λ _. (got.new.items, told.new)) result self.new ≡ try_read stage way len self.old }
        ensures refused { IfErr result (λ e. self.new ≡ self.old) }
        ensures kept { IfErr result (λ e. got.new ≡ got.old) }
        ensures untold { IfErr result (λ e. told.new ≡ told.old) }
    {
        if len > MAX_TRANSFER {
            return Err(Refusal::Range);
        }
        if !reads(stage, way) {
            return Err(Refusal::WrongStage);
        }
        match way {
            Way::In => self.inbound.try_read(len, got, told),
            Way::Out => self.outbound.try_read(len, got, told),
        }
    }

    /// Writes or begins to wait as `begin_write` does, says whether it was done at once, and enters whom that served
    /// into a list where nobody is yet. (Xenomai 4: EVL cross-buffer)
    pub fn begin_write_telling(
        &mut self,
        thread: ThreadId,
        stage: Stage,
        way: Way,
        bytes: &[u8],
        told: &mut Services,
    ) -> Result<bool, Refusal>
        requires nobody { told.old ≡ [] }
        requires away { stands_in (λ w. w.thread) thread.0 (stream self.old way).writers ≡ false }
        requires few { thread.0 < thread_limit }
        ensures step { step_by (λ done. if done then Some told.new else None) result self.new ≡ begin_write thread.0 stage way bytes.now self.old }
        ensures refused { IfErr result (λ e. self.new ≡ self.old) }
        ensures untold { IfErr result (λ e. told.new ≡ told.old) }
        ensures waits { IfOk result (λ done. done ≡ false → told.new ≡ told.old) }
    {
        if !writes(stage, way) {
            return Err(Refusal::WrongStage);
        }
        match way {
            Way::In => self.inbound.begin_write(thread, bytes, told),
            Way::Out => self.outbound.begin_write(thread, bytes, told),
        }
    }

    /// Reads or begins to wait as `begin_read` does, with what was read at once, and enters whom that served into a list
    /// where nobody is yet. (Xenomai 4: EVL cross-buffer; this profile)
    pub fn begin_read_telling(
        &mut self,
        thread: ThreadId,
        stage: Stage,
        way: Way,
        len: u16,
        told: &mut Services,
    ) -> Result<Option<Bytes>, Refusal>
        requires nobody { told.old ≡ [] }
        requires away { stands_in (λ r. r.thread) thread.0 (stream self.old way).readers ≡ false }
        requires few { thread.0 < thread_limit }
        ensures step { step_by (λ got. option_map (λ bytes. (bytes.items, told.new)) got) result self.new ≡ begin_read thread.0 stage way len self.old }
        ensures refused { IfErr result (λ e. self.new ≡ self.old) }
        ensures untold { IfErr result (λ e. told.new ≡ told.old) }
        ensures waits { IfOk result (λ got. got ≡ None → told.new ≡ told.old) }
    {
        if len > MAX_TRANSFER {
            return Err(Refusal::Range);
        }
        if !reads(stage, way) {
            return Err(Refusal::WrongStage);
        }
        match way {
            Way::In => Ok(self.inbound.begin_read(thread, len, told)),
            Way::Out => Ok(self.outbound.begin_read(thread, len, told)),
        }
    }

    /// Lets a thread wait this way no more as `drop_waiter` does, and enters whom that served into a list where nobody
    /// is yet.
    pub fn drop_waiter_telling(&mut self, thread: ThreadId, way: Way, told: &mut Services)
        requires nobody { told.old ≡ [] }
        ensures step { (told.new, self.new) ≡ drop_waiter thread.0 way self.old }
    {
        match way {
            Way::In => self.inbound.drop_waiter(thread, told),
            Way::Out => self.outbound.drop_waiter(thread, told),
        }
    }
}

// Whether this stage writes this way.
fn writes(stage: Stage, way: Way) -> bool
    ensures writes { result ≡ same_stage (writing_stage way) stage }
{
    match way {
        Way::In => stage == Stage::Inband,
        Way::Out => stage == Stage::Oob,
    }
}

// Whether this stage reads this way.
fn reads(stage: Stage, way: Way) -> bool
    ensures reads { result ≡ same_stage (reading_stage way) stage }
{
    match way {
        Way::In => stage == Stage::Oob,
        Way::Out => stage == Stage::Inband,
    }
}
