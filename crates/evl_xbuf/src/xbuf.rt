//! One cross-buffer.
ghost use Rattle.std.specs.Prelude.{◌≡◌, ◌<◌, ◌≤◌, false, length, nat_lt, slice_get, IfOk, IfErr};
ghost use Rattle.std.specs.Option.{option_map};
ghost use Rattle.evl_base.specs.Limits.{thread_limit};
ghost use Rattle.evl_base.specs.declared.refusal.Refusal.{Refusal};
ghost use Rattle.evl_sync.specs.Queues.{stands_in};
ghost use Rattle.evl_sync.specs.Steps.{step_by};
ghost use Rattle.evl_xbuf.specs.Streams.{room};
ghost use Rattle.evl_xbuf.specs.Xbufs.{IsSoundXbuf, begin_read, begin_write, drop_waiter, opened_xbuf, same_stage, reading_stage, stream, try_read, try_write, writing_stage};

mod likeness;
mod telling;

use crate::services::Services;
use crate::stream::Stream;
use arrayvec::ArrayVec;
use evl_base::{Bytes, Refusal, Stage, ThreadId, Way};
use std::alloc::{AllocError, Allocator};
use std::marker::Model;

/// A cross-buffer: two rings of bytes between the stages, one for each way, and who waits to write or to read there, by
/// arrival alone (Xenomai 4: EVL cross-buffer). Way `In` is written in-band and read out-of-band, way `Out` the other
/// way round. To a contract it is the record `Xbuf` of `specs/Xbufs.antt`. Only `new` takes memory.
#[derive(Drop)]
pub struct XbufOf<A: Allocator> {
    inbound: Stream<A>,
    outbound: Stream<A>,
}

impl<A: Allocator> Model for XbufOf<A> {
    ghost use Rattle.evl_xbuf.specs.Streams.{IsAtRest};
    ghost use Rattle.evl_xbuf.specs.Xbufs.{Xbuf};

    ghost Value = { Xbuf };

    ghost view = { λ x. record { inbound = x.inbound; outbound = x.outbound } };

    ghost invariant = { λ x. IsAtRest x.inbound × IsAtRest x.outbound };
}

impl<A: Allocator + Clone> XbufOf<A> {
    // refusals: Xbuf::new
    //   order: NoMemory
    //   clauses: Xbuf::new: refusal
    /// A cross-buffer whose ring of way `In` has `inbound` bytes and whose ring of way `Out` has `outbound`, each at most
    /// 256. Nothing is in them and nobody waits. `NoMemory` where the rings or the room for waiting writers were refused.
    /// (Xenomai 4: EVL cross-buffer; this profile)
    pub fn new(alloc: A, inbound: u16, outbound: u16) -> Result<XbufOf<A>, Refusal>
        requires inbound { inbound ≤ 256 }
        requires outbound { outbound ≤ 256 }
        ensures opened { IfOk result (λ x. x ≡ opened_xbuf inbound outbound) }
        ensures refusal { IfErr result (λ e. e ≡ Refusal.NoMemory) }
    {
        XbufOf::with_room(alloc, inbound, outbound).map_err(|_| Refusal::NoMemory)
    }

    fn with_room(alloc: A, inbound: u16, outbound: u16) -> Result<XbufOf<A>, AllocError>
        requires inbound { inbound ≤ 256 }
        requires outbound { outbound ≤ 256 }
        ensures opened { IfOk result (λ x. x ≡ opened_xbuf inbound outbound) }
    {
        let inbound = Stream::new(alloc.clone()?, inbound)?;
        let outbound = Stream::new(alloc, outbound)?;
        Ok(XbufOf { inbound, outbound })
    }
}

impl<A: Allocator> XbufOf<A> {
    /// Nothing is in the rings and nobody waits, as `new` made it; no memory is asked for. (Xenomai 4: EVL cross-buffer;
    /// this profile)
    pub fn reset(&mut self)
        ensures opened { self.new ≡ opened_xbuf self.old.inbound.size self.old.outbound.size }
    {
        self.inbound.clear();
        self.outbound.clear();
    }

    /// Writes all of the bytes, whole, from the stage that writes this way, and says whom that served: the readers that
    /// waited, in order, each with its bytes. Refused, in this order, with nothing changed: `WrongStage` from the other
    /// stage; `TooBig` where the bytes are longer than the ring; `Again` where a writer waits or the bytes don't fit. A
    /// write of no bytes is always accepted. (Xenomai 4: EVL cross-buffer; this profile)
    pub fn try_write(&mut self, stage: Stage, way: Way, bytes: &[u8]) -> Result<Services, Refusal>
        ensures step { step_by (λ served. served) result self.new ≡ try_write stage way bytes.now self.old }
        ensures refused { IfErr result (λ e. self.new ≡ self.old) }
    {
        let mut told = Services::new();
        match self.try_write_telling(stage, way, bytes, &mut told) {
            Ok(()) => Ok(told),
            Err(refusal) => Err(refusal),
        }
    }

    /// Reads the next bytes that were written, `len` of them or as many as are there, from the stage that reads this
    /// way, and says whom that served: the writers that waited and now fit, in order. Refused, in this order, with
    /// nothing changed: `Range` where `len` is above 256; `WrongStage` from the other stage; `Again` where nothing is
    /// there. A read of no bytes always gives none. (Xenomai 4: EVL cross-buffer)
    pub fn try_read(
        &mut self,
        stage: Stage,
        way: Way,
        len: u16,
    ) -> Result<(Bytes, Services), Refusal>
        ensures step { step_by (λ told. (told.0.items, told.1)) result self.new ≡ try_read stage way len self.old }
        ensures refused { IfErr result (λ e. self.new ≡ self.old) }
    {
        let mut got = ArrayVec::new();
        let mut told = Services::new();
        match self.try_read_telling(stage, way, len, &mut got, &mut told) {
            Ok(()) => Ok((got, told)),
            Err(refusal) => Err(refusal),
        }
    }

    /// Writes as `try_write` does where that is done at once, and says whom that served; else the thread, which doesn't
    /// wait to write here yet, begins to wait, after all other writers, and the answer is none. Refused, in this
    /// order, with nothing changed: `WrongStage` from the other stage; `TooBig` where the bytes are longer than the
    /// ring. (Xenomai 4: EVL cross-buffer)
    pub fn begin_write(
        &mut self,
        thread: ThreadId,
        stage: Stage,
        way: Way,
        bytes: &[u8],
    ) -> Result<Option<Services>, Refusal>
        requires away { stands_in (λ w. w.thread) thread.0 (stream self.old way).writers ≡ false }
        requires few { thread.0 < thread_limit }
        ensures step { step_by (λ served. served) result self.new ≡ begin_write thread.0 stage way bytes.now self.old }
        ensures refused { IfErr result (λ e. self.new ≡ self.old) }
    {
        let mut told = Services::new();
        match self.begin_write_telling(thread, stage, way, bytes, &mut told) {
            Ok(true) => Ok(Some(told)),
            Ok(false) => Ok(None),
            Err(refusal) => Err(refusal),
        }
    }

    /// Reads as `try_read` does where that is done at once, and says whom that served; else the thread, which doesn't
    /// wait to read here yet, begins to wait, after all other readers, and the answer is none. Refused, in this order,
    /// with nothing changed: `Range` where `len` is above 256; `WrongStage` from the other stage. (Xenomai 4: EVL
    /// cross-buffer)
    pub fn begin_read(
        &mut self,
        thread: ThreadId,
        stage: Stage,
        way: Way,
        len: u16,
    ) -> Result<Option<(Bytes, Services)>, Refusal>
        requires away { stands_in (λ r. r.thread) thread.0 (stream self.old way).readers ≡ false }
        requires few { thread.0 < thread_limit }
        ensures step { step_by (λ told. option_map (λ t. (t.0.items, t.1)) told) result self.new ≡ begin_read thread.0 stage way len self.old }
        ensures refused { IfErr result (λ e. self.new ≡ self.old) }
    {
        let mut told = Services::new();
        match self.begin_read_telling(thread, stage, way, len, &mut told) {
            Ok(Some(bytes)) => Ok(Some((bytes, told))),
            Ok(None) => Ok(None),
            Err(refusal) => Err(refusal),
        }
    }

    /// Lets a thread wait this way no more, and says whom that served: those after it whom it held back, in order.
    /// Nothing changes and nobody is served where it doesn't wait there.
    pub fn drop_waiter(&mut self, thread: ThreadId, way: Way) -> Services
        ensures step { (result, self.new) ≡ drop_waiter thread.0 way self.old }
    {
        let mut told = Services::new();
        self.drop_waiter_telling(thread, way, &mut told);
        told
    }

    /// Whether bytes are longer than this way's ring, so that they can never be written.
    pub fn is_too_big(&self, way: Way, bytes: &[u8]) -> bool
        ensures too_big { result ≡ nat_lt (stream self.now way).size (length bytes.now) }
    {
        match way {
            Way::In => self.inbound.is_too_big(bytes),
            Way::Out => self.outbound.is_too_big(bytes),
        }
    }

    /// How many bytes of this way's ring are free. (Xenomai 4: EVL cross-buffer)
    pub fn room(&self, way: Way) -> u16
        ensures room { result ≡ room (stream self.now way) }
        ensures sound { IsSoundXbuf self.now }
    {
        let inbound = self.inbound.room();
        let outbound = self.outbound.room();
        match way {
            Way::In => inbound,
            Way::Out => outbound,
        }
    }

    // rule: Readers give a cross-buffer's parts.
    //   clauses: Xbuf::{there, writer, reader, is_too_big}
    /// How many bytes stand in this way's ring: 0 to its size. (Xenomai 4: EVL cross-buffer)
    pub fn there(&self, way: Way) -> usize
        ensures there { result ≡ length (stream self.now way).there }
    {
        match way {
            Way::In => self.inbound.len(),
            Way::Out => self.outbound.len(),
        }
    }

    /// The writer that waits at a place of this way, the first one at 0; none where nobody does. (Xenomai 4: EVL
    /// cross-buffer)
    pub fn writer(&self, way: Way, place: usize) -> Option<ThreadId>
        ensures writer { option_map (λ t. t.0) result ≡ option_map (λ w. w.thread) (slice_get (stream self.now way).writers place) }
    {
        match way {
            Way::In => self.inbound.writer(place),
            Way::Out => self.outbound.writer(place),
        }
    }

    /// The reader that waits at a place of this way, the first one at 0; none where nobody does. (Xenomai 4: EVL
    /// cross-buffer)
    pub fn reader(&self, way: Way, place: usize) -> Option<ThreadId>
        ensures reader { option_map (λ t. t.0) result ≡ option_map (λ r. r.thread) (slice_get (stream self.now way).readers place) }
    {
        match way {
            Way::In => self.inbound.reader(place),
            Way::Out => self.outbound.reader(place),
        }
    }
}
