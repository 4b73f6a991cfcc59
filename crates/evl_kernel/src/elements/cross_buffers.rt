//! The steps of cross-buffers.
ghost use Rattle.std.specs.Prelude.{◌≡◌, ◌≤◌, ◌+◌, [], true, false, Ok, Err, IfErr, IfNone, IfOk, IfSome, map};
ghost use Rattle.evl_kernel.specs.calls.CrossBuffers as through;
ghost use Rattle.evl_kernel.specs.calls.CrossBuffers.{bytes_told, service_told};
ghost use Rattle.evl_kernel.specs.calls.Elements.{element, on_xbuf, wakes};
ghost use Rattle.evl_kernel.specs.state.ElementsViews.{owners_of};

use super::Elements;
use evl_base::{Bytes, Refusal, Reply, Spares, Stage, Transfer, Way, XbufId};
use evl_xbuf::Services;
use std::alloc::Allocator;

impl<A: Allocator> Elements<A> {
    /// Writes all of the bytes from a stage, and enters whom that served, into a list where nobody is yet. The first
    /// that applies: `Unknown` (no such cross-buffer), `WrongStage` (the other stage writes this way), `TooBig` (more
    /// bytes than the ring has), `Again` (a writer waits, or they don't fit).
    #[inline(always)]
    pub(crate) fn write(
        &mut self,
        stage: Stage,
        xbuf: XbufId,
        way: Way,
        bytes: &[u8],
        told: &mut Services,
    ) -> Result<(), Refusal>
        requires nobody { told.old ≡ [] }
        ensures step { IfOk result (λ _. element self.old.elements (on_xbuf xbuf.0 (through.write stage way bytes.now)) ≡ Ok (Reply.Done, self.new.elements)) }
        ensures owners { owners_of self.new ≡ owners_of self.old }
        ensures served { IfOk result (λ _. wakes self.old.elements (on_xbuf xbuf.0 (through.write stage way bytes.now)) ≡ map service_told told.new) }
        ensures refused { IfErr result (λ e. (element self.old.elements (on_xbuf xbuf.0 (through.write stage way bytes.now)) ≡ Err e) × (self.new ≡ self.old)) }
    {
        let place = usize::from(xbuf.0);
        if place >= self.xbufs.len() {
            return Err(Refusal::Unknown);
        }
        self.xbufs[place].try_write_telling(stage, way, bytes, told)
    }

    /// Writes all of the bytes from a stage, where that is accepted and nobody waits, and says whether it did; nothing
    /// changes else.
    #[inline(always)]
    pub(crate) fn write_unserved(
        &mut self,
        stage: Stage,
        xbuf: XbufId,
        way: Way,
        bytes: &[u8],
    ) -> bool
        ensures step { result ≡ true → element self.old.elements (on_xbuf xbuf.0 (through.write stage way bytes.now)) ≡ Ok (Reply.Done, self.new.elements) }
        ensures nobody { result ≡ true → wakes self.old.elements (on_xbuf xbuf.0 (through.write stage way bytes.now)) ≡ [] }
        ensures owners { owners_of self.new ≡ owners_of self.old }
        ensures kept { result ≡ false → self.new ≡ self.old }
    {
        let place = usize::from(xbuf.0);
        place < self.xbufs.len() && self.xbufs[place].write_unserved(stage, way, bytes)
    }

    /// Reads so many bytes from a stage, or as many as are there, into two boxes of `spares`, where that is accepted,
    /// nobody waits and the bytes lie in one piece; none, and nothing changes, else or where a box was refused.
    #[inline(always)]
    pub(crate) fn read_unserved(
        &mut self,
        stage: Stage,
        xbuf: XbufId,
        way: Way,
        len: u16,
        spares: &mut Spares<A>,
    ) -> Option<Transfer>
        requires boxes { 1 ≤ spares.old }
        ensures step { IfSome result (λ read. element self.old.elements (on_xbuf xbuf.0 (through.read stage way len)) ≡ Ok (bytes_told read.items, self.new.elements)) }
        ensures nobody { IfSome result (λ _. wakes self.old.elements (on_xbuf xbuf.0 (through.read stage way len)) ≡ []) }
        ensures owners { owners_of self.new ≡ owners_of self.old }
        ensures spent { spares.old ≤ spares.new + 1 }
        ensures kept { IfNone result ((self.new ≡ self.old) × (spares.new ≡ spares.old)) }
    {
        let place = usize::from(xbuf.0);
        if place >= self.xbufs.len() {
            return None;
        }
        self.xbufs[place].read_unserved(stage, way, len, spares)
    }

    /// Reads so many bytes from a stage, or as many as are there, in the place of those that `got` had, and enters whom
    /// that served, into a list where nobody is yet. The first that applies: `Unknown` (no such cross-buffer),
    /// `Range` (more than one transfer carries), `WrongStage` (the other stage reads this way), `Again` (nothing is
    /// there).
    #[inline(always)]
    pub(crate) fn read(
        &mut self,
        stage: Stage,
        xbuf: XbufId,
        way: Way,
        len: u16,
        got: &mut Bytes,
        told: &mut Services,
    ) -> Result<(), Refusal>
        requires nobody { told.old ≡ [] }
        ensures step { IfOk result (λ _. element self.old.elements (on_xbuf xbuf.0 (through.read stage way len)) ≡ Ok (bytes_told got.new.items, self.new.elements)) }
        ensures owners { owners_of self.new ≡ owners_of self.old }
        ensures served { IfOk result (λ _. wakes self.old.elements (on_xbuf xbuf.0 (through.read stage way len)) ≡ map service_told told.new) }
        ensures refused { IfErr result (λ e. (element self.old.elements (on_xbuf xbuf.0 (through.read stage way len)) ≡ Err e) × (self.new ≡ self.old)) }
    {
        let place = usize::from(xbuf.0);
        if place >= self.xbufs.len() {
            return Err(Refusal::Unknown);
        }
        self.xbufs[place].try_read_telling(stage, way, len, got, told)
    }

    /// How many bytes are free. `Unknown` where there is no such cross-buffer.
    pub(crate) fn room(&self, xbuf: XbufId, way: Way) -> Result<u16, Refusal>
        ensures step { IfOk result (λ free. element self.now.elements (on_xbuf xbuf.0 (through.room way)) ≡ Ok (Reply.Number free, self.now.elements)) }
        ensures refused { IfErr result (λ e. element self.now.elements (on_xbuf xbuf.0 (through.room way)) ≡ Err e) }
    {
        let place = usize::from(xbuf.0);
        if place >= self.xbufs.len() {
            return Err(Refusal::Unknown);
        }
        Ok(self.xbufs[place].room(way))
    }
}
