//! How waits for elements begin, and how a waiter leaves.
ghost use Rattle.std.specs.Prelude.{◌≡◌, ◌<◌, ◌≤◌, [], None, Some, Ok, false, true, map, if◌then◌else◌};
ghost use Rattle.std.specs.Option.{option_map};
ghost use Rattle.evl_base.specs.Limits.{thread_limit};
ghost use Rattle.evl_kernel.specs.waiting.Beginnings.{awaited_by, form_refusal, is_ranked, is_there, size_refusal, step_of_waiter};
ghost use Rattle.evl_kernel.specs.calls.CrossBuffers as through;
ghost use Rattle.evl_kernel.specs.calls.CrossBuffers.{done_at_once, read_at_once, service_told, served_beside, served_in};
ghost use Rattle.evl_kernel.specs.calls.Effects.{if_done};
ghost use Rattle.evl_kernel.specs.calls.Elements.{element, on_xbuf, serves, wakes};
ghost use Rattle.evl_kernel.specs.state.ElementsViews.{owners_of};
ghost use Rattle.evl_kernel.specs.waiting.Endings.{drop_step, is_of_mutex};
ghost use Rattle.evl_kernel.specs.waiting.Standing.{stands_for};
ghost use Rattle.evl_mutex.specs.Changes.{ChangesAreNoted};
ghost use Rattle.evl_mutex.specs.Owners.{rank_of};
ghost use Rattle.evl_xbuf.specs.Xbufs.{reading_stage, writing_stage};

use super::Elements;
use crate::waits::{Awaited, Wanted};
use evl_base::{Bytes, FlagId, Refusal, Reply, SemId, Stage, Take, ThreadId, Way, XbufId};
use evl_mutex::RankChanges;
use evl_xbuf::Services;
use std::alloc::Allocator;

impl<A: Allocator> Elements<A> {
    /// Whether there is such an element.
    #[inline(always)]
    pub(crate) fn has(&self, on: Awaited) -> bool
        ensures there { result ≡ is_there self.now.elements on }
    {
        match on {
            Awaited::Sem(sem) => usize::from(sem.0) < self.sems.len(),
            Awaited::Flags(flags) => usize::from(flags.0) < self.flags.len(),
            Awaited::Writing(xbuf, _) | Awaited::Reading(xbuf, _) => {
                usize::from(xbuf.0) < self.xbufs.len()
            }
            Awaited::Mutex(mutex) => self.owners.has(mutex),
        }
    }

    /// A thread that waits for nothing begins to wait with its rank for a semaphore or a flag group, or is served at
    /// once; then this is with what.
    #[inline(always)]
    pub(crate) fn begin(&mut self, thread: ThreadId, rank: u16, wanted: &Wanted) -> Option<Reply>
        requires ranked { is_ranked wanted.now ≡ true }
        requires there { is_there self.old.elements (awaited_by wanted.now) ≡ true }
        requires allowed { form_refusal wanted.now ≡ None }
        requires away { stands_for self.old.elements (awaited_by wanted.now) thread.0 ≡ false }
        requires few { thread.0 < thread_limit }
        ensures step { element self.old.elements (step_of_waiter thread.0 rank wanted.now) ≡ Ok (Reply.Begun, self.new.elements) }
        ensures owners { owners_of self.new ≡ owners_of self.old }
        ensures served { result ≡ serves self.old.elements (step_of_waiter thread.0 rank wanted.now) }
    {
        match wanted {
            Wanted::Sem(sem) => self.begin_get(thread, rank, *sem),
            Wanted::Flags(flags, kind) => self.begin_take(thread, rank, *flags, *kind),
            _ => unreachable!(),
        }
    }

    #[inline(always)]
    fn begin_get(&mut self, thread: ThreadId, rank: u16, sem: SemId) -> Option<Reply>
        requires there { is_there self.old.elements (Awaited.Sem sem) ≡ true }
        requires away { stands_for self.old.elements (Awaited.Sem sem) thread.0 ≡ false }
        requires few { thread.0 < thread_limit }
        ensures step { element self.old.elements (step_of_waiter thread.0 rank (Wanted.Sem sem)) ≡ Ok (Reply.Begun, self.new.elements) }
        ensures owners { owners_of self.new ≡ owners_of self.old }
        ensures served { result ≡ serves self.old.elements (step_of_waiter thread.0 rank (Wanted.Sem sem)) }
    {
        if self.sems[usize::from(sem.0)].begin_get(thread, rank) {
            return Some(Reply::Done);
        }
        None
    }

    #[inline(always)]
    fn begin_take(
        &mut self,
        thread: ThreadId,
        rank: u16,
        flags: FlagId,
        kind: Take,
    ) -> Option<Reply>
        requires there { is_there self.old.elements (Awaited.Flags flags) ≡ true }
        requires allowed { form_refusal (Wanted.Flags flags kind) ≡ None }
        requires away { stands_for self.old.elements (Awaited.Flags flags) thread.0 ≡ false }
        requires few { thread.0 < thread_limit }
        ensures step { element self.old.elements (step_of_waiter thread.0 rank (Wanted.Flags flags kind)) ≡ Ok (Reply.Begun, self.new.elements) }
        ensures owners { owners_of self.new ≡ owners_of self.old }
        ensures served { result ≡ serves self.old.elements (step_of_waiter thread.0 rank (Wanted.Flags flags kind)) }
    {
        match self.flags[usize::from(flags.0)].begin_take(thread, rank, kind) {
            Ok(Some(bits)) => Some(Reply::Bits(bits)),
            _ => None,
        }
    }

    /// Whether the ring is large enough for what is wanted.
    #[inline(always)]
    pub(crate) fn holds(&self, wanted: &Wanted) -> bool
        ensures size { size_refusal self.now.elements wanted.now ≡ (if result then None else Some Refusal.TooBig) }
    {
        match wanted {
            Wanted::Write(xbuf, way, bytes) => match self.xbufs.get(usize::from(xbuf.0)) {
                Some(xbuf) => !xbuf.is_too_big(*way, bytes.as_slice()),
                None => true,
            },
            _ => true,
        }
    }

    /// A thread that waits for nothing writes at once, or begins to wait; whether it wrote. Whom that served is entered
    /// into a list where nobody is yet.
    pub(crate) fn begin_write(
        &mut self,
        thread: ThreadId,
        xbuf: XbufId,
        way: Way,
        bytes: &[u8],
        told: &mut Services,
    ) -> bool
        requires nobody { told.old ≡ [] }
        requires there { is_there self.old.elements (Awaited.Writing xbuf way) ≡ true }
        requires fits { size_refusal self.old.elements (Wanted.Write xbuf way (record { items = bytes.now })) ≡ None }
        requires away { stands_for self.old.elements (Awaited.Writing xbuf way) thread.0 ≡ false }
        requires few { thread.0 < thread_limit }
        ensures step { element self.old.elements (on_xbuf xbuf.0 (through.begin_write thread.0 way bytes.now)) ≡ Ok (Reply.Begun, self.new.elements) }
        ensures owners { owners_of self.new ≡ owners_of self.old }
        ensures served { serves self.old.elements (on_xbuf xbuf.0 (through.begin_write thread.0 way bytes.now)) ≡ done_at_once (if result then Some told.new else None) }
        ensures woken { wakes self.old.elements (on_xbuf xbuf.0 (through.begin_write thread.0 way bytes.now)) ≡ map service_told (served_in (if result then Some told.new else None)) }
    {
        let stage = writing_stage(way);
        let place = usize::from(xbuf.0);
        match self.xbufs[place].begin_write_telling(thread, stage, way, bytes, told) {
            Ok(done) => done,
            Err(_) => false,
        }
    }

    /// A thread that waits for nothing reads at once, which says what, or begins to wait. Whom that served is entered into
    /// a list where nobody is yet.
    pub(crate) fn begin_read(
        &mut self,
        thread: ThreadId,
        xbuf: XbufId,
        way: Way,
        len: u16,
        told: &mut Services,
    ) -> Option<Bytes>
        requires nobody { told.old ≡ [] }
        requires there { is_there self.old.elements (Awaited.Reading xbuf way) ≡ true }
        requires range { len ≤ 256 }
        requires away { stands_for self.old.elements (Awaited.Reading xbuf way) thread.0 ≡ false }
        requires few { thread.0 < thread_limit }
        ensures step { element self.old.elements (on_xbuf xbuf.0 (through.begin_read thread.0 way len)) ≡ Ok (Reply.Begun, self.new.elements) }
        ensures owners { owners_of self.new ≡ owners_of self.old }
        ensures served { serves self.old.elements (on_xbuf xbuf.0 (through.begin_read thread.0 way len)) ≡ read_at_once (option_map (λ got. (got.items, told.new)) result) }
        ensures woken { wakes self.old.elements (on_xbuf xbuf.0 (through.begin_read thread.0 way len)) ≡ map service_told (served_beside (option_map (λ got. (got.items, told.new)) result)) }
    {
        let stage = reading_stage(way);
        let place = usize::from(xbuf.0);
        match self.xbufs[place].begin_read_telling(thread, stage, way, len, told) {
            Ok(got) => got,
            Err(_) => None,
        }
    }

    /// A thread leaves the queue of an element; whom that served, where it was a cross-buffer's, is entered into a list
    /// where nobody is yet. Nothing changes where it doesn't stand there. Whose effective rank may have changed is
    /// noted, which nobody's has where it was no mutex's.
    pub(crate) fn leave<C: RankChanges>(
        &mut self,
        thread: ThreadId,
        on: Awaited,
        changes: &mut C,
        told: &mut Services,
    )
        requires nobody { told.old ≡ [] }
        ensures left { self.new.elements ≡ if_done self.old.elements (element self.old.elements (drop_step thread.0 on)) }
        ensures woken { wakes self.old.elements (drop_step thread.0 on) ≡ map service_told told.new }
        ensures base { self.new.base ≡ self.old.base }
        ensures owners { is_of_mutex on ≡ false → owners_of self.new ≡ owners_of self.old }
        ensures noted { ChangesAreNoted (C.is_noted changes.old) (C.is_noted changes.new) (rank_of (owners_of self.old)) (rank_of (owners_of self.new)) }
    {
        match on {
            Awaited::Sem(sem) => {
                let place = usize::from(sem.0);
                if place < self.sems.len() {
                    self.sems[place].drop_waiter(thread);
                }
            }
            Awaited::Flags(flags) => {
                let place = usize::from(flags.0);
                if place < self.flags.len() {
                    self.flags[place].drop_waiter(thread);
                }
            }
            Awaited::Writing(xbuf, way) | Awaited::Reading(xbuf, way) => {
                self.leave_xbuf(thread, xbuf, way, told);
            }
            Awaited::Mutex(mutex) => {
                self.owners.leave_noting(mutex, thread, changes);
            }
        }
    }

    // A thread waits for a cross-buffer no more this way, if it did and there is such a cross-buffer; whom that served
    // is entered.
    fn leave_xbuf(&mut self, thread: ThreadId, xbuf: XbufId, way: Way, told: &mut Services)
        requires nobody { told.old ≡ [] }
        ensures left { self.new.elements ≡ if_done self.old.elements (element self.old.elements (on_xbuf xbuf.0 (through.drop thread.0 way))) }
        ensures woken { wakes self.old.elements (on_xbuf xbuf.0 (through.drop thread.0 way)) ≡ map service_told told.new }
        ensures owners { owners_of self.new ≡ owners_of self.old }
    {
        let place = usize::from(xbuf.0);
        if place < self.xbufs.len() {
            self.xbufs[place].drop_waiter_telling(thread, way, told);
        }
    }
}

// The stage that writes this way.
fn writing_stage(way: Way) -> Stage
    ensures stage { result ≡ writing_stage way }
{
    match way {
        Way::In => Stage::Inband,
        Way::Out => Stage::Oob,
    }
}

// The stage that reads this way.
fn reading_stage(way: Way) -> Stage
    ensures stage { result ≡ reading_stage way }
{
    match way {
        Way::In => Stage::Oob,
        Way::Out => Stage::Inband,
    }
}
