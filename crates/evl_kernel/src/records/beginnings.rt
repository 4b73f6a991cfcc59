//! A function for each kind of wait that a call begins, so that each looks only at its own kind of element.
ghost use Rattle.std.specs.Prelude.{◌≡◌, ◌<◌, None};
ghost use Rattle.evl_kernel.specs.state.KernelViews.{Has, IsAnswer};
ghost use Rattle.evl_kernel.specs.state.Records.{KeepsCallbacks, state_of};
ghost use Rattle.evl_kernel.specs.waiting.Beginnings.{beginning, begun};
ghost use Rattle.evl_kernel.specs.waiting.Waits.{wait_at};

use super::Records;
use crate::waits::Wanted;
use evl_base::{FlagId, MutexId, Refusal, Reply, SemId, Take, ThreadId, Transfer, Way, XbufId};
use evl_xbuf::Services;
use std::alloc::Allocator;

impl<C, A: Allocator> Records<C, A> {
    /// Begins a wait for a semaphore, as `begin_wait` does.
    #[inline(never)]
    pub(super) fn begin_get(
        &mut self,
        thread: ThreadId,
        sem: SemId,
        until: Option<u64>,
        told: &mut Services,
    ) -> Result<(), Refusal>
        requires idle { wait_at (state_of self.old) thread.0 ≡ None }
        requires there { thread.0 < self.old.threads }
        ensures answer { IsAnswer (begun result) }
        ensures served { Has (state_of self.old) (beginning (state_of self.old) thread.0 (Wanted.Sem sem) until).effect (begun result) (state_of self.new) }
        ensures stands { KeepsCallbacks self.old self.new }
    {
        self.begin_wait(thread, Wanted::Sem(sem), until, told)
    }

    /// Begins a wait for a flag group, as `begin_wait` does.
    #[inline(never)]
    pub(super) fn begin_take(
        &mut self,
        thread: ThreadId,
        flags: FlagId,
        kind: Take,
        until: Option<u64>,
        told: &mut Services,
    ) -> Result<(), Refusal>
        requires idle { wait_at (state_of self.old) thread.0 ≡ None }
        requires there { thread.0 < self.old.threads }
        ensures answer { IsAnswer (begun result) }
        ensures served { Has (state_of self.old) (beginning (state_of self.old) thread.0 (Wanted.Flags flags kind) until).effect (begun result) (state_of self.new) }
        ensures stands { KeepsCallbacks self.old self.new }
    {
        self.begin_wait(thread, Wanted::Flags(flags, kind), until, told)
    }

    /// Begins a wait for a cross-buffer to be written, as `begin_wait` does.
    #[inline(never)]
    pub(super) fn begin_writing(
        &mut self,
        thread: ThreadId,
        xbuf: XbufId,
        way: Way,
        bytes: &Transfer,
        until: Option<u64>,
        told: &mut Services,
    ) -> Result<(), Refusal>
        requires idle { wait_at (state_of self.old) thread.0 ≡ None }
        requires there { thread.0 < self.old.threads }
        ensures answer { IsAnswer (begun result) }
        ensures served { Has (state_of self.old) (beginning (state_of self.old) thread.0 (Wanted.Write xbuf way bytes.now) until).effect (begun result) (state_of self.new) }
        ensures stands { KeepsCallbacks self.old self.new }
    {
        self.begin_wait(
            thread,
            Wanted::Write(xbuf, way, bytes.to_bytes()),
            until,
            told,
        )
    }

    /// Begins a wait for a cross-buffer to be read, as `begin_wait` does.
    #[inline(never)]
    pub(super) fn begin_reading(
        &mut self,
        thread: ThreadId,
        xbuf: XbufId,
        way: Way,
        len: u16,
        until: Option<u64>,
        told: &mut Services,
    ) -> Result<(), Refusal>
        requires idle { wait_at (state_of self.old) thread.0 ≡ None }
        requires there { thread.0 < self.old.threads }
        ensures answer { IsAnswer (begun result) }
        ensures served { Has (state_of self.old) (beginning (state_of self.old) thread.0 (Wanted.Read xbuf way len) until).effect (begun result) (state_of self.new) }
        ensures stands { KeepsCallbacks self.old self.new }
    {
        self.begin_wait(thread, Wanted::Read(xbuf, way, len), until, told)
    }

    /// Begins a wait for a mutex, as `begin_wait` does.
    #[inline(never)]
    pub(super) fn begin_owning(
        &mut self,
        thread: ThreadId,
        mutex: MutexId,
        owner: ThreadId,
        until: Option<u64>,
        told: &mut Services,
    ) -> Result<(), Refusal>
        requires idle { wait_at (state_of self.old) thread.0 ≡ None }
        requires there { thread.0 < self.old.threads }
        ensures answer { IsAnswer (begun result) }
        ensures served { Has (state_of self.old) (beginning (state_of self.old) thread.0 (Wanted.Mutex mutex owner) until).effect (begun result) (state_of self.new) }
        ensures stands { KeepsCallbacks self.old self.new }
    {
        self.begin_wait(thread, Wanted::Mutex(mutex, owner), until, told)
    }
}

/// The answer to a call by which a wait began, unless it was refused.
#[inline(always)]
pub(super) fn begun(begins: Result<(), Refusal>) -> Result<Reply, Refusal>
    ensures answer { result ≡ begun begins }
{
    match begins {
        Ok(()) => Ok(Reply::Begun),
        Err(refusal) => Err(refusal),
    }
}
