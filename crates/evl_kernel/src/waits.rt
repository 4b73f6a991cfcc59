//! Waits of threads.
ghost use Rattle.std.specs.Prelude.{◌≡◌, ◌≤◌, ◌+◌, IfErr, IfOk, None, Some, option_map, slice_set};
ghost use Rattle.evl_kernel.specs.waiting.Beginnings.{allowed_if, awaited_by, form_refusal, in_range_if, range_refusal, stage_wanted};
ghost use Rattle.evl_kernel.specs.waiting.Endings.{has_got_mutex, is_of_mutex, outcome_of};
ghost use Rattle.evl_kernel.specs.state.WaitBoxes.{FitsBox, reply_of};
ghost use Rattle.evl_kernel.specs.waiting.Waits.{ended_by, wait_of};

use crate::wait_place::{Outcome, WaitPlace};
use evl_base::{
    Bytes, FlagId, MutexId, Refusal, Reply, SemId, Spares, Stage, Take, ThreadId, Way, XbufId,
};
use std::alloc::Allocator;

/// The element that a thread waits for (Xenomai 4: EVL elements).
#[derive(Clone, Copy, PartialEq, Eq, Drop)]
pub enum Awaited {
    /// A semaphore.
    Sem(SemId),
    /// Bits of a flag group.
    Flags(FlagId),
    /// To write into a way of a cross-buffer.
    Writing(XbufId, Way),
    /// To read from it.
    Reading(XbufId, Way),
    /// A mutex.
    Mutex(MutexId),
}

impl Awaited {
    /// Whether it is a mutex.
    pub(crate) fn is_of_mutex(&self) -> bool
        ensures mutex { result ≡ is_of_mutex self.now }
    {
        matches!(self, Awaited::Mutex(_))
    }
}

/// The aim of a thread that begins to wait: a semaphore, bits of a flag group, to write bytes into a cross-buffer, to
/// read so many from it, or a mutex of this owner.
#[derive(Drop)]
pub(crate) enum Wanted {
    Sem(SemId),
    Flags(FlagId, Take),
    Write(XbufId, Way, Bytes),
    Read(XbufId, Way, u16),
    Mutex(MutexId, ThreadId),
}

impl Wanted {
    /// For what the thread waits, where it isn't served at once.
    #[inline(always)]
    pub(crate) fn awaited(&self) -> Awaited
        ensures on { result ≡ awaited_by self.now }
    {
        match self {
            Wanted::Sem(sem) => Awaited::Sem(*sem),
            Wanted::Flags(flags, _) => Awaited::Flags(*flags),
            Wanted::Write(xbuf, way, _) => Awaited::Writing(*xbuf, *way),
            Wanted::Read(xbuf, way, _) => Awaited::Reading(*xbuf, *way),
            Wanted::Mutex(mutex, _) => Awaited::Mutex(*mutex),
        }
    }

    /// Whether one transfer carries what is wanted.
    #[inline(always)]
    pub(crate) fn is_in_range(&self) -> bool
        ensures range { range_refusal self.now ≡ in_range_if result }
    {
        match self {
            Wanted::Read(_, _, len) => *len <= 256,
            _ => true,
        }
    }

    /// Whether this may be wanted: a mask has bits.
    #[inline(always)]
    pub(crate) fn is_allowed(&self) -> bool
        ensures allowed { form_refusal self.now ≡ allowed_if result }
    {
        match self {
            Wanted::Flags(_, Take::Of(mask)) | Wanted::Flags(_, Take::Exact(mask)) => *mask != 0,
            _ => true,
        }
    }

    /// The stage on which a thread may wait for this.
    pub(crate) fn stage(&self) -> Stage
        ensures stage { result ≡ stage_wanted self.now }
    {
        match self {
            Wanted::Write(_, Way::In, _) | Wanted::Read(_, Way::Out, _) => Stage::Inband,
            _ => Stage::Oob,
        }
    }
}

/// An unfinished wait, and what ended it, once it has ended.
#[derive(Drop)]
pub(crate) struct Wait {
    pub(crate) on: Awaited,
    pub(crate) outcome: Option<Reply>,
}

/// The element that a thread waits for or waited for, while its wait is unfinished.
pub(crate) fn awaited_by<A: Allocator>(
    waits: &Vec<WaitPlace, A>,
    thread: ThreadId,
) -> Option<Awaited>
    ensures on { result ≡ option_map (λ w. w.on) (wait_of waits.now.items thread.0) }
{
    match waits.get(usize::from(thread.0))?.wait() {
        Some(wait) => Some(wait.on),
        None => None,
    }
}

/// Whether a thread's wait was for a mutex and ended by getting it.
pub(crate) fn has_got_mutex<A: Allocator>(waits: &Vec<WaitPlace, A>, thread: ThreadId) -> bool
    ensures got { result ≡ has_got_mutex (wait_of waits.now.items thread.0) }
{
    let Some(place) = waits.get(usize::from(thread.0)) else {
        return false;
    };
    match place.wait() {
        Some(
            Wait {
                on: Awaited::Mutex(_),
                outcome: Some(Reply::Done),
            },
        ) => true,
        _ => false,
    }
}

/// A thread's wait begins; where it was served at once, with what.
#[inline(always)]
pub(crate) fn begin<A: Allocator>(
    waits: &mut Vec<WaitPlace, A>,
    thread: ThreadId,
    on: Awaited,
    outcome: Option<Outcome<'_>>,
)
    requires fits { FitsBox outcome }
    ensures begun { waits.new.items ≡ slice_set waits.old.items thread.0 (Some (record { on = on; outcome = option_map reply_of outcome.entry })) }
{
    let place = usize::from(thread.0);
    if place < waits.len() {
        waits[place].begin(on, outcome);
    }
}

/// A thread's wait has ended, and this ended it; nothing changes where there is no wait.
#[inline(always)]
pub(crate) fn end<A: Allocator>(
    waits: &mut Vec<WaitPlace, A>,
    thread: ThreadId,
    outcome: Outcome<'_>,
)
    requires fits { FitsBox (Some outcome) }
    ensures ended { waits.new.items ≡ slice_set waits.old.items thread.0 (option_map (ended_by (reply_of outcome.entry)) (wait_of waits.old.items thread.0)) }
{
    let place = usize::from(thread.0);
    if place < waits.len() {
        waits[place].end(outcome);
    }
}

/// The end of a thread's wait, which is finished then; bytes come in a box of `spares`. The first that applies:
/// `Invalid` (there is no wait), `Again` (it goes on). A refused call changes nothing.
#[inline(always)]
pub(crate) fn take_outcome<A: Allocator>(
    waits: &mut Vec<WaitPlace, A>,
    thread: ThreadId,
    spares: &mut Spares<A>,
) -> Result<Reply, Refusal>
    requires boxes { 1 ≤ spares.old }
    ensures outcome { result ≡ outcome_of (wait_of waits.old.items thread.0) }
    ensures finished { IfOk result (λ reply. waits.new.items ≡ slice_set waits.old.items thread.0 None) }
    ensures refused { IfErr result (λ e. waits.new.items ≡ waits.old.items) }
    ensures boxes { spares.old ≤ spares.new + 1 }
{
    let place = usize::from(thread.0);
    if place >= waits.len() {
        return Err(Refusal::Invalid);
    }
    waits[place].finish(spares)
}
