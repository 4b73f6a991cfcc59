//! All that a row of a history holds.
use evl_base::{FlagId, LineNo, MutexId, SemId, Stage, Take, ThreadId, TimerId, Way, XbufId};

/// The caller that made a call, and how many plays it made; each is at most 255.
#[derive(Clone, Copy)]
pub(crate) struct Head {
    pub caller: u8,
    pub plays: u8,
}

/// An answer without a number.
#[derive(Clone, Copy)]
pub(crate) enum Brief {
    Done,
    Begun,
    TimedOut,
    NobodyChosen,
    NobodyNext,
    Unknown,
    Invalid,
    Again,
    Busy,
    NotOwner,
    Deadlock,
    Limit,
    Range,
    TooBig,
    WrongStage,
}

/// A call with its answer, in sixteen bytes: what a variant holds comes in an order that leaves no gaps. Bytes are a
/// length and where they begin among the bytes of all rows. A call that has no variant, or an answer that its variants
/// don't hold, is an entry of the wide list.
#[derive(Clone, Copy)]
pub(crate) enum Row {
    /// The entry at this place of the wide list.
    Wide(u32),
    /// The same with these bytes, a length and their beginning, in the place of its answer.
    WideBytes(u16, u32, u32),
    Free(Brief, Head, LineNo, Stage),
    Arrive(Brief, Head, LineNo),
    Post(Brief, Head, LineNo, Stage),
    Stall(Brief, Head, Stage),
    Unstall(Brief, Head, Stage),
    Tick(Brief, Head, u64),
    /// The date that was asked for.
    Date(Head, u64),
    StopTimer(Brief, Head, TimerId),
    Detach(Brief, Head),
    SetStage(Brief, Head, Stage),
    Pick(Brief, Head),
    /// A pick of this thread.
    Picked(Head, ThreadId),
    RankOf(Brief, Head, ThreadId),
    /// The rank that a thread was found to have.
    Rank(Head, ThreadId, u64),
    TryGet(Brief, Head, SemId),
    Put(Brief, Head, SemId),
    /// The count that a semaphore was found to have.
    Count(Head, SemId, i64),
    /// A wait without a deadline.
    BeginGet(Brief, Head, SemId),
    /// A wait until this date.
    BeginGetUntil(Brief, Head, SemId, u64),
    /// Bits that were not there.
    TryTake(Brief, Head, FlagId, Take),
    PostFlags(Brief, Head, FlagId, u32),
    /// The bits that a group was found to have.
    Bits(Head, FlagId, u32),
    /// A wait without a deadline.
    BeginTake(Brief, Head, FlagId, Take),
    /// A write of these bytes.
    Write(Brief, Head, XbufId, Way, u16, u32),
    /// A read that was refused.
    Read(Brief, Head, XbufId, Way, u16),
    /// A read of so many bytes at most, and the bytes that it got.
    ReadBytes(Head, Way, XbufId, u16, u16, u32),
    /// The room that a way was found to have.
    Room(Head, Way, XbufId, u64),
    /// A wait without a deadline to write these bytes.
    BeginWrite(Brief, Head, XbufId, Way, u16, u32),
    /// A wait without a deadline.
    BeginRead(Brief, Head, XbufId, Way, u16),
    /// A wait without a deadline.
    Claim(Brief, Head, MutexId, ThreadId),
    /// A wait until this date.
    ClaimUntil(Brief, Head, MutexId, ThreadId, u64),
    Release(Brief, Head, MutexId),
    /// A release that handed the mutex on, and whether more threads wait.
    HandedOn(Head, MutexId, ThreadId, bool),
    Raise(Brief, Head, MutexId),
    Finish(Brief, Head, bool),
    /// The end of a wait for bits.
    FinishBits(Head, bool, u32),
    /// The end of a wait for bytes.
    FinishBytes(Head, bool, u16, u32),
}
