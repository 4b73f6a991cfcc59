//! The calls of the kernel, and the list of them: how a call is copied, written in a trace, read from a table, written and
//! read from C comes of that list.
ghost use Rattle.std.specs.Prelude.{◌≡◌, ◌≤◌, ◌+◌};
ghost use Rattle.evl_base.specs.Call.{boxes_in_call};

use crate::numbers::{FlagId, LineNo, MutexId, SemId, ThreadId, TimerId, XbufId};
use crate::policy::Policy;
use crate::stage::Stage;
use crate::take::Take;
use crate::transfer::{Spares, Transfer};
use crate::way::Way;
use std::alloc::Allocator;

/// A call of the kernel (Xenomai 4: EVL elements; the forms are this profile's).
#[derive(Drop)]
pub enum Call {
    /// Lets a callback of the bank stand on a line of a stage, with a tag that its fires carry.
    Request {
        line: LineNo,
        stage: Stage,
        callback: u8,
        tag: u32,
    },
    /// Puts the callback on a line of a stage back into its bank place.
    Free {
        line: LineNo,
        stage: Stage,
    },
    /// An interrupt on a line.
    Arrive {
        line: LineNo,
    },
    /// Posts a line on a stage.
    Post {
        stage: Stage,
        line: LineNo,
    },
    /// Begins a stall of a stage.
    Stall {
        stage: Stage,
    },
    /// Ends a stall of a stage.
    Unstall {
        stage: Stage,
    },
    /// Moves the date by so many nanoseconds.
    Tick {
        delta: u64,
    },
    /// Asks for the date.
    Now,
    /// Makes an idle timer of a callback of the bank, with a tag that its fires carry.
    NewTimer {
        callback: u8,
        tag: u32,
    },
    /// Lets a timer run: it fires at the date, and then with the interval, both in nanoseconds; once where that is 0.
    StartTimer {
        timer: TimerId,
        date: u64,
        interval: u64,
    },
    /// Makes a timer idle.
    StopTimer {
        timer: TimerId,
    },
    /// Takes a timer away and puts its callback back into its bank place.
    DropTimer {
        timer: TimerId,
    },
    /// Asks how many periods a timer missed since its start.
    Overruns {
        timer: TimerId,
    },
    /// Makes the caller a thread of the core, with a policy, on a stage.
    Attach {
        policy: Policy,
        stage: Stage,
    },
    /// Takes the caller out of the core.
    Detach,
    /// Sets the caller's policy.
    SetPolicy {
        policy: Policy,
    },
    /// Moves the caller to a stage.
    SetStage {
        stage: Stage,
    },
    /// Asks which thread is picked.
    Pick,
    /// Asks for a thread's effective rank.
    RankOf {
        thread: ThreadId,
    },
    /// Lowers a semaphore's count.
    TryGet {
        sem: SemId,
    },
    /// Raises a semaphore's count.
    Put {
        sem: SemId,
    },
    /// Asks for a semaphore's count.
    Peek {
        sem: SemId,
    },
    /// Begins a wait for a semaphore, until a date in nanoseconds, or without a deadline.
    BeginGet {
        sem: SemId,
        until: Option<u64>,
    },
    /// Takes bits of a flag group.
    TryTake {
        flags: FlagId,
        kind: Take,
    },
    /// Posts bits to a flag group.
    PostFlags {
        flags: FlagId,
        bits: u32,
    },
    /// Asks for the bits of a flag group.
    PeekFlags {
        flags: FlagId,
    },
    /// Begins a wait for bits of a flag group, until a date in nanoseconds, or without a deadline.
    BeginTake {
        flags: FlagId,
        kind: Take,
        until: Option<u64>,
    },
    /// Writes bytes into a cross-buffer, all of them.
    Write {
        xbuf: XbufId,
        way: Way,
        bytes: Transfer,
    },
    /// Reads so many bytes from a cross-buffer, or as many as are there.
    Read {
        xbuf: XbufId,
        way: Way,
        len: u16,
    },
    /// Asks how many bytes of a cross-buffer's ring are free.
    Room {
        xbuf: XbufId,
        way: Way,
    },
    /// Begins a wait to write bytes into a cross-buffer, until a date in nanoseconds, or without a deadline.
    BeginWrite {
        xbuf: XbufId,
        way: Way,
        bytes: Transfer,
        until: Option<u64>,
    },
    /// Begins a wait to read so many bytes from a cross-buffer, until a date in nanoseconds, or without a deadline.
    BeginRead {
        xbuf: XbufId,
        way: Way,
        len: u16,
        until: Option<u64>,
    },
    /// Begins a wait for a mutex, until a date in nanoseconds, or without a deadline, and records the thread that the
    /// caller names as its owner; the owner inherits from who waits. Refused, in this order: `Unknown` where there is
    /// no such mutex or owner; `Invalid` where the caller or the owner isn't attached, the owner is the caller, or
    /// another owner is recorded; `WrongStage` where the caller isn't out-of-band; `Deadlock` where the wait would
    /// close a ring. (Xenomai 4: EVL mutexes, priority inheritance)
    Claim {
        mutex: MutexId,
        owner: ThreadId,
        until: Option<u64>,
    },
    /// Hands a mutex on to the first of its waiters, if anybody waits, and ends that one's wait; the answer names it,
    /// and says whether more wait. Anybody may do so where no owner is recorded. Refused, in this order: `Unknown`
    /// where there is no such mutex; `NotOwner` where another thread is recorded as its owner. (Xenomai 4: EVL mutexes)
    Release {
        mutex: MutexId,
    },
    /// Records the caller as the owner of a mutex with a ceiling, so that it has the ceiling's rank. Refused, in this
    /// order: `Unknown` where there is no such mutex; `Invalid` where it has no ceiling, or the caller isn't attached;
    /// `Busy` where an owner is recorded, the caller too. (Xenomai 4: EVL mutexes, priority ceilings; this profile)
    Raise {
        mutex: MutexId,
    },
    /// Asks what ended the caller's wait; a weak thread goes in-band then, unless it keeps its stage or got a mutex.
    Finish {
        keep: bool,
    },
}

/// A word that names a call of the kernel (Dovetail: interrupt pipeline; Xenomai 4: EVL elements; the words are this
/// profile's).
#[derive(Clone, Copy, PartialEq, Eq)]
pub enum StepWord {
    Request,
    Free,
    Arrive,
    Post,
    Stall,
    Unstall,
    Tick,
    Now,
    NewTimer,
    StartTimer,
    StopTimer,
    DropTimer,
    Overruns,
    Attach,
    Detach,
    SetPolicy,
    SetStage,
    Pick,
    RankOf,
    TryGet,
    Put,
    Peek,
    BeginGet,
    TryTake,
    PostFlags,
    PeekFlags,
    BeginTake,
    Write,
    Read,
    Room,
    BeginWrite,
    BeginRead,
    Claim,
    Release,
    Raise,
    Finish,
}

/// The list of the calls, by families, handed to a macro after what is given to it: each with its word, the name of
/// that, its keys in the order in which they are written, and the kind of its answers. A key has the kind of its value,
/// the type round a number of the kernel, and the value that it has where it is left out.
#[macro_export]
macro_rules! each_call {
    ($made:ident $given:tt) => {
        $made!($given [
            line {
                Request "request" { line: Half LineNo, stage: Stage, callback: Byte, tag: Word = 0 } -> Done
                Free "free" { line: Half LineNo, stage: Stage } -> Done
                Arrive "arrive" { line: Half LineNo } -> Done
                Post "post" { stage: Stage, line: Half LineNo } -> Done
                Stall "stall" { stage: Stage } -> Done
                Unstall "unstall" { stage: Stage } -> Done
            }
            clock {
                Tick "tick" { delta: Number } -> Done
                Now "now" {} -> Number
                NewTimer "new_timer" { callback: Byte, tag: Word = 0 } -> Number
                StartTimer "start_timer" { timer: Half TimerId, date: Number, interval: Number } -> Done
                StopTimer "stop_timer" { timer: Half TimerId } -> Done
                DropTimer "drop_timer" { timer: Half TimerId } -> Done
                Overruns "overruns" { timer: Half TimerId } -> Number
            }
            thread {
                Attach "attach" { policy: Policy, stage: Stage } -> Done
                Detach "detach" {} -> Done
                SetPolicy "set_policy" { policy: Policy } -> Done
                SetStage "set_stage" { stage: Stage } -> Done
                Pick "pick" {} -> Chosen
                RankOf "rank_of" { thread: Half ThreadId } -> Number
            }
            sem {
                TryGet "try_get" { sem: Half SemId } -> Done
                Put "put" { sem: Half SemId } -> Done
                Peek "peek" { sem: Half SemId } -> Count
                BeginGet "begin_get" { sem: Half SemId, until: Until = None } -> Begun
            }
            flag {
                TryTake "try_take" { flags: Half FlagId, kind: Take } -> Bits
                PostFlags "post_flags" { flags: Half FlagId, bits: Word } -> Done
                PeekFlags "peek_flags" { flags: Half FlagId } -> Bits
                BeginTake "begin_take" { flags: Half FlagId, kind: Take, until: Until = None } -> Begun
            }
            buffer {
                Write "write" { xbuf: Half XbufId, way: Way, bytes: Bytes } -> Done
                Read "read" { xbuf: Half XbufId, way: Way, len: Half } -> Bytes
                Room "room" { xbuf: Half XbufId, way: Way } -> Number
                BeginWrite "begin_write" { xbuf: Half XbufId, way: Way, bytes: Bytes, until: Until = None } -> Begun
                BeginRead "begin_read" { xbuf: Half XbufId, way: Way, len: Half, until: Until = None } -> Begun
            }
            wait {
                Claim "claim" { mutex: Half MutexId, owner: Half ThreadId, until: Until = None } -> Begun
                Release "release" { mutex: Half MutexId } -> Handed
                Raise "raise" { mutex: Half MutexId } -> Done
                Finish "finish" { keep: Truth = false } -> Outcome
            }
        ])
    };
}

/// The names of all words.
macro_rules! names {
    (() [$($family:ident { $($variant:ident $name:literal $keys:tt -> $answer:ident)* })*]) => { [$($($name),*),*] };
}

/// The words of steps, by families of calls.
pub const STEP_WORDS: [&str; 36] = each_call!(names());

/// A field once more, its bytes, if it is some, in a box.
macro_rules! copied {
    ($spares:expr, $field:ident Bytes) => { $spares.take($field.as_slice()) };
    ($spares:expr, $field:ident $kind:ident) => { *$field };
}

/// A call once more.
macro_rules! copy {
    (($call:expr, $spares:expr) [$($family:ident {
        $($variant:ident $name:literal {
            $($key:ident: $kind:ident $($id:ident)? $(= $default:expr)?),*
        } -> $answer:ident)*
    })*]) => {
        match $call {
            $($(Call::$variant { $($key),* } => Call::$variant {
                $($key: copied!($spares, $key $kind)),*
            },)*)*
        }
    };
}

impl Call {
    /// The same call once more, its bytes, if it carries any, in a box of `spares`. `Call` isn't `Copy`, as it may
    /// carry bytes.
    pub fn copied<A: Allocator>(&self, spares: &mut Spares<A>) -> Call
        requires { boxes_in_call self.now ≤ spares.old }
        ensures same { result ≡ self.now }
        ensures spent { spares.new + boxes_in_call self.now ≡ spares.old }
    {
        each_call!(copy(self, spares))
    }
}
