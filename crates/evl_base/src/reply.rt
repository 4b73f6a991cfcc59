//! The answers of the calls of the kernel.
ghost use Rattle.std.specs.Prelude.{◌≡◌, ◌≤◌, ◌+◌, Some};
ghost use Rattle.evl_base.specs.Reply.{boxes_in};

use crate::numbers::ThreadId;
use crate::transfer::{Spares, Transfer};
use crate::way::Hex;
use std::alloc::Allocator;
use std::fmt;

/// The answer of a call that wasn't refused.
#[derive(Drop)]
pub enum Reply {
    /// The call is done, and there is nothing to say.
    Done,
    /// The caller waits from now on.
    Begun,
    /// A semaphore's count, or minus the number of its waiters.
    Count(i64),
    /// Bits of a flag group.
    Bits(u32),
    /// A number: a timer's, a date, a rank, a room, overruns.
    Number(u64),
    /// All that was read from a cross-buffer.
    Bytes(Transfer),
    /// The thread that is picked, if there is one.
    Chosen(Option<ThreadId>),
    /// The next owner of a mutex, if there is one, and whether more threads wait.
    Handed { next: Option<ThreadId>, more: bool },
    /// The wait ended at its deadline.
    TimedOut,
}

/// The kinds of what the calls answer where they aren't refused: a variant of `Reply`, or what ends a wait.
#[derive(Clone, Copy, PartialEq, Eq)]
pub enum ReplyKind {
    Done,
    Begun,
    Count,
    Bits,
    Number,
    Bytes,
    Chosen,
    Handed,
    /// The end of a wait: done, bits, bytes, or its deadline.
    Outcome,
}

impl Reply {
    /// The same reply once more, its bytes, if it carries any, in a box of `spares`. `Reply` isn't `Copy`, as it may
    /// carry bytes.
    pub fn copied<A: Allocator>(&self, spares: &mut Spares<A>) -> Reply
        requires { boxes_in self.now ≤ spares.old }
        ensures same { result ≡ self.now }
        ensures spent { spares.new + boxes_in self.now ≡ spares.old }
    {
        match self {
            Reply::Done => Reply::Done,
            Reply::Begun => Reply::Begun,
            Reply::Count(count) => Reply::Count(*count),
            Reply::Bits(bits) => Reply::Bits(*bits),
            Reply::Number(number) => Reply::Number(*number),
            Reply::Bytes(bytes) => Reply::Bytes(spares.take(bytes.as_slice())),
            Reply::Chosen(thread) => Reply::Chosen(*thread),
            Reply::Handed { next, more } => Reply::Handed {
                next: *next,
                more: *more,
            },
            Reply::TimedOut => Reply::TimedOut,
        }
    }
}

impl fmt::Display for Reply {
    ghost use Rattle.evl_base.specs.Reply.{reply_text};

    ghost output = { λ reply. Some (reply_text reply) };

    fn fmt<W: fmt::Write>(&self, f: &mut fmt::Formatter<W>) -> fmt::Result {
        match self {
            Reply::Done => write!(f, "done"),
            Reply::Begun => write!(f, "begun"),
            Reply::Count(count) => write!(f, "count {count}"),
            Reply::Bits(bits) => write!(f, "bits {bits}"),
            Reply::Number(number) => write!(f, "number {number}"),
            Reply::Bytes(bytes) => {
                let digits = Hex(bytes.as_slice());
                write!(f, "bytes {digits}")
            }
            Reply::Chosen(None) => write!(f, "thread none"),
            Reply::Chosen(Some(thread)) => {
                let thread = thread.0;
                write!(f, "thread {thread}")
            }
            Reply::Handed { next: None, .. } => write!(f, "next none"),
            Reply::Handed {
                next: Some(thread),
                more: true,
            } => {
                let thread = thread.0;
                write!(f, "next {thread} more")
            }
            Reply::Handed {
                next: Some(thread),
                more: false,
            } => {
                let thread = thread.0;
                write!(f, "next {thread}")
            }
            Reply::TimedOut => write!(f, "timed out"),
        }
    }
}
