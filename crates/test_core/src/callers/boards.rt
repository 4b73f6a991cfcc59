//! The board of the rows, and what is in the word of its first mutex.
use super::acts::{AGAIN, Act, Ask, DONE, PASSED, Told, WAITING};
use super::phases::{Left, Seen, Step};
use crate::boards::bare_board;
use crate::rows::steps;
use evl_base::{
    Board, FlagId, LineNo, MutexId, MutexKind, Policy, SemId, Stage, StaxId, ThreadId, XbufId,
};
use evl_machine::InWord;

pub const SEM: SemId = SemId(0);

pub const OTHER: SemId = SemId(1);

pub const FLAGS: FlagId = FlagId(0);

pub const XBUF: XbufId = XbufId(0);
/// Staxes for one thread, and for two.
pub const STAX: StaxId = StaxId(0);

pub const WIDE: StaxId = StaxId(1);

pub const FIRST: MutexId = MutexId(0);

pub const SECOND: MutexId = MutexId(1);

pub const LINE: LineNo = LineNo(8);

pub const NORMAL: MutexKind = MutexKind::Normal;

pub const CEILING: MutexKind = MutexKind::Ceiling(50);

pub const ATTACH: Act = Act::Call(Ask::Attach(Policy::Fifo(10), Stage::Oob));

pub const PUT: Act = Act::Call(Ask::Put(SEM));

pub const GET: Act = Act::Call(Ask::TryGet(SEM));

pub const PEEK: Act = Act::Call(Ask::Peek(SEM));

/// Two callers are attached.
pub const ATTACHED: [Step; 2] = steps![0 ATTACH => DONE, 1 ATTACH => DONE];

/// The same, and the history has just as many entries as it has room for: the next one asks for memory.
pub const GROWN: [Step; 4] =
    steps![0 ATTACH => DONE, 1 ATTACH => DONE, 2 PUT => DONE, 2 PUT => DONE];

/// The first caller has the first mutex, and the second one waits for it.
pub const CONTENDED: [Step; 4] = steps![
    0 ATTACH => DONE, 1 ATTACH => DONE, 0 Act::Lock(FIRST) => PASSED, 1 Act::Begin(FIRST, None) => WAITING,
];

/// The answers to the first two once the core is free, which one of them had for one put.
pub const ONCE_FREE: [Step; 5] = steps![
    1 GET => DONE, 1 PUT => DONE, 0 GET => DONE, 0 GET => AGAIN, 1 PEEK => Told::Count(0),
];

/// So many threads, two semaphores of count 0, a flag group, a cross-buffer with rings of four bytes, two mutexes of
/// which the second is a normal one, and the staxes.
pub fn board_with(threads: u16, first: MutexKind) -> Board {
    let mut board = bare_board(threads);
    board.sems.push(0);
    board.sems.push(0);
    board.flags.push(0);
    board.xbufs.push((4, 4));
    board.mutexes.push(first);
    board.mutexes.push(MutexKind::Normal);
    board.staxes.push(1);
    board.staxes.push(2);
    board
}

/// All that is seen where this is left, if it is looked at, and whether the first thread's wait is to be over then.
pub fn seen_of(left: Left) -> Option<(Seen, bool)> {
    let seen = match left {
        Left::Unseen => return None,
        Left::Free(entries) | Left::Over(entries) => owned(entries, None, false, None),
        Left::Owned(entries, thread) => owned(entries, Some(thread), false, None),
        Left::Offered(entries, thread) => offered(owned(entries, Some(thread), false, None)),
        Left::OfferedOn(entries, thread, waiters) => {
            offered(owned(entries, Some(thread), true, Some(waiters)))
        }
        Left::Raised(entries, thread) => owned(entries, Some(thread), false, Some(0)),
        Left::Awaited(entries, thread, waiters) => {
            owned(entries, Some(thread), true, Some(waiters))
        }
        Left::Marked(entries, thread) => owned(entries, Some(thread), true, None),
    };
    Some((seen, matches!(left, Left::Over(_))))
}

// The same, while the mutex is offered to that thread, which hasn't accepted it yet.
fn offered(seen: Seen) -> Seen {
    let word = match seen.word {
        Some(word) => Some(InWord {
            is_offered: true,
            ..word
        }),
        None => None,
    };
    Seen { word, ..seen }
}

// This thread has the first mutex, or nobody, and it is claimed or not; so many wait for it where the thread is the
// recorded owner.
fn owned(entries: usize, thread: Option<u16>, is_claimed: bool, recorded: Option<usize>) -> Seen {
    let owner = match thread {
        Some(number) => Some(ThreadId(number)),
        None => None,
    };
    let word = Some(InWord {
        owner,
        is_offered: false,
        is_claimed,
    });
    match recorded {
        Some(waiters) => Seen {
            entries,
            word,
            owner,
            waiters,
        },
        None => Seen {
            entries,
            word,
            owner: None,
            waiters: 0,
        },
    }
}
