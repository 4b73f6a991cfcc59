//! Boards that are in range, and boards that aren't.
ghost use Rattle.std.specs.Prelude.{◌≡◌, []};

use self::Part::{Ceiling, Count, Percent, Rings, Stax, Threads};
use crate::boards::bare_board;
use crate::rows::cases;
use evl_base::{Board, MutexKind, Refusal};

fn is_fit(board: Board) -> bool {
    board.check().is_ok()
}

// All that a board of one thread has beside it, or how many threads one has that has nothing else.
#[derive(Clone, Copy)]
enum Part {
    Threads(u16),
    Count(u32),
    Rings(u16, u16),
    Ceiling(u8),
    Percent(u8),
    Stax(u16),
}

// Such a board.
fn board_with(part: Part) -> Board {
    let mut board = bare_board(1);
    match part {
        Part::Threads(threads) => board.threads = threads,
        Part::Count(count) => board.sems.push(count),
        Part::Rings(inbound, outbound) => board.xbufs.push((inbound, outbound)),
        Part::Ceiling(prio) => board.mutexes.push(MutexKind::Ceiling(prio)),
        Part::Percent(percent) => board.groups.push(percent),
        Part::Stax(limit) => board.staxes.push(limit),
    }
    board
}

// Whether each of these fits, or doesn't, as it says.
fn are_so(parts: &[(Part, bool)]) -> bool {
    for (part, fits) in parts {
        if is_fit(board_with(*part)) != *fits {
            return false;
        }
    }
    true
}

const THREADS_AND_COUNTS: [(Part, bool); 13] = cases![
    Threads(0) => false; Threads(1) => true; Threads(256) => true; Threads(257) => false;
    Count(0) => true; Count(2_147_483_647) => true; Count(2_147_483_648) => false;
    Rings(1, 256) => true; Rings(256, 1) => true; Rings(0, 4) => false; Rings(257, 4) => false;
    Rings(4, 0) => false; Rings(4, 257) => false;
];

#[test]
fn threads_and_counts_have_a_range(rt: HostRuntime) {
    assert!(rt; are_so(&THREADS_AND_COUNTS));
}

const CEILINGS_GROUPS_AND_STAXES: [(Part, bool); 12] = cases![
    Ceiling(0) => false; Ceiling(1) => true; Ceiling(99) => true; Ceiling(100) => false;
    Percent(0) => false; Percent(1) => true; Percent(100) => true; Percent(101) => false;
    Stax(0) => false; Stax(1) => true; Stax(1000) => true; Stax(1001) => false;
];

#[test]
fn ceilings_groups_and_staxes_have_a_range(rt: HostRuntime) {
    assert!(rt; are_so(&CEILINGS_GROUPS_AND_STAXES));
}

// Whether a good board is refused for a range once it has a cross-buffer with no room one way.
fn is_checked(mut board: Board) -> bool
    requires { board.xbufs.items ≡ [] }
{
    let good = board.check().is_ok();
    board.xbufs.push((256, 0));
    let bad = matches!(board.check(), Err(Refusal::Range));
    good && bad
}

#[test]
fn a_board_is_checked(rt: HostRuntime) {
    assert!(rt; is_checked(bare_board(256)));
}
