//! The board on which all callers act.
ghost use Rattle.std.specs.Prelude.{◌≡◌};
ghost use Rattle.test_hosts.specs.Boards.{kinds, shared_board};

use arrayvec::ArrayVec;
use evl_base::{Board, MutexKind};

/// How many semaphores, flag groups, cross-buffers, mutexes, quota groups and stage exclusion locks it has.
pub const SEMS: u16 = 2;

pub const FLAGS: u16 = 2;

pub const XBUFS: u16 = 2;

pub const MUTEXES: u16 = 4;

pub const GROUPS: u16 = 1;

pub const STAXES: u16 = 2;

fn mutex_kinds() -> ArrayVec<MutexKind, 32>
    ensures { result.items ≡ kinds }
{
    let mut mutexes = ArrayVec::new();
    mutexes.push(MutexKind::Normal);
    mutexes.push(MutexKind::Recursive);
    mutexes.push(MutexKind::Ceiling(50));
    mutexes.push(MutexKind::Normal);
    mutexes
}

/// Two semaphores, flag groups, cross-buffers and stage exclusion locks, four mutexes of all kinds, and a quota group.
pub fn shared_board(threads: u16) -> Board
    ensures { result ≡ shared_board threads }
{
    let mut sems = ArrayVec::new();
    sems.push(0);
    sems.push(2);
    let mut flags = ArrayVec::new();
    flags.push(0);
    flags.push(6);
    let mut xbufs = ArrayVec::new();
    xbufs.push((16, 16));
    xbufs.push((5, 64));
    let mut groups = ArrayVec::new();
    groups.push(40);
    let mut staxes = ArrayVec::new();
    staxes.push(2);
    staxes.push(1);
    Board {
        threads,
        sems,
        flags,
        xbufs,
        mutexes: mutex_kinds(),
        groups,
        staxes,
    }
}
