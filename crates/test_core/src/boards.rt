//! A board that has nothing but threads.
ghost use Rattle.std.specs.Prelude.{◌≡◌, []};

use arrayvec::ArrayVec;
use evl_base::Board;

/// A board of so many threads, with no elements.
pub fn bare_board(threads: u16) -> Board
    ensures sems { result.sems.items ≡ [] }
    ensures flags { result.flags.items ≡ [] }
    ensures xbufs { result.xbufs.items ≡ [] }
    ensures mutexes { result.mutexes.items ≡ [] }
    ensures groups { result.groups.items ≡ [] }
    ensures staxes { result.staxes.items ≡ [] }
{
    Board {
        threads,
        sems: ArrayVec::new(),
        flags: ArrayVec::new(),
        xbufs: ArrayVec::new(),
        mutexes: ArrayVec::new(),
        groups: ArrayVec::new(),
        staxes: ArrayVec::new(),
    }
}
