//! The elements as they were made.
ghost use Rattle.std.specs.Prelude.{◌≡◌, length, map, replicate};
ghost use Rattle.evl_kernel.specs.state.Openings.{all_opened};
ghost use Rattle.evl_kernel.specs.state.Shapes.{HaveShape, sizes_of};
ghost use Rattle.evl_sync.specs.FlagGroups as flag_groups;
ghost use Rattle.evl_sync.specs.Semaphores as semaphores;
ghost use Rattle.evl_xbuf.specs.Xbufs as cross_buffers;

use super::Elements;
use evl_base::Board;
use evl_sync::{FlagGroup, Sem};
use evl_xbuf::XbufOf;
use std::alloc::Allocator;

impl<A: Allocator> Elements<A> {
    /// The elements of their board as `new` made them; no memory is asked for.
    pub(crate) fn reset(&mut self, board: &Board)
        requires shape { HaveShape board.now self.old.elements }
        ensures opened { self.new.elements ≡ all_opened board.now }
        ensures base { self.new.base ≡ replicate (length self.old.base) 0 }
    {
        reset_sems(&mut self.sems, board.sems.as_slice());
        reset_flags(&mut self.flags, board.flags.as_slice());
        reset_xbufs(&mut self.xbufs);
        self.owners.reset();
    }
}

// Each semaphore has its first count again.
fn reset_sems<A: Allocator>(sems: &mut Vec<Sem, A>, counts: &[u32])
    requires all { length sems.old.items ≡ length counts.now }
    ensures sems { sems.new.items ≡ map semaphores.opened_semaphore counts.now }
{
    for i in 0..sems.len() {
        sems[i].reset(counts[i]);
    }
}

// Each flag group has its first bits again.
fn reset_flags<A: Allocator>(flags: &mut Vec<FlagGroup, A>, openings: &[u32])
    requires all { length flags.old.items ≡ length openings.now }
    ensures flags { flags.new.items ≡ map flag_groups.opened_group openings.now }
{
    for i in 0..flags.len() {
        flags[i].reset(openings[i]);
    }
}

// Each cross-buffer has nothing in its rings.
fn reset_xbufs<A: Allocator>(xbufs: &mut Vec<XbufOf<A>, A>)
    ensures xbufs { xbufs.new.items ≡ map (λ sizes. cross_buffers.opened_xbuf sizes.0 sizes.1) (map sizes_of xbufs.old.items) }
{
    for i in 0..xbufs.len() {
        xbufs[i].reset();
    }
}
