//! The elements of a board, by kind and number, and their steps.
ghost use Rattle.std.specs.Prelude.{◌≡◌, IfErr, IfOk, map, replicate, true};
ghost use Rattle.std.specs.List.{list_all};
ghost use Rattle.evl_base.specs.Board.{board_fits};
ghost use Rattle.evl_kernel.specs.state.Openings.{all_opened};
ghost use Rattle.evl_sync.specs.FlagGroups as flag_groups;
ghost use Rattle.evl_sync.specs.Semaphores as semaphores;
ghost use Rattle.evl_xbuf.specs.Xbufs as cross_buffers;
ghost use Rattle.evl_base.specs.Limits.{sizes_fit};

mod cross_buffers;
mod flag_groups;
mod likeness;
mod mutexes;
mod readers;
mod resetting;
mod semaphores;
mod waiting;

use crate::allocators::another;
use evl_base::{Board, Refusal};
use evl_mutex::OwnersOf;
use evl_sync::{FlagGroup, Sem};
use evl_xbuf::XbufOf;
use std::alloc::{AllocError, Allocator};
use std::marker::Model;

/// The semaphores, flag groups, cross-buffers and mutexes of a board. No step takes memory.
#[derive(Drop)]
pub(crate) struct Elements<A: Allocator> {
    sems: Vec<Sem, A>,
    flags: Vec<FlagGroup, A>,
    xbufs: Vec<XbufOf<A>, A>,
    owners: OwnersOf<A>,
}

impl<A: Allocator> Model for Elements<A> {
    ghost use Rattle.evl_kernel.specs.state.ElementsViews.{ElementsView};

    ghost Value = { ElementsView };

    ghost view = { λ e. record { elements = record { sems = e.sems.items; flags = e.flags.items; xbufs = e.xbufs.items; mutexes = e.owners.mutexes }; base = e.owners.base } };
}

impl<A: Allocator> Elements<A> {
    /// The elements of a board within its limits, for which nobody waits. `NoMemory` where room was refused.
    pub(crate) fn new(alloc: A, board: &Board) -> Result<Elements<A>, Refusal>
    where
        A: Clone,
        requires fits { board_fits board.now ≡ true }
        ensures opened { IfOk result (λ elements. elements.elements ≡ all_opened board.now) }
        ensures base { IfOk result (λ elements. elements.base ≡ replicate board.now.threads 0) }
        ensures refusal { IfErr result (λ e. e ≡ Refusal.NoMemory) }
    {
        let for_sems = another(&alloc)?;
        let for_flags = another(&alloc)?;
        let sems = match opened_sems(for_sems, board.sems.as_slice()) {
            Ok(sems) => sems,
            Err(_) => return Err(Refusal::NoMemory),
        };
        let flags = match opened_flags(for_flags, board.flags.as_slice()) {
            Ok(flags) => flags,
            Err(_) => return Err(Refusal::NoMemory),
        };
        let for_owners = another(&alloc)?;
        let owners = OwnersOf::new(for_owners, board.threads, board.mutexes.as_slice())?;
        let xbufs = match opened_xbufs(alloc, board.xbufs.as_slice()) {
            Ok(xbufs) => xbufs,
            Err(refusal) => return Err(refusal),
        };
        Ok(Elements {
            sems,
            flags,
            xbufs,
            owners,
        })
    }
}

// A cross-buffer with rings of each of these sizes.
fn opened_xbufs<A: Allocator + Clone>(
    alloc: A,
    sizes: &[(u16, u16)],
) -> Result<Vec<XbufOf<A>, A>, Refusal>
    requires fit { list_all sizes_fit sizes.now ≡ true }
    ensures xbufs { IfOk result (λ xbufs. xbufs.items ≡ map (λ pair. cross_buffers.opened_xbuf pair.0 pair.1) sizes.now) }
    ensures refusal { IfErr result (λ e. e ≡ Refusal.NoMemory) }
{
    let for_rings = another(&alloc)?;
    let mut xbufs = Vec::new(alloc);
    for pair in sizes {
        let xbuf = match opened_xbuf(&for_rings, *pair) {
            Ok(xbuf) => xbuf,
            Err(refusal) => return Err(refusal),
        };
        match xbufs.push(xbuf) {
            Ok(()) => {}
            Err(_) => return Err(Refusal::NoMemory),
        }
    }
    Ok(xbufs)
}

// A cross-buffer with rings of these sizes.
fn opened_xbuf<A: Allocator + Clone>(alloc: &A, pair: (u16, u16)) -> Result<XbufOf<A>, Refusal>
    requires fit { sizes_fit pair ≡ true }
    ensures xbuf { IfOk result (λ xbuf. xbuf ≡ cross_buffers.opened_xbuf pair.0 pair.1) }
    ensures refusal { IfErr result (λ e. e ≡ Refusal.NoMemory) }
{
    let rings = another(alloc)?;
    XbufOf::new(rings, pair.0, pair.1)
}

// A semaphore of each count.
fn opened_sems<A: Allocator>(alloc: A, counts: &[u32]) -> Result<Vec<Sem, A>, AllocError>
    ensures sems { IfOk result (λ sems. sems.items ≡ map semaphores.opened_semaphore counts.now) }
{
    let mut sems = Vec::with_capacity(alloc, counts.len())?;
    for count in counts {
        sems.push(Sem::new(*count))?;
    }
    Ok(sems)
}

// A flag group of each of these bits.
fn opened_flags<A: Allocator>(alloc: A, openings: &[u32]) -> Result<Vec<FlagGroup, A>, AllocError>
    ensures flags { IfOk result (λ flags. flags.items ≡ map flag_groups.opened_group openings.now) }
{
    let mut flags = Vec::with_capacity(alloc, openings.len())?;
    for bits in openings {
        flags.push(FlagGroup::new(*bits))?;
    }
    Ok(flags)
}
