//! Host threads that work at once on what they share.
ghost use Rattle.std.specs.Prelude.{◌≡◌, All, IfOk, length};
ghost use Rattle.evl_kernel.specs.state.Callbacks.{AnswersByPlan};

use crate::playing::Player;
use crate::session::Hand;
use crate::watch::Watch;
use evl_machine::MachineOf;
use evl_pipeline::Handler;
use std::alloc::{AllocError, Allocator};
use std::sync::Wait;
use std::thread;
use std::thread::Threads;

/// A worker that goes to a host thread, works there on what all threads share, and comes back.
pub trait Worker<M>: Drop {
    /// It belongs to what is shared.
    ghost fits: { Self → M → Type 0 };

    fn work<R: Wait>(self, rt: &R, shared: &M, watch: &Watch) -> Self
        requires { fits self shared.now }
        ensures { fits result shared.now };
}

impl<C: Handler, A: Allocator> Worker<MachineOf<C, A>> for Hand<C, A> {
    ghost use Rattle.std.specs.Prelude.{◌≡◌};
    ghost use Rattle.evl_kernel.specs.state.Callbacks.{AnswersByPlan};

    ghost fits = { λ h m. (h.caller.machine ≡ m) × AnswersByPlan C.declared C.plan m.first.callbacks };

    fn work<R: Wait>(self, rt: &R, shared: &MachineOf<C, A>, watch: &Watch) -> Hand<C, A> {
        self.does(rt, shared, watch)
    }
}

impl<C: Handler, A: Allocator> Worker<MachineOf<C, A>> for Player<C, A> {
    ghost use Rattle.std.specs.Prelude.{◌≡◌};
    ghost use Rattle.evl_kernel.specs.state.Callbacks.{AnswersByPlan};

    ghost fits = { λ p m. (p.caller.machine ≡ m) × AnswersByPlan C.declared C.plan m.first.callbacks };

    fn work<R: Wait>(self, rt: &R, shared: &MachineOf<C, A>, watch: &Watch) -> Player<C, A> {
        self.plays(rt, shared, watch)
    }
}

/// All work at once, each on a host thread of its own. `AllocError` where there was no memory for that.
pub fn all_work<M: Sync, W: Worker<M> + Send, R: Threads + Wait + Sync>(
    rt: &R,
    shared: &M,
    watch: &Watch,
    workers: Vec<W>,
) -> Result<Vec<W>, AllocError>
    requires { All (λ w. W.fits w shared.now) workers.items }
    ensures fits { IfOk result (λ back. All (λ w. W.fits w shared.now) back.items) }
    ensures all { IfOk result (λ back. length back.items ≡ length workers.items) }
{
    let work = |worker: W| -> W
        requires { W.fits worker shared.now }
        ensures { W.fits result shared.entry.now }
    { worker.work(rt, shared, watch) };
    thread::map_vec(rt, workers, &work)
}
