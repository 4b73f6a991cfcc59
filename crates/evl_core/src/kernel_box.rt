//! The slot's content: the kernel in a box, so that only a pointer moves where the kernel goes out or in.
ghost use Rattle.std.specs.Prelude.{◌≡◌, IfOk};
ghost use Rattle.evl_kernel.specs.state.Callbacks.{AnswersByPlan};
ghost use Rattle.evl_core.specs.accounts.KernelCalls.{Applied, Reserves, ReservesFor};

use evl_base::{Call, Refusal, Reply, ThreadId};
use evl_kernel::KernelOf;
use evl_pipeline::Handler;
use std::alloc::{AllocError, Allocator};
use std::marker::Model;

/// A kernel in a box of its own. To a contract it is the kernel.
#[derive(Drop)]
pub struct KernelBox<C, A: Allocator> {
    kernel: Box<KernelOf<C, A>, A>,
}

impl<C, A: Allocator> Model for KernelBox<C, A> {
    ghost use Rattle.evl_kernel.specs.state.KernelViews.{KernelView};

    ghost Value = { KernelView C };

    ghost view = { λ b. b.kernel.value };
}

// This in a box of its own. (What it consists of doesn't matter here, so that dropping it is one step.)
fn boxed<T: Drop, A: Allocator + Clone>(alloc: &A, value: T) -> Result<Box<T, A>, AllocError>
    ensures { IfOk result (λ made. made.value ≡ value) }
{
    match Box::new(alloc.clone()?, value) {
        Ok(made) => Ok(made),
        Err(_) => Err(AllocError),
    }
}

impl<C, A: Allocator> KernelBox<C, A> {
    /// This kernel in a box, for which room may be refused. The kernel is then dropped.
    pub fn new(alloc: &A, kernel: KernelOf<C, A>) -> Result<KernelBox<C, A>, AllocError>
    where
        C: Drop,
        A: Clone,
        ensures { IfOk result (λ b. b ≡ kernel) }
    {
        match boxed(alloc, kernel) {
            Ok(kernel) => Ok(KernelBox { kernel }),
            Err(error) => Err(error),
        }
    }

    /// The kernel, to be read.
    pub fn kernel(&self) -> &KernelOf<C, A>
        ensures { result.now ≡ self.now }
    {
        &*self.kernel
    }

    /// The kernel out of its box.
    pub fn into_kernel(self) -> KernelOf<C, A>
        ensures { result ≡ self }
    {
        let KernelBox { kernel } = self;
        Box::into_inner(kernel)
    }
}

impl<C: Handler, A: Allocator> KernelBox<C, A> {
    /// Makes room for one call.
    pub fn reserve(&mut self) -> Result<(), Refusal>
        ensures { Reserves self.old result self.new }
    {
        self.kernel.reserve(1)
    }

    /// Makes room for so many calls.
    pub fn reserve_for(&mut self, calls: usize) -> Result<(), Refusal>
        ensures { ReservesFor calls self.old result self.new }
    {
        self.kernel.reserve(calls)
    }

    /// One call of the kernel.
    #[inline(always)]
    pub fn apply(&mut self, caller: ThreadId, call: Call) -> Result<Reply, Refusal>
        requires { AnswersByPlan C.declared C.plan self.old.callbacks }
        ensures { Applied self.old caller.0 call result self.new }
    {
        self.kernel.apply(caller, call)
    }
}
