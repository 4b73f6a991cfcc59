//! Whether two pipelines stand alike.
ghost use Rattle.std.specs.Prelude.{◌≡◌, true};
ghost use Rattle.evl_pipeline.specs.Names.{named_pipeline};

use super::PipelineOf;
use crate::by_line::are_counts_alike;
use crate::named::Named;
use std::alloc::Allocator;

impl<C: Named, A: Allocator> PipelineOf<C, A> {
    // rule: Two of a kind are alike exactly if their states are the same, with each callback's name in its place, of
    //   kernels over one bank; a free place of a queue holds a fixed value.
    //   clauses: Pipeline::is_like; Clock::is_like; Sched::is_like; are_alike; Alike::is_alike; WaitQueue::is_like;
    //   ArrivalQueue::is_like; Sem::is_like; FlagGroup::is_like; Owners::is_like; Xbuf::is_like; Kernel::is_like
    //   rows: kernels_stand_alike
    /// Whether both pipelines stand alike: the same is pending, stalled and counted, and the same is on each line.
    /// The names of two callbacks are compared.
    pub fn is_like<B: Allocator>(&self, other: &PipelineOf<C, B>) -> bool
        ensures alike { result ≡ true → named_pipeline C.name self.now ≡ named_pipeline C.name other.now }
        ensures other { named_pipeline C.name self.now ≡ named_pipeline C.name other.now → result ≡ true }
    {
        self.oob.is_like(&other.oob)
            && self.inband.is_like(&other.inband)
            && are_counts_alike(&self.spurious, &other.spurious)
    }
}
