//! The steps of flag groups that calls and actions ask for.
ghost use Rattle.std.specs.Prelude.{◌≡◌, [], Ok, Err, IfErr, IfOk};
ghost use Rattle.evl_sync.specs.FlagGroups.{pairs};
ghost use Rattle.evl_kernel.specs.calls.Elements.{element, on_flags, wakes};
ghost use Rattle.evl_kernel.specs.state.ElementsViews.{owners_of};
ghost use Rattle.evl_kernel.specs.calls.FlagGroups as group;
ghost use Rattle.evl_kernel.specs.calls.FlagGroups.{all_served};

use super::Elements;
use arrayvec::ArrayVec;
use evl_base::{FlagId, MAX_THREADS, Refusal, Reply, Take};
use evl_sync::TakenBits;
use std::alloc::Allocator;

impl<A: Allocator> Elements<A> {
    /// Takes bits, and says which. `Unknown` where there is no such flag group, `Invalid` where the mask has no bits,
    /// `Again` where there is nothing to take.
    pub(crate) fn try_take(&mut self, flags: FlagId, kind: Take) -> Result<u32, Refusal>
        ensures step { IfOk result (λ got. element self.old.elements (on_flags flags.0 (group.take kind)) ≡ Ok (Reply.Bits got, self.new.elements)) }
        ensures owners { owners_of self.new ≡ owners_of self.old }
        ensures refused { IfErr result (λ e. (element self.old.elements (on_flags flags.0 (group.take kind)) ≡ Err e) × (self.new ≡ self.old)) }
    {
        let place = usize::from(flags.0);
        if place >= self.flags.len() {
            return Err(Refusal::Unknown);
        }
        self.flags[place].try_take(kind)
    }

    /// Adds bits, and enters who waits no more, in order, and which bits each took, into a list where nobody is yet.
    /// `Unknown` where there is no such flag group, `Invalid` where there are no bits to add.
    pub(crate) fn post(
        &mut self,
        flags: FlagId,
        bits: u32,
        told: &mut ArrayVec<TakenBits, MAX_THREADS>,
    ) -> Result<(), Refusal>
        requires nobody { told.old.items ≡ [] }
        ensures step { IfOk result (λ _. element self.old.elements (on_flags flags.0 (group.post bits)) ≡ Ok (Reply.Done, self.new.elements)) }
        ensures owners { owners_of self.new ≡ owners_of self.old }
        ensures served { IfOk result (λ _. wakes self.old.elements (on_flags flags.0 (group.post bits)) ≡ all_served (pairs told.new.items)) }
        ensures refused { IfErr result (λ e. (element self.old.elements (on_flags flags.0 (group.post bits)) ≡ Err e) × (self.new ≡ self.old)) }
    {
        let place = usize::from(flags.0);
        if place >= self.flags.len() {
            return Err(Refusal::Unknown);
        }
        self.flags[place].post_telling(bits, told)
    }

    /// The bits that are there. `Unknown` where there is no such flag group.
    pub(crate) fn bits(&self, flags: FlagId) -> Result<u32, Refusal>
        ensures step { IfOk result (λ bits. element self.now.elements (on_flags flags.0 group.peek) ≡ Ok (Reply.Bits bits, self.now.elements)) }
        ensures refused { IfErr result (λ e. element self.now.elements (on_flags flags.0 group.peek) ≡ Err e) }
    {
        let place = usize::from(flags.0);
        if place >= self.flags.len() {
            return Err(Refusal::Unknown);
        }
        Ok(self.flags[place].peek())
    }
}
