//! Whether the records of two kernels stand alike.
ghost use Rattle.std.specs.Prelude.{◌≡◌, true};
ghost use Rattle.evl_kernel.specs.state.Callbacks.{handlers_in};
ghost use Rattle.evl_kernel.specs.state.Records.{state_of};

use super::Records;
use crate::bank::are_homes_alike;
use evl_sync::are_alike;
use std::alloc::Allocator;

impl<C, A: Allocator> Records<C, A> {
    /// Whether the records of both mean the same, where their callbacks declare and answer the same.
    pub(crate) fn is_like(&self, other: &Records<C, A>) -> bool
        ensures alike { result ≡ true → handlers_in self.now.bank ≡ handlers_in other.now.bank → state_of self.now ≡ state_of other.now }
        ensures other { state_of self.now ≡ state_of other.now → result ≡ true }
    {
        if self.threads != other.threads {
            return false;
        }
        if !are_homes_alike(self.bank.as_slice(), other.bank.as_slice()) {
            return false;
        }
        if !are_alike(self.waits.as_slice(), other.waits.as_slice()) {
            return false;
        }
        if !self.sched.is_like(&other.sched) {
            return false;
        }
        if !self.elements.is_like(&other.elements) {
            return false;
        }
        if !self.clock.is_like(&other.clock) {
            return false;
        }
        self.pipeline.is_like(&other.pipeline)
    }
}
