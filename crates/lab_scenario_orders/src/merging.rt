//! Moments that are one state of callers and kernel.
ghost use Rattle.std.specs.Prelude.{◌≡◌, true};
ghost use Rattle.lab_scenario_orders.specs.Callers.{state_begun};
ghost use Rattle.lab_scenario_orders.specs.Moments.{StandsAt, seen_at, trailed};

use crate::banks::BankMaker;
use crate::callers::Callers;
use crate::kernels::{leave, led};
use crate::moments::{Moment, are_same, are_same_numbers};
use evl_kernel::KernelOf;
use std::alloc::Global;

// Whether the steps at these places lead to a kernel that is like one over the same callbacks.
fn is_led_alike<B: BankMaker>(
    alloc: Global,
    callers: &Callers,
    bank: &B,
    kernel: &KernelOf<B::Made, Global>,
    places: &[usize],
) -> bool
    requires bank { kernel.now.history.bank ≡ B.bank bank.now }
    ensures { result ≡ true → kernel.now.history.state ≡ trailed callers.now (state_begun callers.now (B.bank bank.now)) places.now }
{
    match led(alloc, callers, bank, places) {
        Ok(other) => {
            let alike = kernel.is_like(&other);
            leave(other);
            alike
        }
        Err(_) => false,
    }
}

// Whether the steps of one moment lead to a kernel that is like the one at hand at another.
fn do_trails_meet<B: BankMaker>(
    alloc: Global,
    callers: &Callers,
    bank: &B,
    one: &[usize],
    other: &[usize],
    kernel: &KernelOf<B::Made, Global>,
) -> bool
    requires state { kernel.now.history.state ≡ trailed callers.now (state_begun callers.now (B.bank bank.now)) other.now }
    requires bank { kernel.now.history.bank ≡ B.bank bank.now }
    ensures { result ≡ true → trailed callers.now (state_begun callers.now (B.bank bank.now)) one.now ≡ trailed callers.now (state_begun callers.now (B.bank bank.now)) other.now }
{
    if are_same_numbers(one, other) {
        return true;
    }
    is_led_alike(alloc, callers, bank, kernel, one)
}

/// Whether two moments are one state: each caller has made as many steps and was answered alike, and the kernels stand
/// alike, in whatever order they were led there. The second one's kernel is at hand. No, where memory couldn't grow.
pub(crate) fn are_merged<B: BankMaker>(
    alloc: Global,
    callers: &Callers,
    bank: &B,
    one: &Moment,
    other: &Moment,
    kernel: &KernelOf<B::Made, Global>,
) -> bool
    requires { StandsAt callers.now (B.bank bank.now) kernel.now.history.state kernel.now.history.bank other.now }
    ensures { result ≡ true → seen_at callers.now (B.bank bank.now) one.now ≡ seen_at callers.now (B.bank bank.now) other.now }
{
    if one.standing != other.standing {
        return false;
    }
    if !are_same(one, other) {
        return false;
    }
    do_trails_meet(
        alloc,
        callers,
        bank,
        one.trail.as_slice(),
        other.trail.as_slice(),
        kernel,
    )
}
