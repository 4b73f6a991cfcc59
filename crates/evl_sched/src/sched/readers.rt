//! All that the scheduler says of all of its threads at once.
ghost use Rattle.std.specs.Prelude.{◌≡◌, ◌++◌, true, map, IfErr, OnErr, OnOk};
ghost use Rattle.evl_base.specs.declared.refusal.Refusal.{Refusal};
ghost use Rattle.evl_sched.specs.Charges.{allowance};

use super::SchedOf;
use crate::group::Group;
use crate::search;
use crate::seat::Seat;
use evl_base::{Policy, Refusal, ThreadId};
use std::alloc::Allocator;

impl<A: Allocator> SchedOf<A> {
    /// Adds the ready threads to a list, in the order of the ready list. `NoMemory` where room was refused; the list is
    /// as before then (Xenomai 4: EVL scheduling policies).
    pub fn ready_threads<B: Allocator>(&self, out: &mut Vec<ThreadId, B>) -> Result<(), Refusal>
        ensures told { OnOk result (map (λ t. t.0) out.new.items ≡ map (λ t. t.0) out.old.items ++ self.now.sched.ready) }
        ensures unchanged { OnErr result (map (λ t. t.0) out.new.items ≡ map (λ t. t.0) out.old.items) }
        ensures refusal { IfErr result (λ e. e ≡ Refusal.NoMemory) }
    {
        match self.order.ready_threads(out) {
            Ok(()) => Ok(()),
            Err(_) => Err(Refusal::NoMemory),
        }
    }

    /// How long a thread may run on before its slice or its group's budget ends it, in nanoseconds; none where its
    /// policy has neither, or it isn't attached (Xenomai 4: EVL scheduling policies; this profile).
    pub fn allowance(&self, thread: ThreadId) -> Option<u64>
        ensures allowance { result ≡ allowance self.now.sched thread.0 }
    {
        let seat = search::seat_at(&self.seats, thread.0)?;
        match seat.policy {
            Policy::Rr { .. } => Some(seat.rest),
            Policy::Quota { group, .. } => search::budget_at(&self.groups, group),
            Policy::Fifo(_) => None,
            Policy::Weak(_) => None,
        }
    }

    /// Whether two schedulers are in the same state, whatever ranks they were given: the same seats, the same ready
    /// list and the same budgets.
    pub fn is_like<B: Allocator>(&self, other: &SchedOf<B>) -> bool
        ensures alike { result ≡ true → self.now.sched ≡ other.now.sched }
        ensures other { self.now.sched ≡ other.now.sched → result ≡ true }
    {
        if !are_same_seats(&self.seats, &other.seats) {
            return false;
        }
        if !are_same_groups(&self.groups, &other.groups) {
            return false;
        }
        self.order.is_alike(&other.order)
    }
}

// Whether the same threads sit there in the same way.
fn are_same_seats(one: &[Option<Seat>], other: &[Option<Seat>]) -> bool
    ensures same { result ≡ true → one.now ≡ other.now }
    ensures other { one.now ≡ other.now → result ≡ true }
{
    one == other
}

// Whether the groups are the same, with the same budgets.
fn are_same_groups(one: &[Group], other: &[Group]) -> bool
    ensures same { result ≡ true → one.now ≡ other.now }
    ensures other { one.now ≡ other.now → result ≡ true }
{
    one == other
}
