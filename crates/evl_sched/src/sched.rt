//! The scheduler.
ghost use Rattle.std.specs.Prelude.{◌≡◌, ◌<◌, ℕ, nat_lt, Option, false, true, is_some, [], None, Some, length, map, replicate, option_map, IfOk, IfErr, MatchOption, OnOk, OnErr};
ghost use Rattle.evl_base.specs.declared.refusal.Refusal.{Refusal};
ghost use Rattle.evl_sched.specs.Calls as calls;
ghost use Rattle.evl_sched.specs.Calls.{attach_refusal, set_policy_refusal, stranger_refusal};
ghost use Rattle.evl_sched.specs.Charges.{slice_charged, thread_charged};
ghost use Rattle.evl_sched.specs.Groups.{drained, has_budget, opened_group, refilled_budgets};
ghost use Rattle.evl_bitmap.specs.NumberSet.{contains};
ghost use Rattle.evl_sched.specs.Policies.{group_of};
ghost use Rattle.evl_sched.specs.Picks.{IsPicked, eligible, is_anyone_eligible, picked};
ghost use Rattle.evl_sched.specs.Ranks.{IsSoundSched, fresh, rank_of, with_given, with_sched};
ghost use Rattle.evl_sched.specs.Threads.{base_of, is_ready, seat_at, stage_of};

mod readers;

use crate::group::Group;
use crate::items::set_all;
use crate::order::Order;
use crate::seat::Seat;
use crate::thread_set::ThreadSet;
use crate::{policies, ready, search};
use evl_base::{Policy, Refusal, Stage, ThreadId};
use std::alloc::{AllocError, Allocator};
use std::marker::Model;

/// The attached threads, the order of the ready ones, the quota groups, and the rank that each thread was given. To a
/// contract it is the record `Ranked` of `specs/Ranks.antt`. Only `new` takes memory.
#[derive(Drop)]
pub struct SchedOf<A: Allocator> {
    seats: Vec<Option<Seat>, A>,
    order: Order<A>,
    groups: Vec<Group, A>,
    given: Vec<Option<u16>, A>,
    // The threads whose policies name a group, and maybe others.
    members: ThreadSet<A>,
    // No thread; a walk over the members hands them on to it.
    spare: ThreadSet<A>,
}

impl<A: Allocator> Model for SchedOf<A> {
    ghost use Rattle.evl_sched.specs.Members.{AreListed};
    ghost use Rattle.evl_sched.specs.Ranks.{Ranked};
    ghost use Rattle.evl_sched.specs.Wanted.{IsStood};

    ghost Value = { Ranked };

    ghost view = { λ s. record { sched = record { seats = s.seats.items; ready = s.order.ready; groups = s.groups.items }; given = s.given.items } };

    ghost invariant = { λ s. IsStood (record { sched = record { seats = s.seats.items; ready = s.order.ready; groups = s.groups.items }; given = s.given.items }) s.order.places × AreListed s.seats.items s.members s.spare };
}

impl<A: Allocator + Clone> SchedOf<A> {
    // refusals: Sched::new, ready_threads, Kernel::ready_threads
    //   order: NoMemory
    //   clauses: Sched::new: refusal; Sched::ready_threads: refusal
    /// A scheduler of so many threads, none of which is attached, and of a quota group for each part of the processor
    /// in percent, numbered from 0, with its whole budget of 10,000,000 ns a percent. It has room for all of these
    /// threads. `NoMemory` where that room was refused (Xenomai 4: EVL scheduling policies; this profile).
    pub fn new(alloc: A, threads: u16, groups: &[u8]) -> Result<SchedOf<A>, Refusal>
        ensures fresh { IfOk result (λ s. s ≡ fresh threads groups.now) }
        ensures refusal { IfErr result (λ e. e ≡ Refusal.NoMemory) }
    {
        SchedOf::with_room(alloc, threads, groups).map_err(|_| Refusal::NoMemory)
    }

    fn with_room(alloc: A, threads: u16, groups: &[u8]) -> Result<SchedOf<A>, AllocError>
        ensures fresh { IfOk result (λ s. s ≡ fresh threads groups.now) }
    {
        let seats = no_seats(alloc.clone()?, threads as usize)?;
        let given = no_ranks(alloc.clone()?, threads as usize)?;
        let groups = opened(alloc.clone()?, groups)?;
        let members = ThreadSet::new(alloc.clone()?, threads)?;
        let spare = ThreadSet::new(alloc.clone()?, threads)?;
        let order = Order::new(alloc, threads)?;
        Ok(SchedOf {
            seats,
            order,
            groups,
            given,
            members,
            spare,
        })
    }
}

impl<A: Allocator> SchedOf<A> {
    /// None of the threads is attached, and each quota group has its whole budget, as `new` made it; no memory is asked
    /// for (Xenomai 4: EVL scheduling policies; this profile).
    pub fn reset(&mut self)
        ensures fresh { self.new ≡ fresh (length self.old.sched.seats) (map (λ group. group.percent) self.old.sched.groups) }
    {
        set_all(&mut self.seats, None);
        set_all(&mut self.given, None);
        let _ = refill_all(&mut self.groups);
        self.order.clear();
    }

    /// The picked thread: the first eligible one of the greatest rank, in the order of the ready list. None is
    /// picked exactly where none is eligible. (Xenomai 4: EVL scheduling policies)
    pub fn pick(&self) -> Option<ThreadId>
        ensures picked { option_map (λ t. t.0) result ≡ picked (rank_of self.now) self.now.sched }
        ensures rule { MatchOption result (eligible self.now.sched ≡ []) (λ t. IsPicked (rank_of self.now) (eligible self.now.sched) t.0) }
        ensures sound { IsSoundSched self.now }
    {
        named(self.order.first())
    }

    /// Whether some thread is eligible: attached, out-of-band and not blocked, and, where its policy names a quota
    /// group, with some of that group's budget left. (Xenomai 4: EVL scheduling policies)
    pub fn eligible(&self) -> bool
        ensures eligible { result ≡ is_anyone_eligible self.now.sched }
        ensures nobody { result ≡ false → eligible self.now.sched ≡ [] }
    {
        self.order.first().is_some()
    }

    /// The base rank of a thread, that of its policy: 512 and its priority under `Fifo` and `Rr`, 256 and its priority
    /// under `Quota`, its priority under `Weak`. Refused, in this order: `Unknown` where there is no such thread, and
    /// `Invalid` where it isn't attached. (Xenomai 4: EVL scheduling policies; this profile)
    pub fn base(&self, thread: ThreadId) -> Result<u16, Refusal>
        ensures ok { IfOk result (λ rank. (stranger_refusal self.now.sched thread.0 ≡ None) × (rank ≡ base_of self.now.sched thread.0)) }
        ensures refused { IfErr result (λ e. stranger_refusal self.now.sched thread.0 ≡ Some e) }
    {
        let seat = self.seat(thread)?;
        Ok(policies::base_rank(seat.policy))
    }

    /// The rank that a thread was given last since it was attached, or else its base rank. Refused as `base` is.
    pub fn rank(&self, thread: ThreadId) -> Result<u16, Refusal>
        ensures ok { IfOk result (λ rank. (stranger_refusal self.now.sched thread.0 ≡ None) × (rank ≡ rank_of self.now thread.0)) }
        ensures refused { IfErr result (λ e. stranger_refusal self.now.sched thread.0 ≡ Some e) }
        ensures sound { IfOk result (λ rank. IsSoundSched self.now) }
    {
        let seat = self.seat(thread)?;
        Ok(match search::given_at(&self.given, thread.0) {
            Some(rank) => rank,
            None => policies::base_rank(seat.policy),
        })
    }

    /// The stage of a thread: in-band where it isn't attached, or where there is no such thread.
    /// (Dovetail: interrupt pipeline)
    pub fn stage(&self, thread: ThreadId) -> Stage
        ensures stage { result ≡ stage_of self.now.sched thread.0 }
    {
        search::stage_of(&self.seats, thread.0)
    }

    /// The policy of a thread, if it is attached. (Xenomai 4: EVL scheduling policies; this profile)
    pub fn policy(&self, thread: ThreadId) -> Option<Policy>
        ensures policy { result ≡ option_map (λ seat. seat.policy) (seat_at self.now.sched thread.0) }
    {
        match search::seat_at(&self.seats, thread.0) {
            Some(seat) => Some(seat.policy),
            None => None,
        }
    }

    /// How many threads there are, attached or not.
    pub fn threads(&self) -> usize
        ensures threads { result ≡ length self.now.sched.seats }
    {
        self.seats.len()
    }

    /// Whether a thread is on the ready list: attached, out-of-band and not blocked. (Xenomai 4: EVL scheduling
    /// policies)
    pub fn is_ready(&self, thread: ThreadId) -> bool
        ensures ready { result ≡ is_ready self.now.sched thread.0 }
    {
        self.order.is_ready(thread.0)
    }

    // The seat of an attached thread.
    fn seat(&self, thread: ThreadId) -> Result<Seat, Refusal>
        ensures ok { IfOk result (λ seat. (stranger_refusal self.now.sched thread.0 ≡ None) × (seat_at self.now.sched thread.0 ≡ Some seat)) }
        ensures refused { IfErr result (λ e. stranger_refusal self.now.sched thread.0 ≡ Some e) }
    {
        if thread.0 as usize >= self.seats.len() {
            return Err(Refusal::Unknown);
        }
        match self.seats[thread.0 as usize] {
            None => Err(Refusal::Invalid),
            Some(seat) => Ok(seat),
        }
    }

    // Whether a thread may be attached.
    fn may_attach(&self, thread: ThreadId, policy: Policy) -> Result<(), Refusal>
        ensures ok { OnOk result (attach_refusal self.now.sched thread.0 policy ≡ None) }
        ensures refused { IfErr result (λ e. attach_refusal self.now.sched thread.0 policy ≡ Some e) }
    {
        if thread.0 as usize >= self.seats.len() {
            return Err(Refusal::Unknown);
        }
        policies::allowed(&self.groups, policy)?;
        match self.seats[thread.0 as usize] {
            None => Ok(()),
            Some(_) => Err(Refusal::Busy),
        }
    }

    // The seat of a thread that may have this policy.
    fn seat_for(&self, thread: ThreadId, policy: Policy) -> Result<Seat, Refusal>
        ensures ok { IfOk result (λ seat. (set_policy_refusal self.now.sched thread.0 policy ≡ None) × (seat_at self.now.sched thread.0 ≡ Some seat)) }
        ensures refused { IfErr result (λ e. set_policy_refusal self.now.sched thread.0 policy ≡ Some e) }
    {
        if thread.0 as usize >= self.seats.len() {
            return Err(Refusal::Unknown);
        }
        policies::allowed(&self.groups, policy)?;
        match self.seats[thread.0 as usize] {
            None => Err(Refusal::Invalid),
            Some(seat) => Ok(seat),
        }
    }

    /// Attaches a thread, with a policy, on a stage. It has a full slice and its base rank; out-of-band it goes to the
    /// end of the ready list. Refused, in this order: `Unknown` where there is no such thread, or no quota group of the
    /// number that the policy names; `Range` where a number of the policy is out of its range (priorities 1 to 99, and
    /// 0 to 99 under `Weak`; slices 1 to 1,000,000,000 ns); `Busy` where the thread is attached. A refused call changes
    /// nothing. (Xenomai 4: EVL threads)
    pub fn attach(&mut self, thread: ThreadId, policy: Policy, stage: Stage) -> Result<(), Refusal>
        ensures ok { OnOk result (attach_refusal self.old.sched thread.0 policy ≡ None) }
        ensures state { OnOk result (self.new ≡ calls.attach self.old thread.0 policy stage) }
        ensures refused { IfErr result (λ e. attach_refusal self.old.sched thread.0 policy ≡ Some e) }
        ensures unchanged { OnErr result (self.new ≡ self.old) }
    {
        self.may_attach(thread, policy)?;
        self.seats[thread.0 as usize] = Some(Seat::new(policy, stage));
        note_member(&mut self.members, thread, policy);
        self.given[thread.0 as usize] = None;
        ready::queue(
            &self.seats,
            &self.groups,
            &self.given,
            &mut self.order,
            thread.0,
        );
        Ok(())
    }

    /// Detaches a thread: it has no policy, slice or place in the ready list any more. Refused, in this order:
    /// `Unknown` where there is no such thread, and `Invalid` where it isn't attached. A refused call changes nothing.
    /// (Xenomai 4: EVL threads)
    pub fn detach(&mut self, thread: ThreadId) -> Result<(), Refusal>
        ensures ok { OnOk result (stranger_refusal self.old.sched thread.0 ≡ None) }
        ensures state { OnOk result (self.new ≡ calls.detach self.old thread.0) }
        ensures refused { IfErr result (λ e. stranger_refusal self.old.sched thread.0 ≡ Some e) }
        ensures unchanged { OnErr result (self.new ≡ self.old) }
    {
        self.seat(thread)?;
        self.seats[thread.0 as usize] = None;
        self.order.leave(thread.0);
        Ok(())
    }

    /// Sets the policy of a thread, with a full slice. It goes to the end of the ready list where it is ready; the rank
    /// that it was given is kept. Refused, in this order: as `attach` is for `Unknown` and `Range`, and `Invalid` where
    /// the thread isn't attached. A refused call changes nothing. (Xenomai 4: EVL scheduling policies; this profile)
    pub fn set_policy(&mut self, thread: ThreadId, policy: Policy) -> Result<(), Refusal>
        ensures ok { OnOk result (set_policy_refusal self.old.sched thread.0 policy ≡ None) }
        ensures state { OnOk result (self.new ≡ calls.set_policy self.old thread.0 policy) }
        ensures refused { IfErr result (λ e. set_policy_refusal self.old.sched thread.0 policy ≡ Some e) }
        ensures unchanged { OnErr result (self.new ≡ self.old) }
    {
        let seat = self.seat_for(thread, policy)?;
        self.seats[thread.0 as usize] = Some(seat.with_policy(policy));
        note_member(&mut self.members, thread, policy);
        ready::move_to_end(
            &self.seats,
            &self.groups,
            &self.given,
            &mut self.order,
            thread.0,
        );
        Ok(())
    }

    /// Switches a thread to a stage: out-of-band it goes to the end of the ready list, in-band out of it. On the stage
    /// where it is already, nothing changes. The rest of its slice is kept. Refused, in this order: `Unknown` where
    /// there is no such thread, and `Invalid` where it isn't attached. A refused call changes nothing.
    /// (Xenomai 4: EVL threads, Dovetail: interrupt pipeline)
    pub fn set_stage(&mut self, thread: ThreadId, stage: Stage) -> Result<(), Refusal>
        ensures ok { OnOk result (stranger_refusal self.old.sched thread.0 ≡ None) }
        ensures state { OnOk result (self.new ≡ calls.set_stage self.old thread.0 stage) }
        ensures refused { IfErr result (λ e. stranger_refusal self.old.sched thread.0 ≡ Some e) }
        ensures unchanged { OnErr result (self.new ≡ self.old) }
    {
        let seat = self.seat(thread)?;
        if seat.stage == stage {
            return Ok(());
        }
        self.seats[thread.0 as usize] = Some(seat.with_stage(stage));
        ready::queue(
            &self.seats,
            &self.groups,
            &self.given,
            &mut self.order,
            thread.0,
        );
        Ok(())
    }

    /// A thread is blocked: it is ready no more. (Xenomai 4: EVL threads)
    pub fn block(&mut self, thread: ThreadId)
        ensures state { self.new ≡ calls.block self.old thread.0 }
    {
        self.order.leave(thread.0);
    }

    /// A thread is blocked no more: it goes to the end of the ready list, where it is attached and out-of-band.
    /// (Xenomai 4: EVL threads)
    pub fn ready(&mut self, thread: ThreadId)
        ensures state { self.new ≡ calls.made_ready self.old thread.0 }
    {
        ready::queue(
            &self.seats,
            &self.groups,
            &self.given,
            &mut self.order,
            thread.0,
        );
    }

    /// Gives a thread a rank, which counts in place of its base rank until it is attached anew. Its place in the ready
    /// list is kept. Nothing changes where there is no such thread. (Xenomai 4: EVL mutexes)
    #[inline(always)]
    pub fn boost(&mut self, thread: ThreadId, rank: u16)
        ensures state { self.new ≡ with_given self.old thread.0 (Some rank) }
    {
        if (thread.0 as usize) < self.given.len() {
            self.given[thread.0 as usize] = Some(rank);
            ready::restand(
                &self.seats,
                &self.groups,
                &self.given,
                &mut self.order,
                thread.0,
            );
        }
    }

    /// Charges the thread that is picked with so many nanoseconds. Under `Rr`, where so much or less is left of its
    /// slice, it goes to the end of the ready list with a full slice, and else its slice falls; under `Quota` its
    /// group's budget falls, not below 0. With nobody picked nothing changes. (Xenomai 4: EVL scheduling policies)
    pub fn charge(&mut self, delta: u64)
        ensures state { self.new ≡ calls.charge self.old delta }
    {
        if let Some(thread) = self.pick() {
            self.charge_thread(thread, delta);
        }
    }

    // Charges a thread.
    fn charge_thread(&mut self, thread: ThreadId, delta: u64)
        ensures state { self.new ≡ with_sched self.old (thread_charged self.old.sched thread.0 delta) }
    {
        let Some(seat) = search::seat_at(&self.seats, thread.0) else {
            return;
        };
        match seat.policy {
            Policy::Rr { slice, .. } => self.charge_slice(thread, seat, slice, delta),
            Policy::Quota { group, .. } => self.drain(group, delta),
            _ => {},
        }
    }

    // Charges the slice of a thread.
    fn charge_slice(&mut self, thread: ThreadId, seat: Seat, slice: u64, delta: u64)
        requires { seat_at self.old.sched thread.0 ≡ Some seat }
        ensures state { self.new ≡ with_sched self.old (slice_charged self.old.sched thread.0 seat slice delta) }
    {
        if delta < seat.rest {
            self.seats[thread.0 as usize] = Some(seat.with_rest(seat.rest - delta));
            return;
        }
        self.seats[thread.0 as usize] = Some(seat.with_rest(slice));
        ready::queue(
            &self.seats,
            &self.groups,
            &self.given,
            &mut self.order,
            thread.0,
        );
    }

    // Charges a quota group, if there is such a group.
    fn drain(&mut self, group: u16, delta: u64)
        ensures state { self.new ≡ with_sched self.old (record self.old.sched { groups = drained self.old.sched.groups group delta }) }
    {
        if !drain_group(&mut self.groups, group, delta) {
            return;
        }
        ready::stand_grouped(
            &self.seats,
            &self.groups,
            &self.given,
            &mut self.order,
            &mut self.members,
            &mut self.spare,
        );
    }

    /// A new second begins: each quota group has its whole budget again. (Xenomai 4: EVL scheduling policies)
    pub fn refill(&mut self)
        ensures state { self.new ≡ calls.refill self.old }
    {
        if !refill_all(&mut self.groups) {
            return;
        }
        ready::stand_grouped(
            &self.seats,
            &self.groups,
            &self.given,
            &mut self.order,
            &mut self.members,
            &mut self.spare,
        );
    }
}

// Charges a quota group, if there is such a group, and says whether it ran out of budget.
fn drain_group<A: Allocator>(groups: &mut Vec<Group, A>, group: u16, delta: u64) -> bool
    ensures drained { groups.new.items ≡ drained groups.old.items group delta }
    ensures same { result ≡ false → (other : Option ℕ) → has_budget groups.new.items other ≡ has_budget groups.old.items other }
{
    if group as usize >= groups.len() {
        return false;
    }
    let before = groups[group as usize];
    let after = before.drained(delta);
    groups[group as usize] = after;
    0 < before.budget && after.budget == 0
}

// Each group has its whole budget again; says whether one of them had none before.
fn refill_all<A: Allocator>(groups: &mut Vec<Group, A>) -> bool
    ensures refilled { groups.new.items ≡ refilled_budgets groups.old.items }
    ensures same { result ≡ false → (other : Option ℕ) → has_budget groups.new.items other ≡ has_budget groups.old.items other }
{
    let mut is_back = false;
    for i in 0..groups.len() {
        let before = groups[i];
        let after = before.refilled();
        groups[i] = after;
        is_back = is_turned(is_back, before, after);
    }
    is_back
}

// Whether a group has budget now and had none, or the other way round, or another group did before.
fn is_turned(other: bool, before: Group, after: Group) -> bool
    ensures same { result ≡ false → (other ≡ false) × (nat_lt 0 after.budget ≡ nat_lt 0 before.budget) }
{
    other || (0 < before.budget) != (0 < after.budget)
}

// A thread is a member where its policy names a group.
fn note_member<A: Allocator>(members: &mut ThreadSet<A>, thread: ThreadId, policy: Policy)
    requires { thread.0 < members.old.limit }
    ensures member { is_some (group_of policy) ≡ true → contains members.new.members thread.0 ≡ true }
    ensures others { (t : ℕ) → contains members.old.members t ≡ true → contains members.new.members t ≡ true }
    ensures limit { members.new.limit ≡ members.old.limit }
{
    if policies::group_of(policy).is_some() {
        members.insert(thread.0);
    }
}

// A thread by its number.
fn named(number: Option<u16>) -> Option<ThreadId>
    ensures number { option_map (λ thread. thread.0) result ≡ number }
{
    number.map(ThreadId)
}

// Nobody is attached.
fn no_seats<A: Allocator>(alloc: A, threads: usize) -> Result<Vec<Option<Seat>, A>, AllocError>
    ensures empty { IfOk result (λ seats. seats.items ≡ replicate threads None) }
{
    let seats = Vec::from_elem(alloc, None, threads)?;
    Ok(seats)
}

// Nobody was given a rank.
fn no_ranks<A: Allocator>(alloc: A, threads: usize) -> Result<Vec<Option<u16>, A>, AllocError>
    ensures empty { IfOk result (λ given. given.items ≡ replicate threads None) }
{
    let given = Vec::from_elem(alloc, None, threads)?;
    Ok(given)
}

// A group of each part, with its whole budget.
fn opened<A: Allocator>(alloc: A, percents: &[u8]) -> Result<Vec<Group, A>, AllocError>
    ensures opened { IfOk result (λ gs. gs.items ≡ map opened_group percents.now) }
{
    let mut groups = Vec::with_capacity(alloc, percents.len())?;
    for percent in percents {
        groups.push(Group::opened(*percent))?;
    }
    Ok(groups)
}
