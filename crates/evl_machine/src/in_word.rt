//! The content of a mutex's word, looked at by the caller that has the kernel.
ghost use Rattle.std.specs.Prelude.{ℕ, ◌≡◌, ◌+◌, ◌<◌, ⊤, MatchOption, is_some, nat_lt};
ghost use Rattle.evl_machine.specs.mutex_locks.InWord.{Agrees, IsRead, SaysTied, in_word, owner_of};
ghost use Rattle.evl_core.specs.rule.Known.{ceilings_of, first_of, mutex_count};
ghost use Rattle.evl_core.specs.words.Noted.{Stood};

use crate::actor::Actor;
use crate::held::HeldOf;
use crate::machine::MachineOf;
use evl_base::{MutexId, ThreadId};
use evl_core::{CoreLock, CoreSeat, Looking};
use evl_words::{CLAIM_MARK, Claim, OFFERED, claim_on};
use std::alloc::Allocator;

/// The content of a mutex's word: who owns the mutex or has it offered, which of the two it is, and whether somebody
/// claims it.
#[derive(Clone, Copy, PartialEq, Eq)]
pub struct InWord {
    pub owner: Option<ThreadId>,
    pub is_offered: bool,
    pub is_claimed: bool,
}

// The owner of a mutex, by what a claim would be answered.
fn owner_of(told: Claim) -> Option<ThreadId>
    ensures { result ≡ owner_of told }
{
    match told {
        Claim::Queued(owner) => Some(owner),
        Claim::Won => None,
        Claim::Seizing => None,
    }
}

// All that a word says.
fn read(word: u64) -> InWord
    ensures { result ≡ in_word word }
{
    InWord {
        owner: owner_of(claim_on(word)),
        is_offered: word & OFFERED != 0,
        is_claimed: word & CLAIM_MARK != 0,
    }
}

// A mutex's word, by a load after which the thread knows what it knew before.
fn look_at<C: Drop, A: Allocator>(
    core: &CoreLock<C, A>,
    seat: &mut CoreSeat<C, A>,
    mutex: MutexId,
) -> u64
    requires table { seat.old.table_id ≡ core.now.shared.table_id }
    requires words { core.now.shared.table_id.words ≡ 1 + mutex_count core.now.shared.key.value }
    requires there { mutex.0 < mutex_count core.now.shared.key.value }
    ensures same { (seat.new.table_id ≡ seat.old.table_id) × (seat.new.me ≡ seat.old.me) }
    ensures stood { Stood seat.old.me.0 mutex.0 result }
{
    let word = 1 + usize::from(mutex.0);
    core.shared.load::<Looking>(seat, word)
}

impl<C: Drop, A: Allocator> Actor<C, A> {
    // A mutex's word, by a load after which it knows what it knew before.
    fn look_at(&mut self, core: &CoreLock<C, A>, mutex: MutexId) -> u64
        requires table { self.old.table ≡ core.now.shared.table_id }
        requires first { first_of self.old.me.0 ≡ core.now.shared.key.value }
        requires there { mutex.0 < mutex_count core.now.shared.key.value }
        ensures same { self.new ≡ self.old }
        ensures stood { Stood self.old.me.0 mutex.0 result }
    {
        look_at(core, &mut self.seat, mutex)
    }
}

impl<C: Drop, A: Allocator> MachineOf<C, A> {
    // The content of a mutex's word; none where there is no such mutex.
    fn look(&self, actor: &mut Actor<C, A>, mutex: MutexId) -> Option<InWord>
        requires machine { (actor.old.table ≡ self.now.id) × (first_of actor.old.me.0 ≡ self.now.first) }
        ensures same { actor.new ≡ actor.old }
        ensures there { is_some result ≡ nat_lt mutex.0 (mutex_count self.now.first) }
        ensures stood { MatchOption result ⊤ (IsRead actor.old.me.0 mutex.0) }
    {
        if usize::from(mutex.0) >= self.kinds.len() {
            return None;
        }
        Some(read(actor.look_at(&self.core, mutex)))
    }
}

impl<'a, C: Drop, A: Allocator> HeldOf<'a, C, A> {
    /// The content of a mutex's word, by one load; none where there is no such mutex. It is what the kernel records:
    /// whom it has as the owner is there, and where somebody waits, so is the mark; where nobody is recorded,
    /// a mutex with a ceiling is free.
    pub fn in_word(&mut self, mutex: MutexId) -> Option<InWord>
        ensures same { self.new ≡ self.old }
        ensures there { is_some result ≡ nat_lt mutex.0 (mutex_count self.old.caller.machine.first) }
        ensures agrees { MatchOption result ⊤ (Agrees self.old.kernel.history.state mutex.0) }
        ensures tied { MatchOption result ⊤ (SaysTied (ceilings_of self.old.caller.machine.first) self.old.kernel.history.state mutex.0) }
    {
        self.machine.look(&mut self.actor, mutex)
    }
}
