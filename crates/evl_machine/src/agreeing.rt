//! All that two callers of one machine know together.
ghost use Rattle.std.specs.Prelude.{◌≡◌, map};
ghost use Rattle.evl_machine.specs.callers.Actors.{acting};
ghost use Rattle.evl_core.specs.accounts.Seats.{IsCaller, account_of};
ghost use Rattle.evl_machine.specs.callers.Handles.{Belongs};
ghost use Rattle.evl_core.specs.words.Homes.{stax_home};
ghost use Rattle.evl_core.specs.rule.Known.{lock_in, seen};
ghost use Rattle.evl_core.specs.accounts.OneHistory.{AgreeOnLock, AgreeOnMutexes, AgreeOnStaxes, OneHistory};

use crate::actor::Actor;
use crate::caller::CallerOf;
use crate::machine::MachineOf;
use evl_core::{Made, ThreadView};
use evl_words::{MutexCall, MutexHold, MutexReply, Together, View, WordEntry, look_together};
use std::alloc::Allocator;
use std::marker::PhantomData;

/// How two threads are together at the core's table.
pub struct AtCore<C>(PhantomData<C>);

impl<C> Together<ThreadView<Made<C>, View<WordEntry<MutexCall, MutexReply>, MutexHold>>>
    for AtCore<C> {
    ghost use Rattle.evl_core.specs.accounts.OneHistory.{AreTogether};

    ghost together = { AreTogether };
}

impl<C: Drop, A: Allocator> MachineOf<C, A> {
    /// Two callers of one machine know of one kernel: of what they have seen of it one history is the beginning of the
    /// other, and the longer one has just the calls of each that are its own, in its order. So it is of the core's lock,
    /// of each mutex's word and of each stax; at most one of them had the kernel at a time and has a mutex, and they hold
    /// a stax at one stage. Neither changes.
    pub fn agree(&self, one: &mut CallerOf<C, A>, other: &mut CallerOf<C, A>)
        requires machine { Belongs one.old self.now × Belongs other.old self.now }
        ensures same { (one.new ≡ one.old) × (other.new ≡ other.old) }
        ensures kernel { OneHistory one.old.account other.old.account }
        ensures lock { AgreeOnLock one.old.account.thread one.old.lock other.old.account.thread other.old.lock }
        ensures mutexes { AgreeOnMutexes one.old.mutexes other.old.mutexes }
        ensures staxes { AgreeOnStaxes one.old.staxes other.old.staxes }
    {
        self.agree_by(&mut one.actor, &mut other.actor);
    }

    // As `agree`, of who acts for two threads.
    fn agree_by(&self, one: &mut Actor<C, A>, other: &mut Actor<C, A>)
        requires machine { (one.old.table ≡ self.now.id) × (other.old.table ≡ self.now.id) }
        requires rests { IsCaller (seen one.old.me) one.old.thread × IsCaller (seen other.old.me) other.old.thread }
        requires homes { (map stax_home one.old.staxes ≡ self.now.staxes) × (map stax_home other.old.staxes ≡ self.now.staxes) }
        ensures same { (one.new ≡ one.old) × (other.new ≡ other.old) }
        ensures kernel { OneHistory (account_of (seen one.old.me)) (account_of (seen other.old.me)) }
        ensures lock { AgreeOnLock (account_of (seen one.old.me)).thread (lock_in one.old.me.0) (account_of (seen other.old.me)).thread (lock_in other.old.me.0) }
        ensures mutexes { AgreeOnMutexes (acting one.old).mutexes (acting other.old).mutexes }
        ensures staxes { AgreeOnStaxes one.old.staxes other.old.staxes }
    {
        look_together::<_, _, AtCore<C>, _, _, _>(&self.core, &mut one.seat, &mut other.seat);
        self.gates.agree(&mut one.staxes, &mut other.staxes);
    }
}
