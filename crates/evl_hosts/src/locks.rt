//! Mutexes of a caller that is kept apart.
ghost use Rattle.std.specs.Prelude.{◌≡◌};
ghost use Rattle.evl_hosts.specs.Hosts.{BeginsMutex, FinishesMutex, TriesMutex, UnlocksMutex, UnlocksMutexFast};

use crate::hosts::Host;
use crate::passes::{keep, take_mutex};
use evl_base::{MutexId, Refusal, Reply};
use evl_machine::{Begun, Ended};

impl Host {
    /// Locks a mutex, or once more, and keeps the pass. `NoMemory` with nothing done also where there is no room for it;
    /// each other refusal is that of the machine's `try_lock_mutex`.
    pub fn try_lock_mutex(&mut self, mutex: MutexId) -> Result<Reply, Refusal>
        ensures locked { TriesMutex mutex result self.old self.new }
    {
        if self.mutexes.reserve(1).is_err() {
            return Err(Refusal::NoMemory);
        }
        let Some(caller) = &mut self.caller else {
            unreachable!()
        };
        match self.shared.machine().try_lock_mutex(caller, mutex) {
            Ok(pass) => {
                keep(&mut self.mutexes, pass);
                Ok(Reply::Done)
            }
            Err(refusal) => Err(refusal),
        }
    }

    /// Begins to lock a mutex, as the machine's `begin_lock_mutex`: `Done` where the caller has it, whose pass is kept,
    /// `Begun` where it waits.
    pub fn begin_lock_mutex(&mut self, mutex: MutexId, until: Option<u64>) -> Result<Reply, Refusal>
        ensures begun { BeginsMutex mutex until result self.old self.new }
    {
        if self.mutexes.reserve(1).is_err() {
            return Err(Refusal::NoMemory);
        }
        let Some(caller) = &mut self.caller else {
            unreachable!()
        };
        match self.shared.machine().begin_lock_mutex(caller, mutex, until) {
            Ok(Begun::Locked(pass)) => {
                keep(&mut self.mutexes, pass);
                Ok(Reply::Done)
            }
            Ok(Begun::Waiting) => Ok(Reply::Begun),
            Err(refusal) => Err(refusal),
        }
    }

    /// Ends the caller's wait for a mutex, as the machine's `finish_lock_mutex`: `Done` where it has the mutex, whose
    /// pass is kept, `TimedOut` where the deadline came first.
    pub fn finish_lock_mutex(&mut self) -> Result<Reply, Refusal>
        ensures finished { FinishesMutex result self.old self.new }
    {
        if self.mutexes.reserve(1).is_err() {
            return Err(Refusal::NoMemory);
        }
        let Some(caller) = &mut self.caller else {
            unreachable!()
        };
        match self.shared.machine().finish_lock_mutex(caller) {
            Ok(Ended::Locked(pass)) => {
                keep(&mut self.mutexes, pass);
                Ok(Reply::Done)
            }
            Ok(Ended::TimedOut) => Ok(Reply::TimedOut),
            Err(refusal) => Err(refusal),
        }
    }

    /// Spends a pass of a mutex without the kernel, as the machine's `unlock_mutex_fast`. `NotOwner` where the caller
    /// has none.
    pub fn unlock_mutex_fast(&mut self, mutex: MutexId) -> Result<Reply, Refusal>
        ensures unlocked { UnlocksMutexFast mutex result self.old self.new }
    {
        let Some(pass) = take_mutex(&mut self.mutexes, mutex) else {
            return Err(Refusal::NotOwner);
        };
        let Some(caller) = &mut self.caller else {
            unreachable!()
        };
        match self.shared.machine().unlock_mutex_fast(caller, pass) {
            Ok(()) => Ok(Reply::Done),
            Err((refusal, pass)) => {
                keep(&mut self.mutexes, pass);
                Err(refusal)
            }
        }
    }

    /// Spends a pass of a mutex, as the machine's `try_unlock_mutex`. `NotOwner` where the caller has none.
    pub fn try_unlock_mutex(&mut self, mutex: MutexId) -> Result<Reply, Refusal>
        ensures unlocked { UnlocksMutex mutex result self.old self.new }
    {
        let Some(pass) = take_mutex(&mut self.mutexes, mutex) else {
            return Err(Refusal::NotOwner);
        };
        let Some(caller) = &mut self.caller else {
            unreachable!()
        };
        match self.shared.machine().try_unlock_mutex(caller, pass) {
            Ok(()) => Ok(Reply::Done),
            Err((refusal, pass)) => {
                keep(&mut self.mutexes, pass);
                Err(refusal)
            }
        }
    }
}
