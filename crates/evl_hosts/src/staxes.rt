//! Staxes of a caller that is kept apart.
ghost use Rattle.std.specs.Prelude.{◌≡◌};
ghost use Rattle.evl_hosts.specs.Hosts.{LeavesBy, TriesToEnter};

use crate::hosts::Host;
use crate::passes::{keep, take_stax};
use evl_base::{Refusal, Reply, StaxId};

impl Host {
    /// Enters a stax at the stage of the caller's thread, and keeps the pass. `NoMemory` with nothing done where there is
    /// no room for it; each other refusal is that of the machine's `try_lock_stax`.
    pub fn try_lock_stax(&mut self, stax: StaxId) -> Result<Reply, Refusal>
        ensures entered { TriesToEnter stax result self.old self.new }
    {
        if self.staxes.reserve(1).is_err() {
            return Err(Refusal::NoMemory);
        }
        let Some(caller) = &mut self.caller else {
            unreachable!()
        };
        match self.shared.machine().try_lock_stax(caller, stax) {
            Ok(pass) => {
                keep(&mut self.staxes, pass);
                Ok(Reply::Done)
            }
            Err(refusal) => Err(refusal),
        }
    }

    /// Leaves a stax, as the machine's `unlock_stax`, and says whether it was the last one and others want in.
    /// `NotOwner` where the caller has no pass of it.
    pub fn unlock_stax(&mut self, stax: StaxId) -> Result<bool, Refusal>
        ensures left { LeavesBy stax result self.old self.new }
    {
        let Some(pass) = take_stax(&mut self.staxes, stax) else {
            return Err(Refusal::NotOwner);
        };
        let Some(caller) = &mut self.caller else {
            unreachable!()
        };
        match self.shared.machine().unlock_stax(caller, pass) {
            Ok(wanted) => Ok(wanted),
            Err((refusal, pass)) => {
                keep(&mut self.staxes, pass);
                Err(refusal)
            }
        }
    }
}
