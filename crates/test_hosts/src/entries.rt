//! Stage exclusion locks, entered and left.
ghost use Rattle.std.specs.Prelude.{◌≡◌};

use crate::boards::STAXES;
use crate::events::{leave_answer, pass_answer};
use crate::session::Session;
use evl_base::{Refusal, Reply, Stage, StaxId};
use evl_pipeline::Handler;
use evl_words::StaxPass;
use std::alloc::Allocator;
use std::sync::Wait;

impl<C: Handler, A: Allocator> Session<'_, C, A> {
    // Goes to a stage.
    fn goes_to<R: Wait>(&mut self, rt: &R, stage: Stage) -> Result<Reply, Refusal>
        ensures { self.new ≡ self.old }
    {
        match stage {
            Stage::Inband => self.machine.switch_inband(rt, &mut self.caller),
            Stage::Oob => self.machine.switch_oob(rt, &mut self.caller),
        }
    }

    // Goes to a stage before it enters, and keeps in mind at which it is then, if the answer says.
    fn learns_stage<R: Wait>(&mut self, rt: &R)
        ensures { self.new ≡ self.old }
    {
        let stage = if self.tools.dice.one_in(3) {
            Stage::Inband
        } else {
            Stage::Oob
        };
        let answer = self.goes_to(rt, stage);
        self.tools.stage = match answer {
            Ok(Reply::Done) => Some(stage),
            Err(Refusal::HoldsStax) => self.tools.stage,
            _ => None,
        };
    }

    // Enters a stax: it waits only where it holds none, so that no two wait for each other's.
    fn enters_in_a_way<R: Wait>(
        &mut self,
        rt: &R,
        waits: bool,
        stax: StaxId,
    ) -> Result<StaxPass, Refusal>
        ensures { self.new ≡ self.old }
    {
        if waits {
            self.watch.falls_asleep();
            let answer = self.machine.lock_stax(rt, &mut self.caller, stax);
            self.watch.wakes_up();
            answer
        } else {
            self.machine.try_lock_stax(&mut self.caller, stax)
        }
    }

    /// Enters a stax, while there is room for its pass.
    pub fn enters<R: Wait>(&mut self, rt: &R)
        ensures { self.new ≡ self.old }
    {
        if self.tools.has_all_staxes() {
            return;
        }
        let number = self.tools.dice.short(STAXES);
        let waits = self.tools.staxes.is_empty() && !self.tools.manner.moves;
        if self.tools.staxes.is_empty() {
            self.learns_stage(rt);
        }
        let begun = self.watch.stamp();
        let answer = self.enters_in_a_way(rt, waits, StaxId(number));
        self.tools
            .note_entry(self.watch, begun, number, pass_answer(&answer));
        if let Ok(pass) = answer {
            self.tools.keep_stax(pass);
        }
    }

    /// Leaves the stax that was entered last, if one is held; or loses its pass.
    pub fn leaves(&mut self)
        ensures { self.new ≡ self.old }
    {
        let Some(pass) = self.tools.staxes.pop() else {
            return;
        };
        if self.tools.loses() {
            return;
        }
        let number = pass.gate().0;
        let begun = self.watch.stamp();
        let answer = self.machine.unlock_stax(&mut self.caller, pass);
        self.tools
            .note_entry_end(self.watch, begun, number, leave_answer(&answer));
    }

    /// Leaves all of them.
    pub fn leaves_all(&mut self)
        ensures { self.new ≡ self.old }
    {
        for _ in 0..self.tools.staxes.len() {
            self.leaves();
        }
    }
}
