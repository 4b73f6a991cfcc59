//! The acts of a task that has the processor, where they take no time.

ghost use Rattle.std.specs.Prelude.{◌≡◌, IfOk, OnOk};
ghost use Rattle.lab_schedules.specs.Acts.{act_at, await_date, await_job, did, do_act, end_call, end_run, end_wait, get_until, finish_job, leave, rest_until, run, sleep, start, tried_to, wake};

use crate::What;
use crate::calling::{Halt, Play, thread_of};
use crate::locking::Tried;
use crate::places::{Phase, Place};
use evl_base::{Call, Spares, Stage, Way};
use lab_tasks::{Act, Task};
use std::alloc::Global;

// A call once more.
fn copied(alloc: Global, call: &Call) -> Result<Call, Halt>
    ensures { IfOk result (λ copy. copy ≡ call.now) }
{
    let mut spares = Spares::new(alloc, alloc);
    match spares.keep(1) {
        Ok(()) => Ok(call.copied(&mut spares)),
        Err(_) => Err(Halt::Memory),
    }
}

impl Play {
    // The act of a task is done, and the next one comes.
    fn did(&mut self, task: usize, place: Place) -> Result<(), Halt>
        ensures { OnOk result (self.new ≡ did self.old task place) }
    {
        self.tell(task, What::Does(place.act))?;
        self.put(task, place.further());
        Ok(())
    }

    // The job of a task is finished.
    fn finish_job(&mut self, task: usize, place: Place) -> Result<(), Halt>
        ensures { OnOk result (self.new ≡ finish_job self.old task place) }
    {
        self.tell(task, What::Finishes)?;
        self.put(task, place.behind_job());
        Ok(())
    }

    /// The computation of a task is done; its job is finished, where nothing but its end follows.
    #[tactic(auto, unfolding(crate::specs::Acts::end_run))]
    pub fn end_run(&mut self, task: usize, place: Place, acts: usize) -> Result<(), Halt>
        ensures { OnOk result (self.new ≡ end_run self.old task place acts) }
    {
        self.did(task, place)?;
        if place.further().act == acts {
            self.finish_job(task, place.further())
        } else {
            Ok(())
        }
    }

    // Lets a task do nothing until a date: by a wait for a byte of the cross-buffer into which nobody writes, where its
    // stage may wait. No callback can end that wait, as it could end one for a semaphore.
    #[tactic(auto, unfolding(crate::specs::Acts::rest_until))]
    fn rest_until(&mut self, task: usize, date: u64) -> Result<(), Halt>
        ensures { OnOk result (self.new ≡ rest_until self.old task date) }
    {
        let thread = thread_of(task);
        if self.is_oob(thread) {
            let call = Call::BeginRead {
                xbuf: self.idle,
                way: Way::In,
                len: 1,
                until: Some(date),
            };
            let _ = self.call(thread, call)?;
        }
        Ok(())
    }

    // Ends the wait of a task, if it has one.
    #[tactic(auto, unfolding(crate::specs::Acts::end_wait))]
    fn end_wait(&mut self, task: usize) -> Result<(), Halt>
        ensures { OnOk result (self.new ≡ end_wait self.old task) }
    {
        let thread = thread_of(task);
        if self.kernel.kernel().waits(thread) {
            let _ = self.call(thread, Call::Finish { keep: true })?;
        }
        Ok(())
    }

    // The next job of a task is released at this date.
    #[tactic(auto, unfolding(crate::specs::Acts::await_date))]
    fn await_date(&mut self, task: usize, place: Place, date: u64) -> Result<(), Halt>
        ensures { OnOk result (self.new ≡ await_date self.old task place date) }
    {
        if self.now() < date {
            self.rest_until(task, date)?;
        }
        self.put(task, place.at(Phase::Due(date)));
        Ok(())
    }

    // A task without a job has none any more, or gets the date of the next one.
    fn await_job(&mut self, task: usize, place: Place, is: &Task) -> Result<(), Halt>
        ensures { OnOk result (self.new ≡ await_job self.old task place is.now) }
    {
        match is.release(place.job) {
            Some(date) => self.await_date(task, place, date),
            None => self.leave(task, place),
        }
    }

    // A task has no more jobs: it goes in-band, where nothing more is asked of it.
    #[tactic(auto, unfolding(crate::specs::Acts::leave))]
    fn leave(&mut self, task: usize, place: Place) -> Result<(), Halt>
        ensures { OnOk result (self.new ≡ leave self.old task place) }
    {
        let thread = thread_of(task);
        if self.is_oob(thread) {
            let call = Call::SetStage {
                stage: Stage::Inband,
            };
            let _ = self.call(thread, call)?;
        }
        self.put(task, place.at(Phase::Over));
        Ok(())
    }

    // A job begins.
    #[tactic(auto, unfolding(crate::specs::Acts::start))]
    fn start(&mut self, task: usize, place: Place) -> Result<(), Halt>
        ensures { OnOk result (self.new ≡ start self.old task place) }
    {
        self.end_wait(task)?;
        self.tell(task, What::Starts)?;
        self.put(task, place.at_first());
        Ok(())
    }

    // The sleep or wait of a task is over.
    #[tactic(auto, unfolding(crate::specs::Acts::wake))]
    fn wake(&mut self, task: usize, place: Place) -> Result<(), Halt>
        ensures { OnOk result (self.new ≡ wake self.old task place) }
    {
        self.end_wait(task)?;
        self.did(task, place)
    }

    // The wait of a task in a call is over: the call is done, or refused.
    #[tactic(auto, unfolding(crate::specs::Acts::end_call))]
    fn end_call(&mut self, task: usize, place: Place) -> Result<(), Halt>
        ensures { OnOk result (self.new ≡ end_call self.old task place) }
    {
        let thread = thread_of(task);
        if !self.kernel.kernel().waits(thread) {
            return self.did(task, place);
        }
        let tried = self.try_call(thread, Call::Finish { keep: true })?;
        self.end_attempt(task, place, tried)
    }

    // An attempt of a task has ended so.
    fn end_attempt(&mut self, task: usize, place: Place, tried: Tried) -> Result<(), Halt>
        ensures { OnOk result (self.new ≡ tried_to tried self.old task place) }
    {
        match tried {
            Tried::Done => self.did(task, place),
            Tried::Waits => {
                self.tell(task, What::Begins(place.act))?;
                self.put(task, place.at(Phase::Waits));
                Ok(())
            }
            Tried::TimedOut => {
                self.tell(task, What::TimedOut(place.act))?;
                self.put(task, place.further());
                Ok(())
            }
            Tried::Refused(refusal) => {
                self.tell(task, What::Refused(place.act, refusal))?;
                self.put(task, place.further());
                Ok(())
            }
        }
    }

    // A task begins to compute.
    #[tactic(auto, unfolding(crate::specs::Acts::run))]
    fn run(&mut self, task: usize, place: Place, time: u64) -> Result<(), Halt>
        ensures { OnOk result (self.new ≡ run self.old task place time) }
    {
        if time == 0 {
            return self.did(task, place);
        }
        self.tell(task, What::Begins(place.act))?;
        self.put(task, place.at(Phase::Runs(time)));
        Ok(())
    }

    // The deadline of a wait for so long from now on, if it has one.
    fn get_until(&self, within: Option<u64>) -> Option<u64>
        ensures { result ≡ get_until self.now within }
    {
        match within {
            Some(time) => Some(self.now().saturating_add(time)),
            None => None,
        }
    }

    // A task sleeps until a date, if that is later than now.
    #[tactic(auto, unfolding(crate::specs::Acts::sleep))]
    fn sleep(&mut self, task: usize, place: Place, date: u64) -> Result<(), Halt>
        ensures { OnOk result (self.new ≡ sleep self.old task place date) }
    {
        if date <= self.now() {
            return self.did(task, place);
        }
        self.tell(task, What::Begins(place.act))?;
        self.rest_until(task, date)?;
        self.put(task, place.at(Phase::Sleeps(date)));
        Ok(())
    }

    // A task does an act of its job.
    fn do_act(&mut self, task: usize, place: Place, is: &Task, act: &Act) -> Result<(), Halt>
        ensures { OnOk result (self.new ≡ do_act self.old task place is.now act.now) }
    {
        let thread = thread_of(task);
        match act {
            Act::Run(time) => self.run(task, place, *time),
            Act::Sleep(time) => {
                let date = self.now().saturating_add(*time);
                self.sleep(task, place, date)
            }
            Act::Until(time) => {
                let date = match is.release(place.job) {
                    Some(date) => date,
                    None => 0,
                };
                self.sleep(task, place, date.saturating_add(*time))
            }
            Act::Lock(mutex) => {
                let tried = self.lock(thread, *mutex)?;
                self.end_attempt(task, place, tried)
            }
            Act::Unlock(mutex) => {
                let tried = self.unlock(thread, *mutex)?;
                self.end_attempt(task, place, tried)
            }
            Act::Get(sem, within) => {
                let until = self.get_until(*within);
                let tried = self.try_call(thread, Call::BeginGet { sem: *sem, until })?;
                self.end_attempt(task, place, tried)
            }
            Act::Call(call) => {
                let call = copied(self.alloc, call)?;
                let tried = self.try_call(thread, call)?;
                self.end_attempt(task, place, tried)
            }
        }
    }

    /// A task that has the processor goes on, where that takes no time.
    pub fn act(&mut self, task: usize, place: Place, is: &Task) -> Result<(), Halt>
        ensures { OnOk result (self.new ≡ act_at self.old task place is.now) }
    {
        match place.phase {
            Phase::Between => self.await_job(task, place, is),
            Phase::Due(_) => self.start(task, place),
            Phase::At => match is.does.get(place.act) {
                Some(act) => self.do_act(task, place, is, act),
                None => self.finish_job(task, place),
            },
            Phase::Sleeps(_) => self.wake(task, place),
            Phase::Waits => self.end_call(task, place),
            Phase::Runs(_) => Ok(()),
            Phase::Over => Ok(()),
        }
    }
}
