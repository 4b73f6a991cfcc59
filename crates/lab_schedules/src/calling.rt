//! The state of a play, its calls and events.
ghost use Rattle.std.specs.Prelude.{◌≡◌, IfOk, OnOk, Err, true};
ghost use Rattle.lab_schedules.specs.Plays.{answer, called, is_oob_thread, now, place_at, thread_of, told, with_place};

use crate::places::{Phase, Place};
use crate::words::Word;
use crate::{Event, Stretch, What};
use evl_base::{Call, Refusal, Reply, Stage, ThreadId, XbufId};
use evl_plans::PlannedKernel;
use evl_shell::wants_memory;
use std::alloc::{AllocError, AllocFailed, Global};
use std::marker::Model;

/// Why a play can't go on.
#[derive(Clone, Copy, PartialEq, Eq)]
pub enum Halt {
    /// The history has as many entries as its limit.
    Full,
    /// A growth was refused.
    Memory,
}

impl From<AllocError> for Halt {
    fn from(_: AllocError) -> Halt {
        Halt::Memory
    }
}

impl<T: Drop> From<AllocFailed<T>> for Halt {
    fn from(_: AllocFailed<T>) -> Halt {
        Halt::Memory
    }
}

/// How far a task set is played.
#[derive(Drop)]
pub struct Play {
    pub(crate) alloc: Global,
    pub(crate) kernel: PlannedKernel,
    // who has each mutex
    pub(crate) words: Vec<Word>,
    // where each task is
    pub(crate) places: Vec<Place>,
    // how many interrupts have come
    pub(crate) gone: usize,
    pub(crate) events: Vec<Event>,
    pub(crate) runs: Vec<Stretch>,
    // the cross-buffer into which nobody writes
    pub(crate) idle: XbufId,
    // whether there are quota groups
    pub(crate) has_groups: bool,
}

impl Model for Play {
    ghost use Rattle.evl_shell.specs.Moments.{moment};
    ghost use Rattle.lab_schedules.specs.Plays.{Played};

    ghost Value = { Played };

    ghost view = { λ p. record { limit = p.kernel.limit; moment = moment p.kernel; words = p.words.items; places = p.places.items; gone = p.gone; events = p.events.items; runs = p.runs.items; idle = p.idle; has_groups = p.has_groups } };
}

/// The hardware's thread.
pub const HARDWARE: ThreadId = ThreadId(0);

/// The thread of a task.
pub fn thread_of(task: usize) -> ThreadId
    ensures { result ≡ thread_of task }
{
    match u16::try_from(task.saturating_add(1)) {
        Ok(number) => ThreadId(number),
        Err(_) => ThreadId(u16::MAX),
    }
}

// Whether an answer says that the history is full.
fn is_full(answer: &Result<Reply, Refusal>) -> bool
    ensures { result ≡ true → answer.now ≡ Err Refusal.HistoryFull }
{
    match answer {
        Err(Refusal::HistoryFull) => true,
        _ => false,
    }
}

impl Play {
    /// The date.
    pub fn now(&self) -> u64
        ensures { result ≡ now self.now }
    {
        self.kernel.kernel().now()
    }

    /// Whether a thread is out-of-band.
    pub fn is_oob(&self, thread: ThreadId) -> bool
        ensures { result ≡ is_oob_thread self.now thread }
    {
        match self.kernel.kernel().stage(thread) {
            Stage::Oob => true,
            Stage::Inband => false,
        }
    }

    /// Makes a call. The result is its answer. `Full` exactly at the limit of the history.
    pub fn call(&mut self, who: ThreadId, call: Call) -> Result<Result<Reply, Refusal>, Halt>
        ensures answer { IfOk result (λ given. given ≡ answer self.old who call) }
        ensures after { OnOk result (self.new ≡ called self.old who call) }
        ensures full { result ≡ Err Halt.Full → self.old.moment.entries ≡ self.old.limit }
    {
        let answer = self.kernel.apply(who, call);
        if wants_memory(&answer) {
            return Err(Halt::Memory);
        }
        if is_full(&answer) {
            return Err(Halt::Full);
        }
        Ok(answer)
    }

    /// A task's place.
    pub fn place(&self, task: usize) -> Place
        ensures { result ≡ place_at self.now task }
    {
        match self.places.get(task) {
            Some(place) => *place,
            None => Place {
                job: 0,
                act: 0,
                phase: Phase::Over,
            },
        }
    }

    /// Puts a task elsewhere.
    pub fn put(&mut self, task: usize, place: Place)
        ensures { self.new ≡ with_place self.old task place }
    {
        if task < self.places.len() {
            self.places[task] = place;
        }
    }

    /// Adds the event that this happens now in the job of a task.
    pub fn tell(&mut self, task: usize, what: What) -> Result<(), Halt>
        ensures { OnOk result (self.new ≡ told self.old task what) }
    {
        let event = Event {
            date: self.now(),
            task,
            job: self.place(task).job,
            what,
        };
        self.events.push(event)?;
        Ok(())
    }
}
