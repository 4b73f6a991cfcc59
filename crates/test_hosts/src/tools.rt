//! The tools of a host thread beside its caller.
use crate::choices::{any_call, until};
use crate::dice::Dice;
use crate::events::{Event, Step};
use crate::watch::Watch;
use evl_base::{Call, MutexId, Refusal, Reply, Stage};
use evl_words::{MutexPass, StaxPass};
use std::alloc::Global;

// How many mutexes and staxes are held together, at most.
const MUTEXES_AT_ONCE: usize = 8;

const STAXES_AT_ONCE: usize = 4;

// How often an unfinished wait is looked at, at most: by who has time, and by who hasn't.
const LOOKS: u32 = 100;

const FEW_LOOKS: u32 = 5;

/// How the hands of a run do what they choose.
#[derive(Clone, Copy)]
pub struct Manner {
    /// They wait however long it takes: not where a history may be full, in which no wait for an element comes to its
    /// end.
    pub is_patient: bool,
    /// They go to other host threads with their passes, may lose one, and may stop for good: so none waits for a stax.
    pub moves: bool,
}

/// Its thread, its random numbers, about which date it is, the passes of what it holds, the last one first, what it
/// reports of its calls, at which stage it is if it knows, whether it has begun a wait and not finished it, for which
/// mutex it waited last, its manner, whether it has stopped for good, and whether it has lost a pass.
#[derive(Drop)]
pub struct Tools {
    pub thread: u16,
    pub dice: Dice,
    pub date: u64,
    pub alloc: Global,
    pub staxes: Vec<StaxPass>,
    pub mutexes: Vec<MutexPass>,
    pub events: Vec<Event>,
    pub stage: Option<Stage>,
    pub is_waiting: bool,
    pub awaited: Option<MutexId>,
    pub manner: Manner,
    pub is_gone: bool,
    pub has_lost: bool,
}

impl Tools {
    /// It holds nothing.
    pub fn new(thread: u16, dice: Dice, manner: Manner, alloc: Global) -> Tools {
        Tools {
            thread,
            dice,
            date: 0,
            alloc,
            staxes: Vec::new(alloc),
            mutexes: Vec::new(alloc),
            events: Vec::new(alloc),
            stage: None,
            is_waiting: false,
            awaited: None,
            manner,
            is_gone: false,
            has_lost: false,
        }
    }

    /// How often it looks at an unfinished wait.
    pub fn looks(&self) -> u32 {
        if self.manner.is_patient {
            LOOKS
        } else {
            FEW_LOOKS
        }
    }

    /// Whether it stops for good, with all that it holds.
    pub fn goes(&mut self) -> bool {
        if self.manner.moves && self.dice.one_in(20) {
            self.is_gone = true;
        }
        self.is_gone
    }

    /// Whether it loses the pass that it was to spend.
    pub fn loses(&mut self) -> bool {
        let loses = self.manner.moves && self.dice.one_in(30);
        self.has_lost = self.has_lost || loses;
        loses
    }

    /// Notes a call at a mutex since a stamp. Nothing is reported of those during an unfinished wait, which come to no
    /// word.
    pub fn note_mutex(&mut self, watch: &Watch, begun: u32, step: Step, number: u16, answer: u16) {
        if !self.is_waiting {
            self.note(watch, begun, step, number, answer);
        }
    }

    /// Notes that a stax was entered, or wasn't.
    pub fn note_entry(&mut self, watch: &Watch, begun: u32, number: u16, answer: u16) {
        self.note(watch, begun, Step::entering(self.stage), number, answer);
    }

    /// Notes that a stax was left, or wasn't.
    pub fn note_entry_end(&mut self, watch: &Watch, begun: u32, number: u16, answer: u16) {
        self.note(watch, begun, Step::Leave, number, answer);
    }

    fn note(&mut self, watch: &Watch, begun: u32, step: Step, number: u16, answer: u16) {
        let event = Event {
            thread: self.thread,
            step,
            number,
            answer,
            begun,
            ended: watch.stamp(),
        };
        if self.events.push(event).is_err() {
            watch.count_untold();
        }
    }

    /// Whether a wait that it ends leaves it where it is.
    pub fn keeps_stage(&self) -> bool {
        self.has_lost || !self.staxes.is_empty() || !self.mutexes.is_empty()
    }

    /// A call that begins no wait.
    pub fn any_call(&mut self) -> Call {
        any_call(&mut self.dice, self.alloc, self.date)
    }

    /// A date that comes.
    pub fn until(&mut self) -> u64 {
        until(&mut self.dice, self.date)
    }

    /// Its notes come to the others' notes; false where there was no memory for that.
    pub fn tells(&self, events: &mut Vec<Event>) -> bool {
        events.extend_from_slice(self.events.as_slice()).is_ok()
    }

    /// An answer of the clock.
    pub fn learn(&mut self, answer: &Result<Reply, Refusal>) {
        if let Ok(Reply::Number(date)) = answer {
            self.date = *date;
        }
    }

    /// Whether it holds as many mutexes, or staxes, as it may together.
    pub fn has_all_mutexes(&self) -> bool {
        self.mutexes.len() >= MUTEXES_AT_ONCE
    }

    pub fn has_all_staxes(&self) -> bool {
        self.staxes.len() >= STAXES_AT_ONCE
    }

    /// Keeps a pass for later. The thing that it is for stays held where there is no memory for it.
    pub fn keep_mutex(&mut self, pass: MutexPass) {
        let _ = self.mutexes.push(pass);
    }

    pub fn keep_stax(&mut self, pass: StaxPass) {
        let _ = self.staxes.push(pass);
    }

    /// The pass of one of the mutexes that it holds: mostly the last one that it locked.
    pub fn some_mutex(&mut self) -> Option<MutexPass> {
        if self.mutexes.len() > 1 && self.dice.one_in(4) {
            Some(self.mutexes.remove(0))
        } else {
            self.mutexes.pop()
        }
    }
}
