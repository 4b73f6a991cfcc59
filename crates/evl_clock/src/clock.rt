//! The clock (Xenomai 4: EVL clocks and timers).
ghost use Rattle.std.specs.Prelude.{◌≡◌, ◌+◌, ◌≤◌, ◌<◌, min, nat_le, [], length, None, Some, is_some, option_map, replicate, IfOk, IfErr, MatchOption, IfNone, IfSome, OnOk, OnErr};
ghost use Rattle.std.specs.Vec.{vec_capacity};
ghost use Rattle.evl_base.specs.declared.refusal.Refusal.{Refusal};
ghost use Rattle.evl_clock.specs.Clocks.{IsSoundClock, advance_refusal, advanced, dropped, free_place, new_timer_refusal, opening, start, stop, timer_at, timer_refusal, with_deadline, with_new_timer};
ghost use Rattle.evl_clock.specs.ClockSteps.{FallsDue, Fires, IsBounded, item_of};
ghost use Rattle.evl_clock.specs.Dues.{IsNextDue, NothingIsDue, deadline, due_count, is_due, earliest_date, next_due, timer};
ghost use Rattle.evl_clock.specs.Limits.{thread_count, timer_count};
ghost use Rattle.evl_clock.specs.Timers.{timer_kinds};

mod likeness;

use crate::agenda::{Entry, TIMERS, enter, first, item_at, leave};
use crate::due::{Due, Item};
use crate::items::set_all;
use crate::places::{free_place, take_timer};
use crate::timer::Timer;
use crate::timer_state::TimerState;
use bitflags::Flags;
use evl_base::{ActionKinds, MAX_THREADS, Refusal, ThreadId, TimerId};
use evl_pipeline::{Answer, Fire, Handler};
use std::alloc::{AllocError, Allocator};
use std::marker::Model;

// The kinds of action that a timer's callback may declare: it neither hands its event on in-band nor posts an
// out-of-band line.
fn allowed() -> ActionKinds
    ensures kinds { result.0 ≡ timer_kinds }
{
    ActionKinds::POST_SEM
        .union(ActionKinds::POST_FLAGS)
        .union(ActionKinds::STOP_TIMER)
}

/// The date, 64 places for timers with callbacks of type `C`, the deadlines of threads' waits, and the dates of both in
/// their order, what falls due first at the end. To a contract it is the record `Clock C` of `specs/Clocks.antt`. Only
/// `new` and `for_threads` take memory. The type of the callbacks has no bound here: where a struct asks for a bound
/// with ghost members, no function can name it at a type with a boxed closure.
#[derive(Drop)]
pub struct ClockOf<C, A: Allocator> {
    date: u64,
    timers: Vec<Option<Timer<C>>, A>,
    deadlines: Vec<Option<u64>, A>,
    agenda: Vec<Entry, A>,
}

impl<C, A: Allocator> Model for ClockOf<C, A> {
    ghost use Rattle.evl_clock.specs.Clocks.{Clock};
    ghost use Rattle.std.specs.Vec.{vec_capacity};
    ghost use Rattle.evl_clock.specs.Agenda.{IsKept};

    ghost Value = { Clock C };

    ghost view = { λ c. record { now = c.date; timers = c.timers.items; deadlines = c.deadlines.items } };

    ghost invariant = { λ c. IsKept (record { now = c.date; timers = c.timers.items; deadlines = c.deadlines.items }) c.agenda.items (vec_capacity c.agenda) };
}

fn no_timers<C, A: Allocator>(alloc: A) -> Result<Vec<Option<Timer<C>>, A>, AllocError>
    ensures empty { IfOk result (λ timers. timers.items ≡ replicate timer_count None) }
{
    let mut timers = Vec::with_capacity(alloc, TIMERS as usize)?;
    for _ in 0..TIMERS {
        timers.push_reserved(None);
    }
    Ok(timers)
}

fn no_deadlines<A: Allocator>(alloc: A, threads: usize) -> Result<Vec<Option<u64>, A>, AllocError>
    ensures empty { IfOk result (λ deadlines. deadlines.items ≡ replicate (min threads thread_count) None) }
{
    let deadlines = Vec::from_elem(alloc, None, threads.min(MAX_THREADS))?;
    Ok(deadlines)
}

fn no_agenda<A: Allocator>(alloc: A, threads: usize) -> Result<Vec<Entry, A>, AllocError>
    ensures empty { IfOk result (λ agenda. agenda.items ≡ []) }
    ensures room { IfOk result (λ agenda. vec_capacity agenda ≡ timer_count + min threads thread_count) }
{
    Vec::with_capacity(alloc, TIMERS as usize + threads.min(MAX_THREADS))
}

impl<C: Drop, A: Allocator + Clone> ClockOf<C, A> {
    // refusals: Clock::new, for_threads
    //   order: NoMemory
    //   clauses: Clock::new: refusal
    /// A clock at date 0 with no timers and no deadlines. It has room for 64 timers and for the deadlines of
    /// `MAX_THREADS` threads. `NoMemory` where that room was refused.
    pub fn new(alloc: A) -> Result<ClockOf<C, A>, Refusal>
        ensures opening { IfOk result (λ c. c ≡ opening thread_count) }
        ensures refusal { IfErr result (λ e. e ≡ Refusal.NoMemory) }
    {
        ClockOf::for_threads(alloc, MAX_THREADS)
    }

    /// The same with room for the deadlines of so many threads alone, or of `MAX_THREADS` where there are more.
    /// `NoMemory` where that room was refused.
    pub fn for_threads(alloc: A, threads: usize) -> Result<ClockOf<C, A>, Refusal>
        ensures opening { IfOk result (λ c. c ≡ opening threads) }
        ensures refusal { IfErr result (λ e. e ≡ Refusal.NoMemory) }
    {
        ClockOf::with_room(alloc, threads).map_err(|_| Refusal::NoMemory)
    }

    fn with_room(alloc: A, threads: usize) -> Result<ClockOf<C, A>, AllocError>
        ensures opening { IfOk result (λ c. c ≡ opening threads) }
    {
        let timers = no_timers(alloc.clone()?)?;
        let deadlines = no_deadlines(alloc.clone()?, threads)?;
        let agenda = no_agenda(alloc, threads)?;
        Ok(ClockOf {
            date: 0,
            timers,
            deadlines,
            agenda,
        })
    }
}

impl<C: Drop, A: Allocator> ClockOf<C, A> {
    /// The date is 0 and there are no timers and no deadlines, as it was made; no memory is asked for. The callbacks of
    /// timers are dropped: `drop_timer` gives them back before.
    pub fn reset(&mut self)
        ensures opening { self.new ≡ opening (length self.old.deadlines) }
    {
        self.date = 0;
        clear_timers(&mut self.timers);
        set_all(&mut self.deadlines, None);
        self.agenda.clear();
    }
}

// There are no timers any more.
fn clear_timers<C: Drop, A: Allocator>(timers: &mut Vec<Option<Timer<C>>, A>)
    requires all { length timers.old.items ≡ timer_count }
    ensures empty { timers.new.items ≡ replicate timer_count None }
{
    for place in 0..timers.len() {
        timers[place] = None;
    }
}

impl<C, A: Allocator> ClockOf<C, A> {
    /// The date, in nanoseconds: 0 to 2^64 - 1.
    pub fn now(&self) -> u64
        ensures now { result ≡ self.now.now }
        ensures sound { IsSoundClock self.now }
    {
        self.date
    }

    // The next due item, with the least date that isn't after now, at equal dates a timer before a deadline, and
    // else the lower number.
    fn due_item(&self) -> Option<Item>
        ensures next { result ≡ next_due self.now }
        ensures rule { MatchOption result (NothingIsDue self.now) (IsNextDue self.now) }
    {
        let next = first(&self.agenda)?;
        if self.date < next.date {
            return None;
        }
        Some(item_at(next.place))
    }

    /// Whether something is due.
    #[inline(always)]
    pub fn is_due(&self) -> bool
        ensures due { result ≡ is_due self.now }
    {
        self.due_item().is_some()
    }

    /// The least date of the timers that run and of the deadlines, due or not; none where there are neither.
    pub fn earliest_date(&self) -> Option<u64>
        ensures date { result ≡ earliest_date self.now }
    {
        match first(&self.agenda) {
            Some(next) => Some(next.date),
            None => None,
        }
    }

    // rule: `advance` is `Range` exactly past 2^64 - 1, and says whether something is due.
    //   clauses: Clock::advance
    //   rows: end_of_time
    /// Moves the date by so many nanoseconds, and says whether something is due then. `Range` exactly where the date
    /// would be past 2^64 - 1. A refused call changes nothing. (Xenomai 4: EVL clocks)
    pub fn advance(&mut self, delta: u64) -> Result<bool, Refusal>
        ensures ok { IfOk result (λ due. (advance_refusal self.old delta ≡ None) × (due ≡ is_due self.new)) }
        ensures state { OnOk result (self.new ≡ advanced self.old delta) }
        ensures refused { IfErr result (λ e. advance_refusal self.old delta ≡ Some e) }
        ensures unchanged { OnErr result (self.new ≡ self.old) }
    {
        let then = self.date.checked_add(delta).ok_or(Refusal::Range)?;
        self.date = then;
        Ok(self.due_item().is_some())
    }

    /// The timer's state, if there is such a timer. There is none above 63.
    pub fn state(&self, id: TimerId) -> Option<TimerState>
        ensures state { result ≡ option_map (λ t. t.state) (timer_at self.now id.0) }
        ensures outside { timer_count ≤ id.0 → result ≡ None }
    {
        match self.timers.get(id.0 as usize)? {
            Some(timer) => Some(timer.state),
            None => None,
        }
    }

    /// How many whole periods the timer missed since its start: 0 to 2^64 - 1, where the count stays once there.
    /// `Unknown` where there is no such timer. (Xenomai 4: EVL timers)
    pub fn overruns(&self, id: TimerId) -> Result<u64, Refusal>
        ensures ok { IfOk result (λ n. option_map (λ t. t.overruns) (timer_at self.now id.0) ≡ Some n) }
        ensures refused { IfErr result (λ e. timer_refusal self.now id.0 ≡ Some e) }
    {
        match self.timers.get(id.0 as usize) {
            Some(Some(timer)) => Ok(timer.overruns),
            _ => Err(Refusal::Unknown),
        }
    }

    /// Takes a timer away, whatever it does, and gives its callback back. No more is due than before. `Unknown` where
    /// there is no such timer. A refused call changes nothing.
    pub fn drop_timer(&mut self, id: TimerId) -> Result<C, Refusal>
        ensures ok { IfOk result (λ callback. (timer_refusal self.old id.0 ≡ None) × (option_map (λ t. t.callback) (timer_at self.old id.0) ≡ Some callback)) }
        ensures state { OnOk result (self.new ≡ dropped self.old id.0) }
        ensures fewer { due_count self.new ≤ due_count self.old }
        ensures refused { IfErr result (λ e. timer_refusal self.old id.0 ≡ Some e) }
        ensures unchanged { OnErr result (self.new ≡ self.old) }
    {
        let Some(timer) = take_timer(&mut self.timers, id.0) else {
            return Err(Refusal::Unknown);
        };
        leave(&mut self.agenda, id.0, timer.state.date());
        Ok(timer.callback)
    }

    /// Sets the deadline of a thread's wait, in nanoseconds, in place of an earlier one. Threads for which there is no
    /// room have no deadline, and nothing changes. (Xenomai 4: EVL timed waits)
    pub fn set_deadline(&mut self, thread: ThreadId, date: u64)
        ensures state { self.new ≡ with_deadline self.old thread.0 (Some date) }
    {
        self.put_deadline(thread, Some(date));
    }

    /// Takes the deadline of a thread's wait away, if it has one. No more is due than before.
    /// (Xenomai 4: EVL timed waits)
    #[inline(always)]
    pub fn clear_deadline(&mut self, thread: ThreadId)
        ensures state { self.new ≡ with_deadline self.old thread.0 None }
        ensures fewer { due_count self.new ≤ due_count self.old }
    {
        self.put_deadline(thread, None);
    }

    // Writes what the deadline of a thread's wait is.
    #[inline(always)]
    fn put_deadline(&mut self, thread: ThreadId, until: Option<u64>)
        ensures state { self.new ≡ with_deadline self.old thread.0 until }
    {
        let n = thread.0 as usize;
        if n < self.deadlines.len() {
            let place = TIMERS + thread.0;
            leave(&mut self.agenda, place, self.deadlines[n]);
            enter(&mut self.agenda, place, until);
            self.deadlines[n] = until;
        }
    }

    // The deadline of a thread's wait, which is due next, falls due.
    fn expire(&mut self, thread: ThreadId)
        requires next { next_due self.old ≡ Some (deadline thread.0) }
        ensures state { self.new ≡ with_deadline self.old thread.0 None }
    {
        let _ = self.agenda.pop();
        self.deadlines[thread.0 as usize] = None;
    }
}

impl<C: Drop, A: Allocator> ClockOf<C, A> {
    /// Lets a timer run: it fires at the date, and then with the interval, or once where that is 0, both in
    /// nanoseconds. Says whether the date isn't after now, so that the timer is due at once. Its overruns begin at 0
    /// again; its fire count is kept. `Unknown` where there is no such timer. A refused call changes nothing.
    /// (Xenomai 4: EVL timers)
    pub fn start(&mut self, id: TimerId, date: u64, interval: u64) -> Result<bool, Refusal>
        ensures ok { IfOk result (λ due. (timer_refusal self.old id.0 ≡ None) × (due ≡ nat_le date self.old.now)) }
        ensures state { OnOk result (self.new ≡ start self.old id.0 date interval) }
        ensures refused { IfErr result (λ e. timer_refusal self.old id.0 ≡ Some e) }
        ensures unchanged { OnErr result (self.new ≡ self.old) }
    {
        match take_timer(&mut self.timers, id.0) {
            None => Err(Refusal::Unknown),
            Some(mut timer) => {
                leave(&mut self.agenda, id.0, timer.state.date());
                enter(&mut self.agenda, id.0, Some(date));
                timer.start(date, interval);
                self.timers[id.0 as usize] = Some(timer);
                Ok(date <= self.date)
            },
        }
    }

    /// Makes a timer idle, whatever it did. Its overruns and its fire count are kept, and no more is due than before.
    /// `Unknown` where there is no such timer. A refused call changes nothing. (Xenomai 4: EVL timers)
    pub fn stop(&mut self, id: TimerId) -> Result<(), Refusal>
        ensures ok { OnOk result (timer_refusal self.old id.0 ≡ None) }
        ensures state { OnOk result (self.new ≡ stop self.old id.0) }
        ensures fewer { due_count self.new ≤ due_count self.old }
        ensures refused { IfErr result (λ e. timer_refusal self.old id.0 ≡ Some e) }
        ensures unchanged { OnErr result (self.new ≡ self.old) }
    {
        match take_timer(&mut self.timers, id.0) {
            None => Err(Refusal::Unknown),
            Some(mut timer) => {
                leave(&mut self.agenda, id.0, timer.state.date());
                timer.stop();
                self.timers[id.0 as usize] = Some(timer);
                Ok(())
            },
        }
    }
}

impl<C: Handler, A: Allocator> ClockOf<C, A> {
    /// Makes a timer that is idle and never fired, with the least free number and a tag that its fires carry. Refused,
    /// in this order: `Invalid` for kinds of action beyond those that are allowed for timers (POST_SEM, POST_FLAGS,
    /// STOP_TIMER), and `Limit` where there are 64 timers. A refused call changes nothing and gives the callback back.
    pub fn new_timer(&mut self, callback: C, tag: u32) -> Result<TimerId, (Refusal, C)>
        ensures ok { IfOk result (λ id. (new_timer_refusal self.old (C.declared callback) ≡ None) × (free_place self.old ≡ Some id.0) × (self.new ≡ with_new_timer self.old id.0 callback tag)) }
        ensures refused { IfErr result (λ e. new_timer_refusal self.old (C.declared callback) ≡ Some e.0) }
        ensures returned { IfErr result (λ e. e.1 ≡ callback) }
        ensures unchanged { OnErr result (self.new ≡ self.old) }
    {
        if !allowed().contains(callback.kinds()) {
            return Err((Refusal::Invalid, callback));
        }
        match free_place(&self.timers) {
            None => Err((Refusal::Limit, callback)),
            Some(n) => {
                self.timers[n] = Some(Timer::new(callback, tag));
                Ok(TimerId(n as u16))
            },
        }
    }

    // Lets the timer of this number fire, which is due next.
    fn fire(&mut self, id: TimerId) -> Option<(Fire, u64, Answer)>
        requires next { next_due self.old ≡ Some (timer id.0) }
        ensures none { IfNone result (timer_at self.old id.0 ≡ None) }
        ensures some { IfSome result (λ f. Fires C.declared C.plan C.gives self.old id.0 f.0 f.1 f.2 self.new) }
    {
        let mut timer = take_timer(&mut self.timers, id.0)?;
        let fired = timer.fire(self.date);
        let _ = self.agenda.pop();
        enter(&mut self.agenda, id.0, timer.state.date());
        self.timers[id.0 as usize] = Some(timer);
        Some(fired)
    }

    /// Lets the next due item fall due, if something is due: what has the least date that isn't after now, at equal
    /// dates a timer before a deadline, and else the lower number. A timer's callback is called once, with line 0, the
    /// out-of-band stage, its tag, its count and the date now; it runs on from the first date after now that is a whole
    /// number of periods on, is idle where its interval is 0, and ended where that date would be past 2^64 - 1; counts
    /// and overruns stay at 2^64 - 1. A deadline is gone. (Xenomai 4: EVL clocks and timers)
    pub fn next_due(&mut self) -> Option<Due>
        ensures due { FallsDue C.declared C.plan C.gives self.old result self.new }
        ensures rule { MatchOption result (NothingIsDue self.old) (λ due. IsNextDue self.old (item_of due)) }
        ensures fewer { IfSome result (λ due. due_count self.new + 1 ≡ due_count self.old) }
        ensures bounded { IsBounded C.declared self.old result }
    {
        let item = self.due_item()?;
        match item {
            Item::Timer(id) => {
                let (fire, missed, answer) = self.fire(id)?;
                Some(Due::Timer {
                    id,
                    fire,
                    missed,
                    answer,
                })
            },
            Item::Deadline(thread) => {
                self.expire(thread);
                Some(Due::Deadline(thread))
            },
        }
    }
}
