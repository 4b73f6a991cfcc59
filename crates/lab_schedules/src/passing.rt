//! How time passes.
ghost use Rattle.std.specs.Prelude.{◌≡◌, IfOk, OnOk, None, Some};
ghost use Rattle.lab_schedules.specs.Dates.{acts_of, computed, computes_to, earlier, inband_date, inband_dates, later, next_coming, next_outside, next_payment, next_second, noted, passes_to, ticked, with_second};
ghost use Rattle.lab_schedules.specs.Plays.{now};
ghost use Rattle.lab_schedules.specs.Turns.{computing, pausing};

use crate::Stretch;
use crate::calling::{HARDWARE, Halt, Play, thread_of};
use crate::places::{Phase, Place};
use crate::schedules::End;
use evl_base::Call;
use lab_tasks::Rules;

// The nanoseconds of a second.
const SECOND: u64 = 1_000_000_000;

// The earlier of two dates that may come.
fn earlier(one: Option<u64>, other: Option<u64>) -> Option<u64>
    ensures { result ≡ earlier one other }
{
    match one {
        Some(date) => match other {
            Some(then) => Some(date.min(then)),
            None => Some(date),
        },
        None => other,
    }
}

// A date, if it is later than now.
fn later(now: u64, date: Option<u64>) -> Option<u64>
    ensures { result ≡ later now date }
{
    match date {
        Some(date) => { if now < date { Some(date) } else { None } }
        None => None,
    }
}

impl Play {
    // The date at which a task that is in-band goes on by itself.
    fn inband_date(&self, task: usize, place: Place) -> Option<u64>
        ensures { result ≡ inband_date self.now task place }
    {
        if self.is_oob(thread_of(task)) {
            return None;
        }
        later(self.now(), place.wakes())
    }

    // The first of those of all tasks.
    fn inband_dates(&self) -> Option<u64>
        ensures { result ≡ inband_dates self.now 0 self.now.places }
    {
        let mut next: Option<u64> = None;
        for (task, place) in self.places.iter().enumerate() {
            next = earlier(next, self.inband_date(task, *place));
        }
        next
    }

    // The clock's next date, and that of the next interrupt.
    fn next_outside(&self, rules: &Rules) -> Option<u64>
        ensures { result ≡ next_outside rules.now self.now }
    {
        let clock = later(self.now(), self.kernel.kernel().earliest_date());
        let interrupt = match rules.interrupts.get(self.gone) {
            Some(interrupt) => Some(interrupt.date),
            None => None,
        };
        earlier(clock, interrupt)
    }

    // The next date at which something comes by itself.
    #[tactic(auto, unfolding(crate::specs::Dates::next_coming))]
    fn next_coming(&self, rules: &Rules) -> Option<u64>
        ensures { result ≡ next_coming rules.now self.now }
    {
        earlier(
            self.next_outside(rules),
            earlier(self.inband_dates(), rules.until),
        )
    }

    // The date at which the slice or the budget of a task ends, if it is out-of-band.
    #[tactic(auto, unfolding(crate::specs::Dates::next_payment))]
    fn next_payment(&self, task: usize) -> Option<u64>
        ensures { result ≡ next_payment self.now task }
    {
        let thread = thread_of(task);
        if !self.is_oob(thread) {
            return None;
        }
        match self.kernel.kernel().allowance(thread) {
            Some(time) => self.now().checked_add(time),
            None => None,
        }
    }

    // The next whole second, where there are quota groups.
    #[tactic(auto, unfolding(crate::specs::Dates::next_second))]
    fn next_second(&self) -> Option<u64>
        ensures { result ≡ next_second self.now }
    {
        if !self.has_groups {
            return None;
        }
        (self.now() / SECOND + 1).checked_mul(SECOND)
    }

    // A date, or the next whole second, where that comes before.
    fn with_second(&self, next: Option<u64>) -> Option<u64>
        ensures { result ≡ with_second self.now next }
    {
        match next {
            Some(date) => earlier(Some(date), self.next_second()),
            None => None,
        }
    }

    /// Until which date time passes while a task computes, for so much longer; none where nothing comes.
    pub fn next_date(&self, rules: &Rules, task: usize, rest: u64) -> Option<u64>
        ensures { result ≡ passes_to rules.now self.now (Some (task, rest)) }
    {
        let end = self.now().saturating_add(rest);
        let coming = earlier(Some(end), self.next_coming(rules));
        self.with_second(earlier(coming, self.next_payment(task)))
    }

    /// Until which date time passes while nobody computes; none where nothing comes.
    pub fn next_date_alone(&self, rules: &Rules) -> Option<u64>
        ensures { result ≡ passes_to rules.now self.now None }
    {
        self.with_second(self.next_coming(rules))
    }

    // Notes that a task computed up to now.
    fn note(&mut self, task: usize, job: u64, from: u64) -> Result<(), Halt>
        ensures { OnOk result (self.new ≡ noted self.old task job from) }
    {
        let stretch = Stretch {
            task,
            job,
            from,
            to: self.now(),
        };
        self.runs.push(stretch)?;
        Ok(())
    }

    // A task has computed since a date, with so much left then.
    #[tactic(auto, unfolding(crate::specs::Dates::computed))]
    fn computed(
        &mut self,
        task: usize,
        place: Place,
        rest: u64,
        from: u64,
        acts: usize,
    ) -> Result<(), Halt>
        ensures { OnOk result (self.new ≡ computed self.old task place rest from acts) }
    {
        self.note(task, place.job, from)?;
        let left = rest.saturating_sub(self.now().saturating_sub(from));
        if left == 0 {
            return self.end_run(task, place, acts);
        }
        self.put(task, place.at(Phase::Runs(left)));
        Ok(())
    }

    // Moves the date on.
    #[tactic(auto, unfolding(crate::specs::Dates::ticked))]
    fn tick(&mut self, date: u64) -> Result<(), Halt>
        ensures { OnOk result (self.new ≡ ticked self.old date) }
    {
        let delta = date.saturating_sub(self.now());
        let _ = self.call(HARDWARE, Call::Tick { delta })?;
        Ok(())
    }

    // A task computes until a date.
    fn compute_to(&mut self, rules: &Rules, task: usize, rest: u64, date: u64) -> Result<(), Halt>
        ensures { OnOk result (self.new ≡ computes_to rules.now self.old task rest date) }
    {
        let place = self.place(task);
        let from = self.now();
        self.tick(date)?;
        self.computed(task, place, rest, from, acts_of(rules, task))
    }

    /// Time passes while a task computes, to the next date, or the end has come.
    pub fn compute(&mut self, rules: &Rules, task: usize, rest: u64) -> Result<Option<End>, Halt>
        ensures { IfOk result (λ end. computing rules.now self.old task rest (passes_to rules.now self.old (Some (task, rest))) ≡ (end, self.new)) }
    {
        match self.next_date(rules, task, rest) {
            Some(date) => {
                self.compute_to(rules, task, rest, date)?;
                Ok(None)
            }
            None => Ok(Some(End::Quiet)),
        }
    }

    /// Time passes while nobody computes, to the next date, or the end has come.
    pub fn pause(&mut self, rules: &Rules) -> Result<Option<End>, Halt>
        ensures { IfOk result (λ end. pausing self.old (passes_to rules.now self.old None) ≡ (end, self.new)) }
    {
        match self.next_date_alone(rules) {
            Some(date) => {
                self.tick(date)?;
                Ok(None)
            }
            None => Ok(Some(End::Quiet)),
        }
    }
}

// How many acts a job of a task has.
fn acts_of(rules: &Rules, task: usize) -> usize
    ensures { result ≡ acts_of rules.now task }
{
    match rules.tasks.get(task) {
        Some(is) => is.does.len(),
        None => 0,
    }
}
