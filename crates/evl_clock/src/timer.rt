//! A timer and its callback.
ghost use Rattle.std.specs.Prelude.{◌≡◌};
ghost use Rattle.evl_clock.specs.Timers.{HasFired, after_fire, made, started, stopped};

use crate::timer_state::TimerState;
use evl_base::{LineNo, Stage};
use evl_pipeline::{Answer, Fire, Handler};

/// A timer: its callback and tag, how often it fired, how many periods it missed since its start, and what it does.
#[derive(Drop)]
pub struct Timer<C> {
    pub callback: C,
    pub tag: u32,
    pub count: u64,
    pub overruns: u64,
    pub state: TimerState,
}

impl<C> Timer<C> {
    /// A timer that was never started.
    pub fn new(callback: C, tag: u32) -> Timer<C>
        ensures made { result ≡ made callback tag }
    {
        Timer {
            callback,
            tag,
            count: 0,
            overruns: 0,
            state: TimerState::Idle,
        }
    }

    /// Lets it run, with no overruns. How often it fired is kept.
    pub fn start(&mut self, date: u64, interval: u64)
        ensures started { self.new ≡ started self.old date interval }
    {
        self.overruns = 0;
        self.state = TimerState::Running { date, interval };
    }

    /// Makes it idle. Its overruns, and how often it fired, are kept.
    pub fn stop(&mut self)
        ensures stopped { self.new ≡ stopped self.old }
    {
        self.state = TimerState::Idle;
    }
}

impl<C: Handler> Timer<C> {
    /// Calls its callback once, and says with what, how many periods it missed, and the answer.
    pub fn fire(&mut self, now: u64) -> (Fire, u64, Answer)
        ensures fired { HasFired C.declared C.plan C.gives now self.old result.0 result.1 result.2 }
        ensures after { self.new ≡ after_fire now self.old }
    {
        let missed = self.state.missed(now);
        let fire = Fire {
            line: LineNo(0),
            stage: Stage::Oob,
            tag: self.tag,
            count: self.count.saturating_add(1),
            moment: now,
        };
        self.count = fire.count;
        self.overruns = self.overruns.saturating_add(missed);
        self.state = self.state.after_fire(now);
        let answer = self.callback.fire(fire);
        (fire, missed, answer)
    }
}
