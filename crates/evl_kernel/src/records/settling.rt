//! Settling: one play after another until nothing is playable.
ghost use Rattle.std.specs.Prelude.{◌≡◌, ◌+◌, ◌≤◌, ◌<◌, ◌*◌, ◌-◌, Bool, false, None, Some, IfSome, IfNone, length, vec_len, vec_capacity};
ghost use Rattle.evl_clock.specs.Dues.{next_due};
ghost use Rattle.evl_pipeline.specs.Lines as lines;
ghost use Rattle.evl_sched.specs.Picks.{is_anyone_eligible};
ghost use Rattle.evl_kernel.specs.state.Callbacks.{AnswersByPlan};
ghost use Rattle.evl_kernel.specs.state.Records.{KeepsCallbacks, state_of, whereabouts};
ghost use Rattle.evl_kernel.specs.settling.Fires.{Called};
ghost use Rattle.evl_kernel.specs.state.Limits.{inband_limit, play_limit};
ghost use Rattle.evl_kernel.specs.settling.Settling.{after_action, all_acted, after_answer, due_played, is_of_clock, line_goes, next_play, one_inband};
ghost use Rattle.evl_kernel.specs.settling.Settled.{Appends, left_after, left_to_play, settling, stage_of, waiting};

use super::Records;
use crate::served_lists::ServedLists;
use evl_base::{LineNo, Play, Stage};
use evl_clock::Due;
use evl_pipeline::{Action, Answer, Handler, Ran};
use std::alloc::Allocator;

// The most in-band plays of one call.
const MAX_INBAND: u8 = 64;

impl<C: Drop, A: Allocator> Records<C, A> {
    // Carries out one action of a callback on a line: what its call does, and nothing where that would be refused.
    #[inline(never)]
    fn act(&mut self, line: LineNo, action: Action, lists: &mut ServedLists)
        ensures acted { state_of self.new ≡ after_action (state_of self.old) line.0 action }
        ensures stands { KeepsCallbacks self.old self.new }
    {
        match action {
            Action::PostSem(sem) => drop(self.put(sem)),
            Action::Propagate => drop(self.post(Stage::Inband, line)),
            Action::PostOob(other) => drop(self.post(Stage::Oob, other)),
            Action::StopTimer(timer) => drop(self.stop_timer(timer)),
            Action::PostFlags(flags, bits) => {
                drop(self.post_flags(flags, bits, &mut *lists.of_flags));
            }
        }
    }

    // Carries out the actions of an answer, in order.
    #[inline(always)]
    fn carry_out(&mut self, line: LineNo, actions: &[Action], lists: &mut ServedLists)
        ensures acted { state_of self.new ≡ all_acted (state_of self.old) line.0 actions.now }
        ensures stands { KeepsCallbacks self.old self.new }
    {
        for action in actions {
            self.act(line, *action, lists);
        }
    }

    // Carries out what a callback on a line answered; nothing where it didn't handle its fire.
    #[inline(always)]
    fn respond(&mut self, line: LineNo, answer: &Answer, lists: &mut ServedLists)
        ensures answered { state_of self.new ≡ after_answer (state_of self.old) line.0 answer.now }
        ensures stands { KeepsCallbacks self.old self.new }
    {
        self.carry_out(line, answer.carried_out(), lists);
    }
}

impl<C, A: Allocator> Records<C, A> {
    // Whether an eligible thread holds in-band lines back. No thread is looked at where an out-of-band line
    // pends, which goes first.
    #[inline(always)]
    fn is_held_back(&self) -> bool
        ensures held { (inband : Bool) → lines.next_line self.now.lines result inband ≡ lines.next_line self.now.lines (is_anyone_eligible self.now.sched.sched) inband }
    {
        if !self.pipeline.is_idle_on(Stage::Oob) {
            return false;
        }
        self.sched.eligible()
    }
}

impl<C: Handler, A: Allocator> Records<C, A> {
    // Plays the next due item of the clock, if something is due.
    #[inline(never)]
    fn play_item(&mut self, lists: &mut ServedLists) -> Option<Play>
        requires by_plan { AnswersByPlan C.declared C.plan (whereabouts self.old) }
        ensures played { IfSome result (λ play. due_played (state_of self.old) ≡ Some (play, state_of self.new)) }
        ensures nearer { IfSome result (λ play. waiting (state_of self.new) < waiting (state_of self.old)) }
        ensures called { IfSome result (λ play. Called C.gives (whereabouts self.old) (state_of self.old) play) }
        ensures ended { IfNone result ((next_due (state_of self.old).clock ≡ None) × (self.new ≡ self.old)) }
        ensures stands { KeepsCallbacks self.old self.new }
    {
        match self.clock.next_due()? {
            Due::Deadline(thread) => {
                self.expire(thread, &mut *lists.of_xbufs);
                Some(Play::Deadline { thread })
            }
            Due::Timer {
                id,
                fire,
                missed,
                answer,
            } => {
                self.respond(fire.line, &answer, lists);
                Some(Play::Timer {
                    timer: id,
                    count: fire.count,
                    missed,
                    handled: answer.handled,
                })
            }
        }
    }

    // The same, which enters no function where nothing is due.
    #[inline(always)]
    fn play_due(&mut self, lists: &mut ServedLists) -> Option<Play>
        requires by_plan { AnswersByPlan C.declared C.plan (whereabouts self.old) }
        ensures played { IfSome result (λ play. due_played (state_of self.old) ≡ Some (play, state_of self.new)) }
        ensures nearer { IfSome result (λ play. waiting (state_of self.new) < waiting (state_of self.old)) }
        ensures called { IfSome result (λ play. Called C.gives (whereabouts self.old) (state_of self.old) play) }
        ensures ended { IfNone result ((next_due (state_of self.old).clock ≡ None) × (self.new ≡ self.old)) }
        ensures stands { KeepsCallbacks self.old self.new }
    {
        if !self.clock.is_due() {
            return None;
        }
        self.play_item(lists)
    }

    // Plays the line that is next after so many in-band plays of this call, if a line is playable; an eligible thread
    // holds in-band lines back.
    fn play_line(&mut self, inband: u8, lists: &mut ServedLists) -> Option<Play>
        requires by_plan { AnswersByPlan C.declared C.plan (whereabouts self.old) }
        requires few { inband ≤ inband_limit }
        ensures played { IfSome result (λ play. line_goes (settling self.old inband false) ≡ Some (play, settling self.new (inband + one_inband (stage_of play)) (is_of_clock play))) }
        ensures nearer { IfSome result (λ play. left_after (state_of self.new) (inband + one_inband (stage_of play)) < left_after (state_of self.old) inband) }
        ensures few { IfSome result (λ play. inband + one_inband (stage_of play) ≤ inband_limit) }
        ensures called { IfSome result (λ play. Called C.gives (whereabouts self.old) (state_of self.old) play) }
        ensures ended { IfNone result ((line_goes (settling self.old inband false) ≡ None) × (self.new ≡ self.old)) }
        ensures stands { KeepsCallbacks self.old self.new }
    {
        if self.pipeline.is_idle() {
            return None;
        }
        let date = self.date();
        let held = self.is_held_back();
        match self.pipeline.next(held, inband < MAX_INBAND, date) {
            None => None,
            Some(Ran::Clock) => Some(Play::Clock),
            Some(Ran::Line { fire, answer }) => {
                self.respond(fire.line, &answer, lists);
                Some(Play::Line {
                    line: fire.line,
                    stage: fire.stage,
                    count: fire.count,
                    handled: answer.handled,
                })
            }
        }
    }

    // Plays what is next after so many in-band plays of this call, if something is playable: after a play of the
    // clock or of a due item what is due, else a line.
    fn play_next(&mut self, inband: u8, of_clock: bool, lists: &mut ServedLists) -> Option<Play>
        requires by_plan { AnswersByPlan C.declared C.plan (whereabouts self.old) }
        requires few { inband ≤ inband_limit }
        ensures played { IfSome result (λ play. next_play (settling self.old inband of_clock) ≡ Some (play, settling self.new (inband + one_inband (stage_of play)) (is_of_clock play))) }
        ensures nearer { IfSome result (λ play. left_after (state_of self.new) (inband + one_inband (stage_of play)) < left_after (state_of self.old) inband) }
        ensures few { IfSome result (λ play. inband + one_inband (stage_of play) ≤ inband_limit) }
        ensures called { IfSome result (λ play. Called C.gives (whereabouts self.old) (state_of self.old) play) }
        ensures ended { IfNone result ((next_play (settling self.old inband of_clock) ≡ None) × (self.new ≡ self.old)) }
        ensures stands { KeepsCallbacks self.old self.new }
    {
        if of_clock {
            if let Some(play) = self.play_due(lists) {
                return Some(play);
            }
        }
        self.play_line(inband, lists)
    }

    /// Plays until nothing is playable, and appends the plays. Nothing is looked for where nothing pends.
    #[inline(always)]
    pub(super) fn settle<B: Allocator>(&mut self, plays: &mut Vec<Play, B>, lists: &mut ServedLists)
        requires by_plan { AnswersByPlan C.declared C.plan (whereabouts self.old) }
        requires room { vec_len plays.old + play_limit ≤ vec_capacity plays.old }
        ensures settled { Appends C.gives (whereabouts self.old) plays.old.items (state_of self.old) plays.new.items (state_of self.new) }
        ensures capacity { vec_capacity plays.old ≤ vec_capacity plays.new }
        ensures stands { KeepsCallbacks self.old self.new }
    {
        if self.pipeline.is_idle() {
            return;
        }
        self.play_pending(plays, lists);
    }

    // Plays until nothing is playable, and appends the plays. A stalled out-of-band stage holds both stages back.
    #[inline(never)]
    fn play_pending<B: Allocator>(&mut self, plays: &mut Vec<Play, B>, lists: &mut ServedLists)
        requires by_plan { AnswersByPlan C.declared C.plan (whereabouts self.old) }
        requires room { vec_len plays.old + play_limit ≤ vec_capacity plays.old }
        ensures settled { Appends C.gives (whereabouts self.old) plays.old.items (state_of self.old) plays.new.items (state_of self.new) }
        ensures capacity { vec_capacity plays.old ≤ vec_capacity plays.new }
        ensures stands { KeepsCallbacks self.old self.new }
    {
        if self.pipeline.is_stalled(Stage::Oob) {
            return;
        }
        let mut inband = 0;
        let mut of_clock = false;
        while let Some(play) = self.play_next(inband, of_clock, lists) {
            inband += counted_inband(&play);
            of_clock = is_of_clock(&play);
            plays.push(play).unwrap();
        }
    }
}

// Whether a play is the clock's, or that of a due item.
fn is_of_clock(play: &Play) -> bool
    ensures { result ≡ is_of_clock play.now }
{
    !matches!(play, Play::Line { .. })
}

// Whether a play is an in-band one, as a number.
fn counted_inband(play: &Play) -> u8
    ensures { result ≡ one_inband (stage_of play.now) }
{
    match play {
        Play::Line {
            stage: Stage::Inband,
            ..
        } => 1,
        _ => 0,
    }
}
