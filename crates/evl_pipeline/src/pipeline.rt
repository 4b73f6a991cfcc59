//! The interrupt pipeline: the two stages and their lines (Dovetail: interrupt pipeline).
ghost use Rattle.std.specs.Prelude.{◌≡◌, ℕ, ◌<◌, ◌≤◌, ◌&&◌, false, true, None, Some, is_none, is_some, option_map, IfOk, IfErr, IfNone, IfSome, OnOk, OnErr};
ghost use Rattle.evl_base.specs.declared.refusal.Refusal.{Refusal};
ghost use Rattle.evl_pipeline.specs.Counts.{count_at};
ghost use Rattle.evl_pipeline.specs.Limits.{line_count};
ghost use Rattle.evl_pipeline.specs.Lines.{IsBounded, IsSoundPipeline, Plays, PlaysOn, arrived, cleared, free_refusal, freed, has_callback, installed_at, is_pending, next_line, opening, post_refusal, posted, request_refusal, requested, side, stalled, unstalled, with_side};
ghost use Rattle.evl_pipeline.specs.NumberSet.{least};
ghost use Rattle.evl_pipeline.specs.Plans.{allowed_kinds};

mod likeness;

use crate::answer::Answer;
use crate::by_line::ByLine;
use crate::callback::Handler;
use crate::fire::Fire;
use crate::ran::Ran;
use crate::side::SideOf;
use bitflags::Flags;
use evl_base::{ActionKinds, LINES, LineNo, Refusal, Stage};
use std::alloc::{AllocError, Allocator};
use std::marker::Model;

/// The lines and stages of one CPU, with callbacks of type `C`. To a contract it is the record `Pipeline C` of
/// `specs/Lines.antt`. Only `new` takes memory. The type of the callbacks has no bound here: where a struct asks for a
/// bound with ghost members, no function can name it at a type with a boxed closure.
#[derive(Drop)]
pub struct PipelineOf<C, A: Allocator> {
    oob: SideOf<C, A>,
    inband: SideOf<C, A>,
    spurious: ByLine<u64, A>,
}

impl<C, A: Allocator> Model for PipelineOf<C, A> {
    ghost use Rattle.evl_pipeline.specs.Lines.{IsSoundPipeline, Pipeline};

    ghost Value = { Pipeline C };

    ghost view = { λ p. record { oob = p.oob; inband = p.inband; spurious = p.spurious.items } };

    ghost invariant = { λ p. IsSoundPipeline (record { oob = p.oob; inband = p.inband; spurious = p.spurious.items }) };
}

impl<C: Drop, A: Allocator + Clone> PipelineOf<C, A> {
    // refusals: Pipeline::new
    //   order: NoMemory
    //   clauses: Pipeline::new: refusal
    /// A pipeline with 4096 lines, where there is no callback, nothing is pending and nothing was counted. It has room for a
    /// callback on each line of each stage. `NoMemory` where that room was refused.
    pub fn new(alloc: A) -> Result<PipelineOf<C, A>, Refusal>
        ensures opening { IfOk result (λ p. p ≡ opening) }
        ensures refusal { IfErr result (λ e. e ≡ Refusal.NoMemory) }
    {
        PipelineOf::with_room(alloc).map_err(|_| Refusal::NoMemory)
    }

    fn with_room(alloc: A) -> Result<PipelineOf<C, A>, AllocError>
        ensures opening { IfOk result (λ p. p ≡ opening) }
    {
        let spurious = ByLine::new_by(&alloc)?;
        let oob = SideOf::new_by(&alloc)?;
        let inband = SideOf::new(alloc)?;
        Ok(PipelineOf {
            oob,
            inband,
            spurious,
        })
    }
}

impl<C: Drop, A: Allocator> PipelineOf<C, A> {
    /// No callback is on a line, nothing is pending and nothing was counted, as `new` made it; no memory is asked for.
    /// The callbacks that were on lines are dropped: `free` gives them back before.
    pub fn reset(&mut self)
        ensures opening { self.new ≡ opening }
    {
        self.oob.reset();
        self.inband.reset();
        self.spurious.clear();
    }
}

// The kinds of action that a callback on a line of the stage may declare: an out-of-band one posts no out-of-band
// lines, and an in-band one hands nothing on to the in-band stage.
fn allowed(stage: Stage) -> ActionKinds
    ensures kinds { result.0 ≡ allowed_kinds stage }
{
    let others = ActionKinds::POST_SEM
        .union(ActionKinds::POST_FLAGS)
        .union(ActionKinds::STOP_TIMER);
    match stage {
        Stage::Oob => others.union(ActionKinds::PROPAGATE),
        Stage::Inband => others.union(ActionKinds::POST_OOB),
    }
}

impl<C, A: Allocator> PipelineOf<C, A> {
    fn is_installed(&self, stage: Stage, line: u16) -> bool
        ensures installed { result ≡ is_some (installed_at self.now stage line) }
    {
        match stage {
            Stage::Oob => self.oob.is_installed(line),
            Stage::Inband => self.inband.is_installed(line),
        }
    }

    /// A line from which on no line of the stage has a callback, at most 4096.
    pub fn reach(&self, stage: Stage) -> usize
        ensures none { (line : ℕ) → result ≤ line → installed_at self.now stage line ≡ None }
        ensures range { result ≤ line_count }
        ensures sound { IsSoundPipeline self.now }
    {
        match stage {
            Stage::Oob => self.oob.reach(),
            Stage::Inband => self.inband.reach(),
        }
    }

    // Whether the line has something to play on the stage: a callback, or it is the clock's.
    fn has_callback(&self, stage: Stage, line: u16) -> bool
        ensures has { result ≡ has_callback self.now stage line }
    {
        match stage {
            Stage::Oob => line == 0 || self.oob.is_installed(line),
            Stage::Inband => self.inband.is_installed(line),
        }
    }

    /// Why `request` would refuse a callback that declares `kinds`, if it would: the first that applies of `Unknown`
    /// for a line above 4095, `Invalid` for line 0 and for a kind that isn't allowed on the stage, and `Busy` where a
    /// callback is there.
    pub fn request_refusal(&self, line: LineNo, stage: Stage, kinds: ActionKinds) -> Option<Refusal>
        ensures refusal { result ≡ request_refusal self.now line.0 stage kinds.0 }
    {
        if usize::from(line.0) >= LINES {
            return Some(Refusal::Unknown);
        }
        if line.0 == 0 || !allowed(stage).contains(kinds) {
            return Some(Refusal::Invalid);
        }
        if self.is_installed(stage, line.0) {
            return Some(Refusal::Busy);
        }
        None
    }

    // Logs an event of a line that there is, or counts it as spurious.
    fn log(&mut self, stage: Stage, line: u16)
        requires { line < line_count }
        ensures state { self.new ≡ posted self.old stage line }
    {
        if !self.has_callback(stage, line) {
            let count = self.spurious.get(line);
            self.spurious.set(line, count.saturating_add(1));
            return;
        }
        match stage {
            Stage::Oob => self.oob.log(line),
            Stage::Inband => self.inband.log(line),
        }
    }

    // The line that is next, if something may be played.
    fn next_line(&self, eligible: bool, inband: bool) -> Option<(Stage, u16)>
        ensures next { result ≡ next_line self.now eligible inband }
        ensures range { IfSome result (λ next. next.1 < line_count) }
        ensures has { IfSome result (λ next. has_callback self.now next.0 next.1 ≡ true) }
        ensures sound { IsSoundPipeline self.now }
    {
        if self.oob.is_stalled() {
            return None;
        }
        if let Some(line) = self.oob.least() {
            return Some((Stage::Oob, line));
        }
        if self.inband.is_stalled() || eligible || !inband {
            return None;
        }
        let line = self.inband.least()?;
        Some((Stage::Inband, line))
    }

    // refusals: Pipeline::arrive, post
    //   order: Unknown
    //   clauses: Pipeline::arrive: refused
    /// Takes an interrupt on a line. It goes to the out-of-band stage where the line has a callback there, else to the
    /// in-band stage where it has one there; an event that is pending already stays so, once. The event counts as
    /// spurious where the line has no callback; this count stays at 2^64 - 1 once there. `Unknown` for a line above
    /// 4095. (Dovetail: interrupt pipeline)
    pub fn arrive(&mut self, line: LineNo) -> Result<(), Refusal>
        ensures ok { OnOk result ((post_refusal line.0 ≡ None) × (self.new ≡ arrived self.old line.0)) }
        ensures refused { IfErr result (λ e. post_refusal line.0 ≡ Some e) }
        ensures unchanged { OnErr result (self.new ≡ self.old) }
    {
        if usize::from(line.0) >= LINES {
            return Err(Refusal::Unknown);
        }
        if self.has_callback(Stage::Oob, line.0) {
            self.log(Stage::Oob, line.0);
        } else {
            self.log(Stage::Inband, line.0);
        }
        Ok(())
    }

    /// Posts a line on a stage. It counts as spurious where the line has no callback there. `Unknown` for a line above
    /// 4095. (Dovetail: interrupt pipeline)
    pub fn post(&mut self, stage: Stage, line: LineNo) -> Result<(), Refusal>
        ensures ok { OnOk result ((post_refusal line.0 ≡ None) × (self.new ≡ posted self.old stage line.0)) }
        ensures refused { IfErr result (λ e. post_refusal line.0 ≡ Some e) }
        ensures unchanged { OnErr result (self.new ≡ self.old) }
    {
        if usize::from(line.0) >= LINES {
            return Err(Refusal::Unknown);
        }
        self.log(stage, line.0);
        Ok(())
    }

    /// Begins a stall of a stage: its events are logged and not played. An in-band stall holds no out-of-band line
    /// back. (Dovetail: interrupt pipeline)
    pub fn stall(&mut self, stage: Stage)
        ensures state { self.new ≡ stalled self.old stage }
    {
        match stage {
            Stage::Oob => self.oob.set_stalled(true),
            Stage::Inband => self.inband.set_stalled(true),
        }
    }

    /// Ends a stall of a stage (Dovetail: interrupt pipeline).
    pub fn unstall(&mut self, stage: Stage)
        ensures state { self.new ≡ unstalled self.old stage }
    {
        match stage {
            Stage::Oob => self.oob.set_stalled(false),
            Stage::Inband => self.inband.set_stalled(false),
        }
    }

    /// Whether an event of the line is pending on the stage. No line above 4095 is.
    pub fn is_pending(&self, stage: Stage, line: LineNo) -> bool
        ensures pending { result ≡ is_pending self.now stage line.0 }
        ensures outside { line_count ≤ line.0 → result ≡ false }
        ensures sound { IsSoundPipeline self.now }
    {
        match stage {
            Stage::Oob => self.oob.is_pending(line.0),
            Stage::Inband => self.inband.is_pending(line.0),
        }
    }

    /// Whether no event is pending, on either stage: then `next` plays nothing.
    pub fn is_idle(&self) -> bool
        ensures idle { result ≡ (is_none (least self.now.oob.pending) && is_none (least self.now.inband.pending)) }
    {
        self.oob.is_idle() && self.inband.is_idle()
    }

    /// Whether no event is pending on the stage.
    #[inline(always)]
    pub fn is_idle_on(&self, stage: Stage) -> bool
        ensures idle { result ≡ is_none (least (side self.now stage).pending) }
    {
        match stage {
            Stage::Oob => self.oob.is_idle(),
            Stage::Inband => self.inband.is_idle(),
        }
    }

    /// Whether the stage is stalled.
    pub fn is_stalled(&self, stage: Stage) -> bool
        ensures stalled { result ≡ (side self.now stage).stalled }
        ensures sound { IsSoundPipeline self.now }
    {
        match stage {
            Stage::Oob => self.oob.is_stalled(),
            Stage::Inband => self.inband.is_stalled(),
        }
    }

    /// How many events came on the line where no callback stood for them: 0 to 2^64 - 1, and 0 for a line above 4095.
    pub fn spurious(&self, line: LineNo) -> u64
        ensures count { result ≡ count_at self.now.spurious line.0 }
        ensures outside { line_count ≤ line.0 → result ≡ 0 }
    {
        self.spurious.get(line.0)
    }

    /// How many answers of the callbacks on the line of this stage were unhandled: 0 to 2^64 - 1, and 0 for a line
    /// above 4095. A request and a free keep the count.
    pub fn unhandled(&self, line: LineNo, stage: Stage) -> u64
        ensures count { result ≡ count_at (side self.now stage).unhandled line.0 }
        ensures outside { line_count ≤ line.0 → result ≡ 0 }
    {
        match stage {
            Stage::Oob => self.oob.unhandled(line.0),
            Stage::Inband => self.inband.unhandled(line.0),
        }
    }

    // refusals: Pipeline::free
    //   order: Unknown (line), Invalid, Unknown (nothing there)
    //   clauses: Pipeline::free: refused
    /// Takes the callback off a line of a stage and gives it back; a pending event of that line and stage is dropped.
    /// Refused, in this order: `Unknown` for a line above 4095, `Invalid` for line 0, which is the clock's, and
    /// `Unknown` where no callback is there. A refused call changes nothing.
    pub fn free(&mut self, line: LineNo, stage: Stage) -> Result<C, Refusal>
        ensures ok { IfOk result (λ callback. (free_refusal self.old line.0 stage ≡ None) × (option_map (λ at. at.callback) (installed_at self.old stage line.0) ≡ Some callback)) }
        ensures state { OnOk result (self.new ≡ freed self.old line.0 stage) }
        ensures refused { IfErr result (λ e. free_refusal self.old line.0 stage ≡ Some e) }
        ensures unchanged { OnErr result (self.new ≡ self.old) }
    {
        if usize::from(line.0) >= LINES {
            return Err(Refusal::Unknown);
        }
        if line.0 == 0 {
            return Err(Refusal::Invalid);
        }
        let taken = match stage {
            Stage::Oob => self.oob.take(line.0),
            Stage::Inband => self.inband.take(line.0),
        };
        taken.ok_or(Refusal::Unknown)
    }
}

impl<C: Handler, A: Allocator> PipelineOf<C, A> {
    // refusals: Pipeline::request
    //   order: Unknown, Invalid (line 0, kinds), Busy
    //   clauses: Pipeline::request: refused
    /// Lets a callback stand on a line of a stage, with a tag that its fires carry. Its first fire counts 1; how many
    /// answers of the line were unhandled is kept. Refused, in this order: `Unknown` for a line above 4095, `Invalid`
    /// for line 0, which is the clock's, and for kinds of action beyond those that are allowed on the stage (POST_SEM,
    /// POST_FLAGS, STOP_TIMER, out-of-band also PROPAGATE, in-band also POST_OOB), and `Busy` where a callback is
    /// there. A refused call changes nothing and gives the callback back.
    pub fn request(
        &mut self,
        line: LineNo,
        stage: Stage,
        callback: C,
        tag: u32,
    ) -> Result<(), (Refusal, C)>
        ensures ok { OnOk result ((request_refusal self.old line.0 stage (C.declared callback) ≡ None) × (self.new ≡ requested self.old line.0 stage callback tag)) }
        ensures refused { IfErr result (λ e. request_refusal self.old line.0 stage (C.declared callback) ≡ Some e.0) }
        ensures returned { IfErr result (λ e. e.1 ≡ callback) }
        ensures unchanged { OnErr result (self.new ≡ self.old) }
    {
        if let Some(refusal) = self.request_refusal(line, stage, callback.kinds()) {
            return Err((refusal, callback));
        }
        match stage {
            Stage::Oob => self.oob.install(line.0, callback, tag),
            Stage::Inband => self.inband.install(line.0, callback, tag),
        }
        Ok(())
    }

    /// Plays what is next, if something may be played: the lowest pending out-of-band line where that stage isn't
    /// stalled; else the lowest pending in-band line where neither stage is stalled, no out-of-band line is pending, no
    /// thread is `eligible`, and `inband` says that more in-band plays are allowed. A play clears the line's event and
    /// calls its callback once, at the date `now` in nanoseconds; line 0 is the clock's and calls nothing. Counts of
    /// fires and of unhandled answers stay at 2^64 - 1 once there. (Dovetail: interrupt pipeline)
    pub fn next(&mut self, eligible: bool, inband: bool, now: u64) -> Option<Ran>
        ensures plays { Plays C.declared C.plan C.gives self.old eligible inband now result self.new }
        ensures bounded { IsBounded C.declared self.old result }
    {
        let (stage, line) = self.next_line(eligible, inband)?;
        match self.play(stage, line, now) {
            None => Some(Ran::Clock),
            Some((fire, answer)) => Some(Ran::Line { fire, answer }),
        }
    }

    // Plays a line of a stage. Its event is gone where no callback is there.
    fn play(&mut self, stage: Stage, line: u16, now: u64) -> Option<(Fire, Answer)>
        ensures none { IfNone result ((installed_at self.old stage line ≡ None) × (side self.new stage ≡ cleared (side self.old stage) line)) }
        ensures some { IfSome result (λ ran. PlaysOn C.declared C.plan C.gives (side self.old stage) stage line now ran.0 ran.1 (side self.new stage)) }
        ensures rest { self.new ≡ with_side self.old stage (side self.new stage) }
    {
        match stage {
            Stage::Oob => self.oob.play(stage, line, now),
            Stage::Inband => self.inband.play(stage, line, now),
        }
    }
}
