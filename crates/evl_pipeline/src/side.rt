//! One stage: its stall bit, its log and the callbacks on its lines.
ghost use Rattle.std.specs.Prelude.{◌≡◌, ℕ, ◌<◌, ◌≤◌, false, length, replicate, None, is_none, is_some, if◌then◌else◌, IfOk, IfNone, IfSome};
ghost use Rattle.evl_pipeline.specs.Counts.{count_at, count_raised};
ghost use Rattle.evl_pipeline.specs.Limits.{line_count};
ghost use Rattle.evl_pipeline.specs.Lines.{PlaysOn, Taken, callback_on, cleared, empty_side, filled, logged};
ghost use Rattle.evl_pipeline.specs.NumberSet.{contains, least};
ghost use Rattle.evl_pipeline.specs.Sides.{port_at};

mod likeness;

use crate::answer::Answer;
use crate::by_line::ByLine;
use crate::callback::Handler;
use crate::fire::Fire;
use crate::held::Held;
use crate::log::Log;
use crate::port::Port;
use evl_base::{LINES, LineNo, Stage};
use slab::Slab;
use std::alloc::{AllocError, Allocator};
use std::marker::Model;

/// All that a stage has. To a contract it is its stall bit, its pending lines, and by line the callbacks and the counts
/// of unhandled answers.
#[derive(Drop)]
pub struct SideOf<C, A: Allocator> {
    stalled: bool,
    log: Log<A>,
    ports: ByLine<Option<Port>, A>,
    callbacks: Slab<Held<C>, A>,
    unhandled: ByLine<u64, A>,
}

impl<C, A: Allocator> Model for SideOf<C, A> {
    ghost use Rattle.std.specs.Prelude.{map};
    ghost use Rattle.evl_pipeline.specs.Lines.{Side};
    ghost use Rattle.evl_pipeline.specs.Sides.{IsSoundBank, installed_by};

    ghost Value = { Side C };

    ghost view = { λ s. record {
      stalled = s.stalled;
      pending = s.log;
      installed = map (installed_by s.callbacks) s.ports.items;
      unhandled = s.unhandled.items;
    } };

    ghost invariant = { λ s. IsSoundBank s.ports.items s.callbacks s.unhandled.items };
}

impl<C, A: Allocator + Clone> SideOf<C, A> {
    /// A stage without callbacks, where nothing is pending.
    pub fn new(alloc: A) -> Result<SideOf<C, A>, AllocError>
        ensures empty { IfOk result (λ s. s ≡ empty_side) }
    {
        let log = Log::new_by(&alloc)?;
        let ports = ByLine::new_by(&alloc)?;
        let unhandled = ByLine::new_by(&alloc)?;
        let callbacks = Slab::with_capacity(alloc, LINES)?;
        Ok(SideOf {
            stalled: false,
            log,
            ports,
            callbacks,
            unhandled,
        })
    }

    /// The same, in memory of an allocator that is kept.
    pub fn new_by(alloc: &A) -> Result<SideOf<C, A>, AllocError>
        ensures empty { IfOk result (λ s. s ≡ empty_side) }
    {
        SideOf::new(alloc.clone()?)
    }
}

impl<C: Drop, A: Allocator> SideOf<C, A> {
    /// No callback is on a line and nothing is pending, as `new` made it. The callbacks that were on lines are dropped.
    pub fn reset(&mut self)
        ensures empty { self.new ≡ empty_side }
    {
        self.stalled = false;
        self.log.clear();
        self.ports.clear();
        self.callbacks.clear();
        self.unhandled.clear();
    }
}

impl<C, A: Allocator> SideOf<C, A> {
    /// A line from which on no line has a callback.
    pub fn reach(&self) -> usize
        ensures none { (line : ℕ) → result ≤ line → callback_on self.now line ≡ None }
        ensures range { result ≤ line_count }
    {
        self.ports.reach()
    }

    /// Whether the stage is stalled.
    pub fn is_stalled(&self) -> bool
        ensures stalled { result ≡ self.now.stalled }
    {
        self.stalled
    }

    /// Begins or ends a stall of the stage.
    pub fn set_stalled(&mut self, stalled: bool)
        ensures state { self.new ≡ record self.old { stalled = stalled } }
    {
        self.stalled = stalled;
    }

    /// The lowest pending line.
    pub fn least(&self) -> Option<u16>
        ensures least { result ≡ least self.now.pending }
        ensures range { IfSome result (λ line. line < line_count) }
    {
        self.log.least()
    }

    /// Whether no line is pending.
    pub fn is_idle(&self) -> bool
        ensures idle { result ≡ is_none (least self.now.pending) }
    {
        self.log.is_empty()
    }

    /// Whether an event of the line is pending.
    pub fn is_pending(&self, line: u16) -> bool
        ensures pending { result ≡ contains self.now.pending line }
        ensures outside { line_count ≤ line → result ≡ false }
    {
        self.log.contains(line)
    }

    /// How many answers of the line's callbacks were unhandled.
    pub fn unhandled(&self, line: u16) -> u64
        ensures count { result ≡ count_at self.now.unhandled line }
        ensures outside { line_count ≤ line → result ≡ 0 }
    {
        self.unhandled.get(line)
    }

    /// Whether a callback is on the line.
    pub fn is_installed(&self, line: u16) -> bool
        ensures installed { result ≡ is_some (callback_on self.now line) }
    {
        port_of(&self.ports, line).is_some()
    }

    /// Logs an event of the line.
    pub fn log(&mut self, line: u16)
        requires { line < line_count }
        ensures state { self.new ≡ logged self.old line }
    {
        self.log.insert(line);
    }

    /// Installs a callback on a line where none is.
    pub fn install(&mut self, line: u16, callback: C, tag: u32)
        requires range { line < line_count }
        requires free { callback_on self.old line ≡ None }
        ensures state { self.new ≡ filled self.old line callback tag }
    {
        let key = self.callbacks.insert_reserved(Held { callback, line });
        self.ports.set(line, Some(Port { key, tag, count: 0 }));
    }

    /// Takes the callback from a line, and drops its pending event. Without a callback there nothing changes.
    pub fn take(&mut self, line: u16) -> Option<C>
        ensures none { IfNone result ((callback_on self.old line ≡ None) × (self.new ≡ self.old)) }
        ensures some { IfSome result (λ callback. Taken self.old line callback self.new) }
    {
        let port = port_of(&self.ports, line)?;
        self.log.remove(line);
        self.ports.set(line, None);
        Some(self.callbacks.remove(port.key).callback)
    }
}

fn port_of<A: Allocator>(ports: &ByLine<Option<Port>, A>, line: u16) -> Option<Port>
    ensures port { result ≡ port_at ports.now.items line }
{
    ports.get(line)
}

// Counts one more unhandled answer of a line, if the answer is one.
fn count_unless<A: Allocator>(counts: &mut ByLine<u64, A>, line: u16, handled: bool)
    requires { line < line_count }
    ensures counted { counts.new.items ≡ (if handled then counts.old.items else count_raised counts.old.items line) }
{
    if !handled {
        let count = counts.get(line);
        counts.set(line, count.saturating_add(1));
    }
}

impl<C: Handler, A: Allocator> SideOf<C, A> {
    /// Plays a line: its event is gone, and its callback, if one is there, is called.
    #[inline(always)]
    pub fn play(&mut self, stage: Stage, line: u16, now: u64) -> Option<(Fire, Answer)>
        ensures none { IfNone result ((callback_on self.old line ≡ None) × (self.new ≡ cleared self.old line)) }
        ensures some { IfSome result (λ ran. PlaysOn C.declared C.plan C.gives self.old stage line now ran.0 ran.1 self.new) }
    {
        self.log.remove(line);
        let port = port_of(&self.ports, line)?;
        let fire = Fire {
            line: LineNo(line),
            stage,
            tag: port.tag,
            count: port.count.saturating_add(1),
            moment: now,
        };
        let played = Port {
            key: port.key,
            tag: port.tag,
            count: fire.count,
        };
        self.ports.set(line, Some(played));
        let answer = self.callbacks[port.key].callback.fire(fire);
        count_unless(&mut self.unhandled, line, answer.handled);
        Some((fire, answer))
    }
}
