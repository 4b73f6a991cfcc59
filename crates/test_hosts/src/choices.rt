//! Calls of the kernel, by chance: of each kind, and mostly of what the board has.
use crate::boards::{FLAGS, GROUPS, MUTEXES, SEMS, XBUFS};
use crate::dice::Dice;
use evl_base::{
    Call, FlagId, LineNo, MutexId, Policy, SemId, Stage, Take, ThreadId, TimerId, Transfer, Way,
    XbufId,
};
use std::alloc::Global;

// How many lines, timers and threads calls speak of.
const LINES: u16 = 6;

const TIMERS: u16 = 4;

const THREADS: u16 = 9;

// The callback that posts this line; it isn't on the line, so that it doesn't post itself on and on.
const POSTING: u8 = 4;

const POSTED: u16 = 4;

// The longest ticks, in nanoseconds.
const TICK: u32 = 2000;

/// How far deadlines lie ahead at most, in nanoseconds.
pub const AHEAD: u32 = 5000;

// The result of one of so many equal chances.
macro_rules! by_chance {
    ($dice:ident of $most:literal: $($chance:pat => $it:expr;)*) => {
        match $dice.below($most) { $($chance => $it),* }
    };
}

fn stage(dice: &mut Dice) -> Stage {
    if dice.one_in(3) {
        Stage::Inband
    } else {
        Stage::Oob
    }
}

fn line(dice: &mut Dice) -> LineNo {
    LineNo(dice.short(LINES))
}

fn timer(dice: &mut Dice) -> TimerId {
    TimerId(dice.short(TIMERS))
}

pub fn sem(dice: &mut Dice) -> SemId {
    SemId(dice.short(SEMS))
}

pub fn flags(dice: &mut Dice) -> FlagId {
    FlagId(dice.short(FLAGS))
}

pub fn xbuf(dice: &mut Dice) -> XbufId {
    XbufId(dice.short(XBUFS))
}

pub fn mutex(dice: &mut Dice) -> MutexId {
    MutexId(dice.short(MUTEXES))
}

pub fn way(dice: &mut Dice) -> Way {
    if dice.one_in(2) { Way::In } else { Way::Out }
}

fn thread(dice: &mut Dice) -> ThreadId {
    ThreadId(dice.short(THREADS))
}

// Some of three bits.
fn bits(dice: &mut Dice) -> u32 {
    dice.below(8)
}

pub fn kind(dice: &mut Dice) -> Take {
    by_chance![dice of 3: 0 => Take::Any; 1 => Take::Of(bits(dice)); _ => Take::Exact(bits(dice));]
}

/// A deadline that lies so little ahead of a date; sometimes just there, so that it comes while others call.
pub fn until(dice: &mut Dice, date: u64) -> u64 {
    let ahead = if dice.one_in(3) { 3 } else { AHEAD };
    date.saturating_add(dice.time(ahead))
}

/// Lets time pass to where deadlines may lie.
pub fn short_tick(dice: &mut Dice) -> Call {
    let delta = dice.time(4);
    Call::Tick { delta }
}

fn policy(dice: &mut Dice) -> Policy {
    let prio = dice.byte(100);
    by_chance![dice of 5:
        0 => Policy::Rr { prio, slice: dice.time(TICK) };
        1 => Policy::Quota { group: dice.short(GROUPS), prio };
        2 => Policy::Weak(prio);
        _ => Policy::Fifo(prio);
    ]
}

/// The thread is attached, mostly out-of-band.
pub fn attach(dice: &mut Dice) -> Call {
    let policy = policy(dice);
    let stage = stage(dice);
    Call::Attach { policy, stage }
}

/// Some bytes, none where there is no memory for them.
pub fn bytes(dice: &mut Dice, alloc: Global) -> Option<Transfer> {
    let all = [0x0a, 0xff, 0x30, 0x31, 0x00, 0x22];
    let mut bytes = Transfer::empty(alloc).ok()?;
    let len = dice.below(7);
    bytes.set(all.get(..len as usize).unwrap_or(&all));
    Some(bytes)
}

fn request(dice: &mut Dice) -> Call {
    let line = line(dice);
    let callback = dice.byte(9);
    let loops = callback == POSTING && line.0 == POSTED;
    Call::Request {
        line,
        stage: stage(dice),
        callback: if loops { 0 } else { callback },
        tag: dice.below(10),
    }
}

fn line_call(dice: &mut Dice) -> Call {
    by_chance![dice of 8:
        0 | 1 => request(dice);
        2 => Call::Free { line: line(dice), stage: stage(dice) };
        3 | 4 => Call::Arrive { line: line(dice) };
        5 => Call::Post { stage: stage(dice), line: line(dice) };
        6 => Call::Stall { stage: stage(dice) };
        _ => Call::Unstall { stage: stage(dice) };
    ]
}

fn start(dice: &mut Dice, date: u64) -> Call {
    Call::StartTimer {
        timer: timer(dice),
        date: until(dice, date),
        interval: if dice.one_in(2) { 0 } else { dice.time(AHEAD) },
    }
}

fn clock_call(dice: &mut Dice, date: u64) -> Call {
    by_chance![dice of 9:
        0 | 1 => Call::Tick { delta: dice.time(TICK) };
        2 => Call::Now;
        3 => Call::NewTimer { callback: dice.byte(9), tag: dice.below(10) };
        4 | 5 => start(dice, date);
        6 => Call::StopTimer { timer: timer(dice) };
        7 => Call::DropTimer { timer: timer(dice) };
        _ => Call::Overruns { timer: timer(dice) };
    ]
}

fn thread_call(dice: &mut Dice) -> Call {
    by_chance![dice of 10:
        0..=3 => attach(dice);
        4 => Call::Detach;
        5 => Call::SetPolicy { policy: policy(dice) };
        6 => Call::SetStage { stage: stage(dice) };
        7 | 8 => Call::Pick;
        _ => Call::RankOf { thread: thread(dice) };
    ]
}

fn semaphore_call(dice: &mut Dice) -> Call {
    by_chance![dice of 4:
        0 => Call::TryGet { sem: sem(dice) };
        1 | 2 => Call::Put { sem: sem(dice) };
        _ => Call::Peek { sem: sem(dice) };
    ]
}

fn flag_call(dice: &mut Dice) -> Call {
    by_chance![dice of 4:
        0 => Call::TryTake { flags: flags(dice), kind: kind(dice) };
        1 | 2 => Call::PostFlags { flags: flags(dice), bits: bits(dice) };
        _ => Call::PeekFlags { flags: flags(dice) };
    ]
}

// A call that writes bytes, begun or not; one that changes nothing where there is no memory for them.
fn write(dice: &mut Dice, alloc: Global, begun: Option<Option<u64>>) -> Call {
    let Some(bytes) = bytes(dice, alloc) else {
        return Call::Now;
    };
    let xbuf = xbuf(dice);
    let way = way(dice);
    match begun {
        Some(until) => Call::BeginWrite {
            xbuf,
            way,
            bytes,
            until,
        },
        None => Call::Write { xbuf, way, bytes },
    }
}

fn cross_buffer_call(dice: &mut Dice, alloc: Global) -> Call {
    by_chance![dice of 4:
        0 | 1 => write(dice, alloc, None);
        2 => Call::Read { xbuf: xbuf(dice), way: way(dice), len: dice.short(8) };
        _ => Call::Room { xbuf: xbuf(dice), way: way(dice) };
    ]
}

// The calls that no caller may ask for by a call of its own.
fn mutex_call(dice: &mut Dice, date: u64) -> Call {
    by_chance![dice of 3:
        0 => Call::Claim { mutex: mutex(dice), owner: thread(dice), until: Some(until(dice, date)) };
        1 => Call::Release { mutex: mutex(dice) };
        _ => Call::Raise { mutex: mutex(dice) };
    ]
}

/// A call that begins no wait, where the date is about this.
pub fn any_call(dice: &mut Dice, alloc: Global, date: u64) -> Call {
    by_chance![dice of 16:
        0..=3 => line_call(dice);
        4..=6 => clock_call(dice, date);
        7 | 8 => thread_call(dice);
        9 | 10 => semaphore_call(dice);
        11 | 12 => flag_call(dice);
        13 | 14 => cross_buffer_call(dice, alloc);
        _ => mutex_call(dice, date);
    ]
}

/// A call that begins a wait for an element.
pub fn any_begin(dice: &mut Dice, alloc: Global, until: Option<u64>) -> Call {
    by_chance![dice of 4:
        0 => Call::BeginGet { sem: sem(dice), until };
        1 => Call::BeginTake { flags: flags(dice), kind: kind(dice), until };
        2 => write(dice, alloc, Some(until));
        _ => Call::BeginRead { xbuf: xbuf(dice), way: way(dice), len: dice.short(8), until };
    ]
}
