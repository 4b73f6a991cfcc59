//! The state of a machine after the calls of a picture.
ghost use Rattle.std.specs.Prelude.{◌≡◌};
ghost use Rattle.lab_drawing.specs.Strips.{standing_of};

use crate::lanes::{Lane, is_lane};
use evl_base::Policy;

/// The state of a lane after a call.
#[derive(Clone, Copy, PartialEq, Eq)]
pub enum Condition {
    /// The thread is attached, and in-band; callers of that stage hold the stax.
    Inband,
    /// The thread is out-of-band, and blocked.
    Blocked,
    /// The thread is on the ready list, and isn't picked.
    Ready,
    /// The thread is picked.
    Picked,
    /// The stage is stalled.
    Stalled,
    /// The stage isn't stalled, and events are pending there; the event of the line is pending.
    Pending,
    /// The mutex has a recorded owner; its word names one.
    Owned,
    /// The mutex was handed on to a thread that hasn't finished its wait yet.
    Handed,
    /// The timer runs.
    Runs,
    /// Out-of-band callers hold the stax.
    Oob,
    /// The claim mark is in the mutex's word.
    Claimed,
    /// A caller has the core.
    Taken,
}

/// The state of one lane, with the effective rank of its thread, the owner of its mutex or who gets it, how many events
/// are pending on its stage, how many callers hold its stax, or who has the core. For a thread also its own policy, and
/// the thread whose rank it is lent, if it is.
#[derive(Clone, Copy, PartialEq, Eq)]
pub struct Standing {
    pub lane: Lane,
    pub condition: Condition,
    pub number: Option<u16>,
    pub policy: Option<Policy>,
    pub lender: Option<u16>,
}

/// The state of a machine after a call: the date in nanoseconds, and the lanes that show something. The others show
/// nothing: a thread that isn't attached, a stage that isn't stalled and has no pending event, a line with none, a
/// mutex with no recorded owner that isn't handed on, a timer that doesn't run, a word that is free or hasn't been shown.
#[derive(Drop)]
pub struct Moment {
    pub date: u64,
    pub standings: Vec<Standing>,
}

impl Moment {
    /// The state of a lane, where it shows something.
    pub fn standing(&self, lane: Lane) -> Option<Standing>
        ensures { result ≡ standing_of lane self.now }
    {
        for standing in &self.standings {
            if is_lane(lane, standing.lane) {
                return Some(*standing);
            }
        }
        None
    }
}
