//! Why a call was refused.
ghost use Rattle.std.specs.Prelude.{◌≡◌, Some, slice_get};
ghost use Rattle.evl_base.specs.Refusal as refusal;
ghost use Rattle.evl_base.specs.Refusal.{number_of, name_of};

use std::fmt;
use thiserror::Error;

/// Why a call was refused. An entry is made of each refusal that isn't said to have none, but for those that a caller's
/// own values decide.
#[derive(Clone, Copy, Debug, PartialEq, Eq, Error)]
pub enum Refusal {
    /// A growth was refused; no entry.
    NoMemory,
    /// The history is at its limit, or has fewer places left than were asked for; no entry.
    HistoryFull,
    /// The core's word stood taken; no entry.
    CoreBusy,
    /// There is no such line, callback, element, thread, group or timer, or nothing there to free.
    Unknown,
    /// Not allowed in this form.
    Invalid,
    /// It can't be done now without waiting.
    Again,
    /// In use.
    Busy,
    /// Held by another.
    NotOwner,
    /// The wait would close a ring, or the owner of a mutex that doesn't nest tries again.
    Deadlock,
    /// A stated bound is reached.
    Limit,
    /// A number is out of its range.
    Range,
    /// Longer than the ring.
    TooBig,
    /// The caller is on the other stage.
    WrongStage,
    /// The stage can't change while a stax is held; no entry.
    HoldsStax,
    /// The gate's word changed between the load and the exchange, from `first` to `second`, each of which would let the
    /// caller in; no entry.
    Raced { first: u64, second: u64 },
}

// The refusal at a place.
fn at(all: &[Refusal], place: usize) -> Option<Refusal>
    ensures { result ≡ slice_get all.now place }
{
    all.get(place).copied()
}

impl Refusal {
    /// The refusal with this number in the table of refusals, `Raced` with zeros; none where no refusal has it.
    pub fn numbered(number: u16) -> Option<Refusal>
        ensures { result ≡ refusal.refusal_numbered number }
    {
        let all = [
            Refusal::NoMemory,
            Refusal::HistoryFull,
            Refusal::CoreBusy,
            Refusal::Unknown,
            Refusal::Invalid,
            Refusal::Again,
            Refusal::Busy,
            Refusal::NotOwner,
            Refusal::Deadlock,
            Refusal::Limit,
            Refusal::Range,
            Refusal::TooBig,
            Refusal::WrongStage,
            Refusal::HoldsStax,
            Refusal::Raced {
                first: 0,
                second: 0,
            },
        ];
        if number == 0 {
            return None;
        }
        at(&all, number as usize - 1)
    }

    /// The number in the table of refusals.
    pub fn number(self) -> u16
        ensures { result ≡ number_of self }
    {
        match self {
            Refusal::NoMemory => 1,
            Refusal::HistoryFull => 2,
            Refusal::CoreBusy => 3,
            Refusal::Unknown => 4,
            Refusal::Invalid => 5,
            Refusal::Again => 6,
            Refusal::Busy => 7,
            Refusal::NotOwner => 8,
            Refusal::Deadlock => 9,
            Refusal::Limit => 10,
            Refusal::Range => 11,
            Refusal::TooBig => 12,
            Refusal::WrongStage => 13,
            Refusal::HoldsStax => 14,
            Refusal::Raced { .. } => 15,
        }
    }

    /// The name in the trace.
    pub fn name(self) -> &'static str
        ensures { result.now ≡ name_of self }
    {
        match self {
            Refusal::NoMemory => "NoMemory",
            Refusal::HistoryFull => "HistoryFull",
            Refusal::CoreBusy => "CoreBusy",
            Refusal::Unknown => "Unknown",
            Refusal::Invalid => "Invalid",
            Refusal::Again => "Again",
            Refusal::Busy => "Busy",
            Refusal::NotOwner => "NotOwner",
            Refusal::Deadlock => "Deadlock",
            Refusal::Limit => "Limit",
            Refusal::Range => "Range",
            Refusal::TooBig => "TooBig",
            Refusal::WrongStage => "WrongStage",
            Refusal::HoldsStax => "HoldsStax",
            Refusal::Raced { .. } => "Raced",
        }
    }
}

impl fmt::Display for Refusal {
    ghost output = { λ refusal. Some (name_of refusal) };

    fn fmt<W: fmt::Write>(&self, f: &mut fmt::Formatter<W>) -> fmt::Result {
        f.write_str(self.name())
    }
}
