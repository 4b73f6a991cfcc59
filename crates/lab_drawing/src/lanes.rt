//! The lanes of a picture.
ghost use Rattle.std.specs.Prelude.{◌≡◌, ◌≤◌, false, not, length, position, slice_get, OnOk};
ghost use Rattle.std.specs.List.{prefix_len};
ghost use Rattle.std.specs.Option.{option_map_or};
ghost use Rattle.lab_drawing.specs.Lanes as lanes;
ghost use Rattle.lab_drawing.specs.Lanes.{is_above, is_lane, with_lane};

use evl_base::Stage;
use std::alloc::AllocError;
use std::fmt;

/// The thing that a lane of a picture is of.
#[derive(Clone, Copy, PartialEq, Eq)]
pub enum Lane {
    Thread(u16),
    Mutex(u16),
    Stax(u16),
    Core,
    Sem(u16),
    Flags(u16),
    Xbuf(u16),
    Timer(u16),
    Clock,
    /// An interrupt line on a stage where it has a callback.
    Line(Stage, u16),
    Stage(Stage),
}

impl fmt::Display for Lane {
    ghost use Rattle.std.specs.Prelude.{Some};
    ghost use Rattle.lab_drawing.specs.Lanes.{lane_text};

    ghost output = { λ lane. Some (lane_text lane) };

    fn fmt<W: fmt::Write>(&self, f: &mut fmt::Formatter<W>) -> fmt::Result {
        match *self {
            Lane::Thread(number) => write!(f, "T{number}"),
            Lane::Mutex(number) => write!(f, "mutex {number}"),
            Lane::Stax(number) => write!(f, "stax {number}"),
            Lane::Core => write!(f, "core"),
            Lane::Sem(number) => write!(f, "sem {number}"),
            Lane::Flags(number) => write!(f, "flags {number}"),
            Lane::Xbuf(number) => write!(f, "xbuf {number}"),
            Lane::Timer(number) => write!(f, "timer {number}"),
            Lane::Clock => write!(f, "clock"),
            Lane::Line(Stage::Oob, number) => write!(f, "oob {number}"),
            Lane::Line(Stage::Inband, number) => write!(f, "inband {number}"),
            Lane::Stage(Stage::Oob) => write!(f, "out-of-band"),
            Lane::Stage(Stage::Inband) => write!(f, "in-band"),
        }
    }
}

// A lane's place among the lanes of a picture, from the top.
fn place(lane: Lane) -> (u8, u16)
    ensures { result ≡ lanes.place lane }
{
    match lane {
        Lane::Thread(number) => (0, number),
        Lane::Mutex(number) => (1, number),
        Lane::Stax(number) => (2, number),
        Lane::Core => (3, 0),
        Lane::Sem(number) => (4, number),
        Lane::Flags(number) => (5, number),
        Lane::Xbuf(number) => (6, number),
        Lane::Timer(number) => (7, number),
        Lane::Clock => (8, 0),
        Lane::Line(Stage::Oob, number) => (9, number),
        Lane::Stage(Stage::Oob) => (10, 0),
        Lane::Line(Stage::Inband, number) => (11, number),
        Lane::Stage(Stage::Inband) => (12, 0),
    }
}

// Which of two kinds of lanes with a number goes first.
fn is_above(one: Lane, other: Lane) -> bool
    ensures { result ≡ is_above one other }
{
    let (kind, number) = place(one);
    let (other_kind, other_number) = place(other);
    kind < other_kind || (kind == other_kind && number < other_number)
}

/// Whether two are one lane.
pub fn is_lane(one: Lane, other: Lane) -> bool
    ensures { result ≡ is_lane one other }
{
    let (kind, number) = place(one);
    let (other_kind, other_number) = place(other);
    kind == other_kind && number == other_number
}

// The index at which a lane is in a sorted list, or is to be put.
fn index_for(lanes: &[Lane], lane: Lane) -> usize
    ensures index { result ≡ prefix_len (λ other. is_above other lane) lanes.now }
    ensures within { result ≤ length lanes.now }
{
    for (i, other) in lanes.iter().enumerate() {
        if !is_above(*other, lane) {
            return i;
        }
    }
    lanes.len()
}

// Whether a lane is at an index.
fn stands_at(lanes: &[Lane], lane: Lane, at: usize) -> bool
    ensures { result ≡ option_map_or (λ other. not (is_above lane other)) (slice_get lanes.now at) false }
{
    match lanes.get(at) {
        Some(other) => !is_above(lane, *other),
        None => false,
    }
}

/// Puts a lane into a sorted list, where it isn't there yet. `AllocError` where the list couldn't grow.
pub fn add_lane(lanes: &mut Vec<Lane>, lane: Lane) -> Result<(), AllocError>
    ensures { OnOk result (lanes.new.items ≡ with_lane lane lanes.old.items) }
{
    let at = index_for(lanes.as_slice(), lane);
    if stands_at(lanes.as_slice(), lane, at) {
        return Ok(());
    }
    lanes.insert(at, lane)?;
    Ok(())
}

/// The index of a lane in a list, where it is there.
pub fn index_of(lanes: &[Lane], lane: Lane) -> Option<usize>
    ensures { result ≡ position (is_lane lane) lanes.now }
{
    lanes.iter().position(|other| is_lane(lane, *other))
}
