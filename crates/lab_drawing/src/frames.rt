//! The sheet that marks are drawn on: bands of lanes, one below the other.
ghost use Rattle.std.specs.Prelude.{◌≡◌, is_some, position, IfOk, OnOk};
ghost use Rattle.lab_drawing.specs.Lanes.{AreLanesOf, is_lane, put_touched};
ghost use Rattle.lab_drawing.specs.Pictures.{shows_waits};

use crate::dates::dates_room;
use crate::downwards::{put_line_down, put_name_above};
use crate::drawings::{lane_ink, put_lane_name, put_line};
use crate::heads::{FIRST_SIGN, opening, put_callers, put_conditions, put_shapes, put_words};
use crate::lanes::{Lane, add_lane, index_of};
use crate::marks::Mark;
use crate::moments::Moment;
use crate::ranks::word_place;
use crate::ties::{TieEnd, tie_down, tie_right};
use std::alloc::{AllocError, Global};

/// How many marks are side by side in a band.
pub const COLUMNS: usize = 60;

// The room for the names of lanes, left of the first column.
pub const LEFT: usize = 104;

// How wide a column is, and how high a lane.
const COLUMN: usize = 16;

const LANE: usize = 24;

// The room for the legend, and the space between two bands.
const TOP: usize = 44;

const BETWEEN: usize = 20;

// The room for the dates above a band, and for the second line of a legend, where the lanes' states are shown.
const DATES: usize = 32;

const SECOND: usize = 20;

// How much higher a lane is with its strip.
const STRIP: usize = 6;

// How many characters of a line are shown at most, also where words are shown after answers, and how wide one is.
const MOST_SHOWN: usize = 72;

const MOST_TOLD: usize = 100;

const CHARACTER: usize = 6;

// In a picture that goes down: how wide a lane is and where in it its line is, how high a row, the names of lanes and
// the space below them, and how wide a character of a line.
const LANE_DOWN: usize = 56;

const IN_LANE: usize = 16;

const ROW: usize = 20;

const NAMES: usize = 24;

const BELOW: usize = 12;

const LETTER: usize = 8;

/// Which way the lines of a trace go in a picture.
#[derive(Clone, Copy, PartialEq, Eq)]
pub enum Goes {
    /// A column for each line, with its text below.
    Across,
    /// A row for each line, with its text at the right.
    Down,
}

/// The part of lanes' states that a picture shows.
#[derive(Clone, Copy, PartialEq, Eq)]
pub enum Shows {
    /// The waits that the answers report.
    Waits,
    /// Dates, and strips of all that a machine's readers answer.
    Machine,
    /// Dates, the waits, and strips of the words that callers went to.
    Words,
    /// The same with strips of the callers' threads.
    Callers,
}

/// How a picture is laid out: its lanes from the first, the characters that are shown of a line, how many marks it has,
/// what it shows of lanes' states, which way it goes, and how wide the room for its dates is where that is down.
#[derive(Drop)]
pub struct Sheet {
    pub lanes: Vec<Lane>,
    pub shown: usize,
    pub goes: Goes,
    pub dated: usize,
    pub shows: Shows,
    count: usize,
}

// Puts the lanes that a mark touches among sorted ones.
fn add_touched(lanes: &mut Vec<Lane>, mark: &Mark<'_>) -> Result<(), AllocError>
    ensures { OnOk result (lanes.new.items ≡ put_touched mark.now lanes.old.items) }
{
    add_lane(lanes, mark.lane)?;
    match mark.names {
        Some(lane) => add_lane(lanes, lane),
        None => Ok(()),
    }
}

/// The lanes of some marks, from the top: those in which they are, and those that their calls name, each once.
/// `AllocError` where the list couldn't grow.
pub fn lanes_of(alloc: Global, marks: &[Mark<'_>]) -> Result<Vec<Lane>, AllocError>
    ensures { IfOk result (λ lanes. AreLanesOf marks.now lanes.items) }
{
    let mut lanes = Vec::new(alloc);
    for mark in marks {
        add_touched(&mut lanes, mark)?;
    }
    Ok(lanes)
}

// How many characters of a line are shown at most.
fn most_shown(shows: Shows) -> usize {
    match shows {
        Shows::Words | Shows::Callers => MOST_TOLD,
        _ => MOST_SHOWN,
    }
}

/// So many steps from a place.
pub fn steps(from: usize, step: usize, count: usize) -> usize {
    from.saturating_add(step.saturating_mul(count))
}

// How many characters of their lines are shown, where at most so many are.
fn shown_of(marks: &[Mark<'_>], most: usize) -> usize {
    let mut shown = 0;
    for mark in marks {
        shown = mark.line.len().max(shown).min(most);
    }
    shown
}

impl Sheet {
    /// The sheet for some marks and moments, and what it shows of lanes' states. `AllocError` where memory couldn't
    /// grow.
    pub fn of(
        alloc: Global,
        marks: &[Mark<'_>],
        moments: &[Moment],
        shows: Shows,
        goes: Goes,
    ) -> Result<Sheet, AllocError>
        ensures lanes { IfOk result (λ sheet. AreLanesOf marks.now sheet.lanes.items) }
        ensures shows { IfOk result (λ sheet. sheet.shows ≡ shows) }
    {
        let dated = dates_room(alloc, moments)?;
        let lanes = lanes_of(alloc, marks)?;
        Ok(Sheet {
            lanes,
            shown: shown_of(marks, most_shown(shows)),
            goes,
            dated,
            shows,
            count: marks.len(),
        })
    }

    // So much room, where the lanes' states are shown.
    fn room(&self, room: usize) -> usize {
        match self.shows {
            Shows::Waits => 0,
            _ => room,
        }
    }

    // How high a lane is.
    fn lane(&self) -> usize {
        self.room(STRIP).saturating_add(LANE)
    }

    // The room for the legend.
    fn top(&self) -> usize {
        match self.goes {
            Goes::Across => self.room(SECOND).saturating_add(TOP),
            Goes::Down => self.room(28).saturating_add(32),
        }
    }

    // How high the dates and lanes of a band are.
    fn depth(&self) -> usize {
        steps(
            self.room(DATES).saturating_add(LANE / 2),
            self.lane(),
            self.lanes.len(),
        )
    }

    // How high a band is, with the lines below it.
    fn height(&self) -> usize {
        match self.goes {
            Goes::Across => steps(self.depth().saturating_add(BETWEEN), CHARACTER, self.shown),
            Goes::Down => NAMES + ROW * COLUMNS + BELOW,
        }
    }

    // The place at which the band of a column begins.
    fn band_top(&self, column: usize) -> usize {
        steps(self.top(), self.height(), column / COLUMNS)
    }

    /// Whether it shows the waits beside the lanes' states.
    pub fn shows_waits(&self) -> bool
        ensures { result ≡ shows_waits self.now.shows }
    {
        matches!(self.shows, Shows::Words | Shows::Callers)
    }

    /// The place of a number that is no rank: left of the tie, where it is the tied call that changes the number.
    pub fn number_place(&self) -> &'static str {
        word_place(self.goes, self.shows_waits())
    }

    /// Whether it has this lane.
    pub fn has(&self, lane: Lane) -> bool
        ensures { result ≡ is_some (position (is_lane lane) self.now.lanes.items) }
    {
        index_of(self.lanes.as_slice(), lane).is_some()
    }

    /// The place of the dates of the band of a column, from the top.
    pub fn date_row(&self, column: usize) -> usize {
        self.band_top(column).saturating_add(DATES)
    }

    /// A column's place, from the left.
    pub fn across(&self, column: usize) -> usize {
        steps(LEFT + COLUMN / 2, COLUMN, column % COLUMNS)
    }

    // At which place among the lanes a lane is; for a lane that isn't there, the first place.
    fn place(&self, lane: Lane) -> usize {
        index_of(self.lanes.as_slice(), lane).unwrap_or(0)
    }

    /// A lane's place in the band of a column, from the top.
    pub fn down(&self, column: usize, lane: Lane) -> usize {
        let first = self.room(DATES).saturating_add(LANE);
        let top = self.band_top(column).saturating_add(first);
        steps(top, self.lane(), self.place(lane))
    }

    /// How far the lines below a band are below a lane.
    pub fn below(&self, column: usize, lane: Lane) -> usize {
        let foot = self.band_top(column).saturating_add(self.depth());
        foot.saturating_sub(self.down(column, lane))
    }

    /// A row's place in a picture that goes down, from the top.
    pub fn row_down(&self, row: usize) -> usize {
        let first = self.band_top(row).saturating_add(NAMES + ROW / 2);
        steps(first, ROW, row % COLUMNS)
    }

    // The place at which the lines begin in a picture that goes down, from the left.
    fn lines_left(&self) -> usize {
        steps(self.dated, LANE_DOWN, self.lanes.len())
    }

    // A lane's place in a picture that goes down, from the left.
    fn lane_left(&self, lane: Lane) -> usize {
        let first = self.dated.saturating_add(IN_LANE);
        steps(first, LANE_DOWN, self.place(lane))
    }

    /// A mark's place in a lane, from the left.
    pub fn left_of(&self, column: usize, lane: Lane) -> usize {
        match self.goes {
            Goes::Across => self.across(column),
            Goes::Down => self.lane_left(lane),
        }
    }

    /// A mark's place in a lane, from the top.
    pub fn top_of(&self, column: usize, lane: Lane) -> usize {
        match self.goes {
            Goes::Across => self.down(column, lane),
            Goes::Down => self.row_down(column),
        }
    }

    /// How far it is from a mark in a lane to its line.
    pub fn to_line(&self, column: usize, lane: Lane) -> usize {
        match self.goes {
            Goes::Across => self.below(column, lane),
            Goes::Down => self.lines_left().saturating_sub(self.lane_left(lane)),
        }
    }

    /// The tie from a mark in a lane to another one, with this at its end.
    pub fn tie(
        &self,
        alloc: Global,
        column: usize,
        lane: Lane,
        other: Lane,
        end: TieEnd,
    ) -> Result<String, AllocError> {
        match self.goes {
            Goes::Across => {
                let from = self.down(column, lane);
                tie_down(alloc, self.down(column, other).saturating_sub(from), end)
            }
            Goes::Down => {
                let from = self.lane_left(lane);
                tie_right(alloc, self.lane_left(other).saturating_sub(from), end)
            }
        }
    }

    // How many columns the widest band has.
    fn columns(&self) -> usize {
        self.count.min(COLUMNS)
    }

    // How wide the picture is: a legend has its place in it, however few marks there are.
    fn width(&self) -> usize {
        match self.goes {
            Goes::Across => steps(LEFT + BETWEEN, COLUMN, self.columns().max(44)),
            Goes::Down => self.width_down(),
        }
    }

    // How wide a picture that goes down is.
    fn width_down(&self) -> usize {
        steps(self.lines_left().saturating_add(40), LETTER, self.shown).max(828)
    }

    // How many bands there are.
    fn bands(&self) -> usize {
        self.count / COLUMNS + if self.count % COLUMNS == 0 { 0 } else { 1 }
    }

    // How high the picture is.
    fn whole_height(&self) -> usize {
        match self.goes {
            Goes::Across => steps(self.top(), self.height(), self.bands()),
            Goes::Down => {
                let bands = steps(self.top(), NAMES + BELOW, self.bands());
                steps(bands, ROW, self.count)
            }
        }
    }

    /// The beginning of the picture, up to its legend.
    pub fn head(&self, alloc: Global) -> Result<String, AllocError> {
        let mut text = opening(alloc, self.goes, self.width(), self.whole_height())?;
        put_shapes(&mut text)?;
        self.put_second(&mut text)?;
        Ok(text)
    }

    // Appends the second line of the legend, where the lanes' states are shown.
    fn put_second(&self, text: &mut String) -> Result<(), AllocError> {
        match self.shows {
            Shows::Waits => Ok(()),
            Shows::Machine => put_conditions(text, self.goes),
            Shows::Words => put_words(text, self.goes, self.lanes.as_slice(), FIRST_SIGN),
            Shows::Callers => put_callers(text, self.goes, self.lanes.as_slice()),
        }
    }

    /// The lanes of the band that begins at a column.
    pub fn frame(&self, alloc: Global, column: usize) -> Result<String, AllocError> {
        let mut text = String::new(alloc);
        let end = self.lanes_end(column);
        for lane in &self.lanes {
            self.put_lane(&mut text, column, end, *lane)?;
        }
        Ok(text)
    }

    // The place at which the lanes end of the band that begins at a column.
    fn lanes_end(&self, column: usize) -> usize {
        let count = self.count.saturating_sub(column).min(COLUMNS);
        match self.goes {
            Goes::Across => steps(LEFT, COLUMN, count),
            Goes::Down => steps(self.band_top(column).saturating_add(NAMES), ROW, count),
        }
    }

    // Appends a lane of the band of a column, which ends here.
    fn put_lane(
        &self,
        text: &mut String,
        column: usize,
        end: usize,
        lane: Lane,
    ) -> Result<(), AllocError> {
        match self.goes {
            Goes::Across => self.put_lane_across(text, column, end, lane),
            Goes::Down => self.put_lane_down(text, column, end, lane),
        }
    }

    // The same in a picture that goes down.
    fn put_lane_down(
        &self,
        text: &mut String,
        row: usize,
        end: usize,
        lane: Lane,
    ) -> Result<(), AllocError> {
        let x = self.lane_left(lane);
        let top = self.band_top(row);
        put_line_down(text, x, top.saturating_add(20), end, lane_ink(lane))?;
        put_name_above(text, x.saturating_sub(13), top.saturating_add(14), lane)
    }

    // The same in one that goes across.
    fn put_lane_across(
        &self,
        text: &mut String,
        column: usize,
        end: usize,
        lane: Lane,
    ) -> Result<(), AllocError> {
        let y = self.down(column, lane);
        put_line(text, y, end, lane_ink(lane))?;
        put_lane_name(text, y.saturating_add(3), lane)
    }
}
