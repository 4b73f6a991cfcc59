//! The drawing of marks, with the lanes' states after each entry as far as the marks' source gives them.
ghost use Rattle.std.specs.Prelude.{◌≡◌, IfOk, map, string_bytes};
ghost use Rattle.evl_plans.specs.Told.{handler_of};
ghost use Rattle.lab_caller_pictures.specs.Drawings as drawings;
ghost use Rattle.lab_caller_pictures.specs.Drawings.{AreMomentsOf, IsDrawn, IsPicture, origin_of};
ghost use Rattle.lab_caller_pictures.specs.Joins.{AreJoined};

use crate::joins::joined_moments;
use crate::plays::Entered;
use evl_plans::Planned;
use lab_drawing::{
    Drawn, Goes, Mark, Moment, Shows, lanes_of, page_moments, shown_with, told_moments, write_svg,
};
use lab_moments::moments_of;
use std::alloc::{AllocError, Global};

/// The source of marks: a trace alone, a scenario that was played over these callbacks, or the lines of callers, alone
/// or with the calls that were entered then.
#[derive(Clone, Copy)]
pub enum Source<'a> {
    Trace,
    Scenario(&'a [Planned], &'a str),
    Callers,
    Threads(&'a [Planned], &'a Entered),
}

// The states of marks' lanes after each step of a scenario over these callbacks.
fn scenario_moments(
    alloc: Global,
    marks: &[Mark<'_>],
    bank: &[Planned],
    text: &str,
) -> Result<Vec<Moment>, AllocError>
    ensures { IfOk result (λ moments. AreMomentsOf (drawings.scenario (map handler_of bank.now) text.now) marks.now moments.items) }
{
    let lanes = lanes_of(alloc, marks)?;
    moments_of(alloc, bank, text.as_bytes(), lanes.as_slice())
}

// The states of callers' lanes after each of their lines, by the calls that were entered then.
fn threads_moments(
    alloc: Global,
    marks: &[Mark<'_>],
    bank: &[Planned],
    known: &Entered,
) -> Result<Vec<Moment>, AllocError>
    ensures { IfOk result (λ moments. AreJoined (map handler_of bank.now) (string_bytes known.now.scenario) known.now.counts.items marks.now moments.items) }
{
    joined_moments(
        alloc,
        marks,
        bank,
        known.scenario.as_str(),
        known.counts.as_slice(),
    )
}

// The states of marks' lanes after each entry, as far as the marks' source gives them.
fn known_moments(
    alloc: Global,
    marks: &[Mark<'_>],
    source: Source<'_>,
) -> Result<Vec<Moment>, AllocError>
    ensures { IfOk result (λ moments. AreMomentsOf (origin_of source.entry) marks.now moments.items) }
{
    match source {
        Source::Trace => Ok(Vec::new(alloc)),
        Source::Scenario(bank, text) => scenario_moments(alloc, marks, bank, text),
        Source::Callers => told_moments(alloc, marks),
        Source::Threads(bank, known) => threads_moments(alloc, marks, bank, known),
    }
}

// The lanes' states that a picture shows, by the moments of its page.
fn shows_for(source: Source<'_>, moments: &[Moment]) -> Shows
    ensures { result ≡ drawings.shows_for (origin_of source.entry) moments.now }
{
    match source {
        Source::Trace => shown_with(moments),
        Source::Scenario(_, _) => shown_with(moments),
        Source::Callers => Shows::Words,
        Source::Threads(_, _) => Shows::Callers,
    }
}

// The most lines of which a picture goes down if no way is asked for.
const MOST_DOWN: usize = 60;

// Which way a picture of so many marks goes.
fn goes_for(asked: Option<Goes>, count: usize) -> Goes
    ensures { result ≡ drawings.goes_for asked count }
{
    match asked {
        Some(goes) => goes,
        None if count <= MOST_DOWN => Goes::Down,
        None => Goes::Across,
    }
}

/// The drawing of a page, from 0, of marks from this source: the lanes' states after each entry, what is shown of
/// them, and which way the marks go; at most 60 go down if none is asked for. `AllocError` where memory couldn't grow.
pub fn drawn_of<'a, 'b>(
    alloc: Global,
    marks: &'b [Mark<'a>],
    source: Source<'_>,
    asked: Option<Goes>,
    page: usize,
) -> Result<Drawn<'a, 'b>, AllocError>
    ensures { IfOk result (IsDrawn (origin_of source.entry) asked marks.now page) }
{
    let moments = known_moments(alloc, marks, source)?;
    let shows = shows_for(source, page_moments(marks, moments.as_slice(), page));
    let goes = goes_for(asked, marks.len());
    Ok(Drawn {
        marks,
        moments,
        shows,
        goes,
        page,
    })
}

/// The picture of what is drawn then, as SVG. `AllocError` where memory couldn't grow.
pub fn picture_of(
    alloc: Global,
    marks: &[Mark<'_>],
    source: Source<'_>,
    asked: Option<Goes>,
    page: usize,
) -> Result<Vec<u8>, AllocError>
    ensures { IfOk result (λ picture. IsPicture (origin_of source.entry) asked marks.now page picture.items) }
{
    let drawn = drawn_of(alloc, marks, source, asked, page)?;
    write_svg(alloc, &drawn)
}
