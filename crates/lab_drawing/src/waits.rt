//! The waits that go on in the lanes of a picture.
ghost use Rattle.std.specs.Prelude.{◌≡◌, ◌++◌, ◌∷◌, [], IfOk, OnOk, map, string_bytes};
ghost use Rattle.lab_drawing.specs.Pictures as pictures;
ghost use Rattle.lab_drawing.specs.Pictures.{goes_on_behind, wait_behind, waits_of};
ghost use Rattle.lab_drawing.specs.Shapes.{AddsSigns, bar_place, wait, wait_signs, waits_signs};

use crate::frames::{Goes, Sheet};
use crate::lanes::{Lane, is_lane};
use crate::marks::{Mark, Shape};
use std::alloc::{AllocError, Global};

/// Each lane, with a note that no wait goes on there. `AllocError` where the list couldn't grow.
pub fn no_waits(alloc: Global, lanes: &[Lane]) -> Result<Vec<(Lane, bool)>, AllocError>
    ensures { IfOk result (λ waits. waits.items ≡ waits_of lanes.now []) }
{
    let mut waits = Vec::new(alloc);
    for lane in lanes {
        waits.push((*lane, false))?;
    }
    Ok(waits)
}

// Whether a wait goes on after a call of this shape, where it did so before it or not.
fn waits_behind(shape: Shape, before: bool) -> bool
    ensures { result ≡ pictures.waits_behind shape before }
{
    match shape {
        Shape::Begun => true,
        Shape::Ended => false,
        _ => before,
    }
}

// Whether a wait goes on in a lane after a mark, where it did so before it or not.
fn goes_on_behind(lane: Lane, before: bool, mark: &Mark<'_>) -> bool
    ensures { result ≡ goes_on_behind lane before mark.now }
{
    if is_lane(mark.lane, lane) {
        waits_behind(mark.shape, before)
    } else {
        before
    }
}

/// Notes what a mark says of waits.
pub fn note(waits: &mut [(Lane, bool)], mark: &Mark<'_>)
    ensures { waits.new ≡ map (wait_behind mark.now) waits.old }
{
    for wait in waits.iter_mut() {
        let (lane, before) = *wait;
        *wait = (lane, goes_on_behind(lane, before, mark));
    }
}

// The place of the bar of a wait, around the place of a mark.
fn bar_at(goes: Goes, left: usize, top: usize) -> (usize, usize) {
    match goes {
        Goes::Across => (left.saturating_sub(8), top.saturating_sub(3)),
        Goes::Down => (left.saturating_sub(3), top.saturating_sub(10)),
    }
}

// How large the bar is, and its colour.
fn bar_look(goes: Goes) -> &'static str {
    match goes {
        Goes::Across => " width=\"16\" height=\"6\" fill=\"#c9d9f0\"/>\n",
        Goes::Down => " width=\"6\" height=\"20\" fill=\"#c9d9f0\"/>\n",
    }
}

// Appends the beginning of a bar at a place.
fn put_bar_place(text: &mut String, x: usize, y: usize) -> Result<(), AllocError>
    ensures { OnOk result (string_bytes text.new ≡ string_bytes text.old ++ bar_place x y) }
{
    write!(text, "<rect x=\"{x}\" y=\"{y}\"")?;
    Ok(())
}

// Appends the bar of a wait in a lane of a column.
fn put_bar(text: &mut String, sheet: &Sheet, column: usize, lane: Lane) -> Result<(), AllocError>
    ensures { OnOk result (AddsSigns (wait lane ∷ []) (string_bytes text.old) (string_bytes text.new)) }
{
    let left = sheet.left_of(column, lane);
    let (x, y) = bar_at(sheet.goes, left, sheet.top_of(column, lane));
    put_bar_place(text, x, y)?;
    text.push_str(bar_look(sheet.goes))?;
    Ok(())
}

// Appends the same, if a wait goes on there.
fn put_wait(
    text: &mut String,
    sheet: &Sheet,
    column: usize,
    lane: Lane,
    goes_on: bool,
) -> Result<(), AllocError>
    ensures { OnOk result (AddsSigns (wait_signs (lane, goes_on)) (string_bytes text.old) (string_bytes text.new)) }
{
    if goes_on {
        put_bar(text, sheet, column, lane)
    } else {
        Ok(())
    }
}

/// Appends the waits that go on in a column, lane by lane. `AllocError` where the text couldn't grow.
pub fn put_waits(
    text: &mut String,
    sheet: &Sheet,
    column: usize,
    waits: &[(Lane, bool)],
) -> Result<(), AllocError>
    ensures { OnOk result (AddsSigns (waits_signs waits.now) (string_bytes text.old) (string_bytes text.new)) }
{
    for wait in waits {
        put_wait(text, sheet, column, wait.0, wait.1)?;
    }
    Ok(())
}
