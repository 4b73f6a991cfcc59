//! The strips below the lanes of a picture, which show the state of each, and the dates above them.
ghost use Rattle.std.specs.Prelude.{◌≡◌, ◌∷◌, [], Some, OnOk, option_map, string_bytes};
ghost use Rattle.lab_drawing.specs.Shapes.{AddsSigns, date, date_signs, lane_signs, moment_signs, strip};
ghost use Rattle.lab_drawing.specs.Strips as strips;
ghost use Rattle.lab_drawing.specs.Strips.{is_number, tells_number};

use crate::dates::date_text;
use crate::downwards::strip_down;
use crate::frames::{COLUMNS, Goes, Sheet};
use crate::heads::put_place;
use crate::moments::{Condition, Moment, Standing};
use crate::ranks::{own_rank, put_rank};
use evl_base::Policy;
use std::alloc::{AllocError, Global};

/// The strip of a condition, around a mark's place.
pub fn strip_text(condition: Condition) -> &'static str {
    match condition {
        Condition::Inband => "<path d=\"M-8 10h16\" stroke=\"#8a6d00\" stroke-width=\"1.5\"/>",
        Condition::Blocked => {
            "<path d=\"M-7 10h3m2 0h3m2 0h3\" stroke=\"#b3261e\" stroke-width=\"3\"/>"
        }
        Condition::Ready => "<path d=\"M-8 8h16M-8 12h16\" stroke=\"#1f5fa8\"/>",
        Condition::Picked => {
            "<rect x=\"-8\" y=\"7.5\" width=\"16\" height=\"5\" fill=\"#1f5fa8\"/>"
        }
        Condition::Stalled => {
            "<path d=\"M-8 12l4 -5m1 5l4 -5m1 5l4 -5\" stroke=\"#5c4300\" stroke-width=\"1.5\"/>"
        }
        Condition::Pending =>
            "<path d=\"M-6 10h2m4 0h2m4 0h2\" stroke=\"#5c4300\" stroke-width=\"3\"/>",
        Condition::Owned => {
            "<rect x=\"-8\" y=\"8.5\" width=\"16\" height=\"3\" fill=\"#5f6b7a\"/>"
        }
        Condition::Handed => "<path d=\"M-8 8.5h16M-8 11.5h16\" stroke=\"#5f6b7a\"/>",
        Condition::Runs => "<path d=\"M-8 10h16M-4 8v4M4 8v4\" stroke=\"#5c4300\"/>",
        Condition::Oob => {
            "<rect x=\"-8\" y=\"7.5\" width=\"16\" height=\"5\" fill=\"#1f5fa8\"/>"
        }
        Condition::Claimed => {
            "<path d=\"M-8 10h16M-4 6.5v7M4 6.5v7\" stroke=\"#5f6b7a\" stroke-width=\"3\"/>"
        }
        Condition::Taken => "<path d=\"M-8 8h16M-8 12h16\" stroke=\"#5c4300\"/>",
    }
}

/// The strip of a condition in a picture that goes this way.
pub fn strip_for(goes: Goes, condition: Condition) -> &'static str {
    match goes {
        Goes::Across => strip_text(condition),
        Goes::Down => strip_down(condition),
    }
}

// The sign before the number above a lane: T is that of a thread, + that of pending events.
fn number_sign(condition: Condition) -> &'static str {
    match condition {
        Condition::Owned | Condition::Handed | Condition::Claimed | Condition::Taken => "T",
        Condition::Stalled | Condition::Pending => "+",
        _ => "",
    }
}

// Appends the number of a lane: that of a thread as its policy, with the rank that it has by others.
fn put_number(
    text: &mut String,
    sheet: &Sheet,
    standing: Standing,
    number: u16,
) -> Result<(), AllocError> {
    match standing.policy {
        Some(policy) => put_rank(text, sheet.goes, policy, number, standing.lender),
        None => put_signed(text, sheet, standing.condition, number),
    }
}

// Appends a number after its sign.
fn put_signed(
    text: &mut String,
    sheet: &Sheet,
    condition: Condition,
    number: u16,
) -> Result<(), AllocError> {
    let place = sheet.number_place();
    let sign = number_sign(condition);
    write!(text, "<text {place}>{sign}{number}</text>")?;
    Ok(())
}

// Whether two numbers are the same, or neither is there.
fn is_number(one: Option<u16>, other: Option<u16>) -> bool
    ensures { result ≡ is_number one other }
{
    match one {
        None => other.is_none(),
        Some(number) => match other {
            None => false,
            Some(another) => number == another,
        },
    }
}

// Whether two policies are written alike.
fn is_written_so(one: Policy, other: Policy) -> bool
    ensures { result ≡ strips.is_written_so one other }
{
    own_rank(one) == own_rank(other) && is_round(one) == is_round(other)
}

// Whether it is round-robin.
fn is_round(policy: Policy) -> bool
    ensures { result ≡ strips.is_round policy }
{
    matches!(policy, Policy::Rr { .. })
}

// Whether two policies are written alike, or neither is there.
fn is_policy(one: Option<Policy>, other: Option<Policy>) -> bool
    ensures { result ≡ strips.is_policy one other }
{
    match one {
        None => other.is_none(),
        Some(policy) => match other {
            None => false,
            Some(another) => is_written_so(policy, another),
        },
    }
}

// Whether a lane had the same policy, lent by the same thread.
fn ranked_so(standing: Standing, earlier: Standing) -> bool
    ensures { result ≡ strips.ranked_so standing earlier }
{
    is_policy(earlier.policy, standing.policy) && is_number(earlier.lender, standing.lender)
}

// Whether a lane stood with the same number, policy and lender.
fn stood_so(standing: Standing, earlier: Standing) -> bool
    ensures { result ≡ strips.stood_so standing (Some earlier) }
{
    is_number(earlier.number, standing.number) && ranked_so(standing, earlier)
}

// Whether a lane's number is printed in a column: where it is another than before, or a band begins.
fn tells_number(column: usize, standing: Standing, before: Option<&Moment>) -> bool
    ensures { result ≡ tells_number column standing (option_map (λ moment. moment.now) before.entry) }
{
    if column % COLUMNS == 0 {
        return true;
    }
    match before {
        None => true,
        Some(moment) => match moment.standing(standing.lane) {
            None => true,
            Some(earlier) => !stood_so(standing, earlier),
        },
    }
}

// Appends the number of a lane, where it has one that is printed.
fn put_told_number(
    text: &mut String,
    sheet: &Sheet,
    standing: Standing,
    tells: bool,
) -> Result<(), AllocError> {
    if !tells {
        return Ok(());
    }
    match standing.number {
        Some(number) => put_number(text, sheet, standing, number),
        None => Ok(()),
    }
}

// The drawing of a lane at its place: the strip, the number if that is printed, and the end.
fn strip_body(
    alloc: Global,
    sheet: &Sheet,
    standing: Standing,
    tells: bool,
) -> Result<String, AllocError> {
    let mut text = String::from_str(alloc, strip_for(sheet.goes, standing.condition))?;
    put_told_number(&mut text, sheet, standing, tells)?;
    text.push_str("</g>\n")?;
    Ok(text)
}

// Appends the state of one lane in a column.
fn put_standing(
    text: &mut String,
    sheet: &Sheet,
    column: usize,
    standing: Standing,
    tells: bool,
) -> Result<(), AllocError>
    ensures { OnOk result (AddsSigns (strip standing tells ∷ []) (string_bytes text.old) (string_bytes text.new)) }
{
    let x = sheet.left_of(column, standing.lane);
    let y = sheet.top_of(column, standing.lane);
    let body = strip_body(*text.allocator(), sheet, standing, tells)?;
    put_place(text, x, y)?;
    text.push_str(body.as_str())?;
    Ok(())
}

// Whether the moment before had this date.
fn was_date(date: u64, before: Option<&Moment>) -> bool
    ensures { result ≡ strips.was_date date (option_map (λ moment. moment.now) before.entry) }
{
    match before {
        Some(moment) => moment.date == date,
        None => false,
    }
}

// The text before a date in a column: beside its row, or above its lanes.
fn date_opening(alloc: Global, sheet: &Sheet, column: usize) -> Result<String, AllocError> {
    match sheet.goes {
        Goes::Across => {
            let x = sheet.across(column);
            let y = sheet.date_row(column);
            format!(in alloc; "<text transform=\"translate({x},{y}) rotate(-40)\" font-size=\"8\">")
        }
        Goes::Down => {
            let x = sheet.dated.saturating_sub(8);
            let y = sheet.row_down(column).saturating_add(4);
            format!(in alloc; "<text x=\"{x}\" y=\"{y}\" text-anchor=\"end\">")
        }
    }
}

// The text after it.
fn date_closing(alloc: Global, sheet: &Sheet, column: usize) -> Result<String, AllocError> {
    match sheet.goes {
        Goes::Across => {
            let x = sheet.across(column);
            let y = sheet.date_row(column);
            format!(in alloc; "</text><path d=\"M{x} {y}v5\" stroke=\"#808080\"/>\n")
        }
        Goes::Down => String::from_str(alloc, "</text>\n"),
    }
}

// Appends the date of a column.
fn put_date(
    alloc: Global,
    text: &mut String,
    sheet: &Sheet,
    column: usize,
    nanoseconds: u64,
) -> Result<(), AllocError>
    ensures { OnOk result (AddsSigns (date nanoseconds ∷ []) (string_bytes text.old) (string_bytes text.new)) }
{
    let opening = date_opening(alloc, sheet, column)?;
    let told = date_text(alloc, nanoseconds)?;
    let closing = date_closing(alloc, sheet, column)?;
    text.push_str(opening.as_str())?;
    text.push_str(told.as_str())?;
    text.push_str(closing.as_str())?;
    Ok(())
}

// Whether a column prints its date: if it is another than before, or a band begins.
fn tells_date(column: usize, nanoseconds: u64, before: Option<&Moment>) -> bool
    ensures { result ≡ strips.tells_date column nanoseconds (option_map (λ moment. moment.now) before.entry) }
{
    !was_date(nanoseconds, before) || column % COLUMNS == 0
}

// Appends the date of a column, if that is printed.
fn put_told_date(
    alloc: Global,
    text: &mut String,
    sheet: &Sheet,
    column: usize,
    nanoseconds: u64,
    tells: bool,
) -> Result<(), AllocError>
    ensures { OnOk result (AddsSigns (date_signs nanoseconds tells) (string_bytes text.old) (string_bytes text.new)) }
{
    if tells {
        put_date(alloc, text, sheet, column, nanoseconds)
    } else {
        Ok(())
    }
}

// Appends the state of one lane in a column, if the picture has this lane.
fn put_told_standing(
    text: &mut String,
    sheet: &Sheet,
    column: usize,
    standing: Standing,
    before: Option<&Moment>,
) -> Result<(), AllocError>
    ensures { OnOk result (AddsSigns (lane_signs sheet.now.lanes.items column (option_map (λ moment. moment.now) before.entry) standing) (string_bytes text.old) (string_bytes text.new)) }
{
    if sheet.has(standing.lane) {
        let tells = tells_number(column, standing, before);
        put_standing(text, sheet, column, standing, tells)
    } else {
        Ok(())
    }
}

/// Appends the date and the state of each lane in a column, after the moment before. `AllocError` where memory couldn't
/// grow.
pub fn put_moment(
    alloc: Global,
    text: &mut String,
    sheet: &Sheet,
    column: usize,
    moment: &Moment,
    before: Option<&Moment>,
) -> Result<(), AllocError>
    ensures { OnOk result (AddsSigns (moment_signs sheet.now.lanes.items column moment.now (option_map (λ earlier. earlier.now) before.entry)) (string_bytes text.old) (string_bytes text.new)) }
{
    let tells = tells_date(column, moment.date, before);
    put_told_date(alloc, text, sheet, column, moment.date, tells)?;
    for standing in &moment.standings {
        put_told_standing(text, sheet, column, *standing, before)?;
    }
    Ok(())
}
