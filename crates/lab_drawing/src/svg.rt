//! A picture as SVG.
ghost use Rattle.std.specs.Prelude.{◌≡◌, ◌+◌, ◌∷◌, [], min, ◌^◌, ◌-◌, option_map, string_bytes, IfOk, OnOk, if◌then◌else◌};
ghost use Rattle.lab_drawing.specs.Marks.{is_entry};
ghost use Rattle.lab_drawing.specs.Pictures as pictures;
ghost use Rattle.lab_drawing.specs.Pictures.{entry_with};
ghost use Rattle.lab_drawing.specs.Shapes as shapes;
ghost use Rattle.lab_drawing.specs.Shapes.{AddsSigns, HoldsPicture, IsPictureOf, column_signs, mark_place, shown_waits, signs_after, stood_signs};

use crate::beside::put_beside;
use crate::drawings::shape_text;
use crate::drawn::Drawn;
use crate::escapes::{put_text, put_title};
use crate::frames::{COLUMNS, Goes, Sheet, Shows};
use crate::labels::{indent, look_for, put_label};
use crate::lanes::Lane;
use crate::marks::Mark;
use crate::moments::Moment;
use crate::pages::{is_entry, page, page_moments};
use crate::strips::put_moment;
use crate::texts::{around, long_number};
use crate::ties::{TieEnd, end_of};
use crate::waits::{no_waits, note, put_waits};
use std::alloc::{AllocError, Global};

// The tie of a mark to the lane of what its call names.
fn tie(
    alloc: Global,
    sheet: &Sheet,
    column: usize,
    end: TieEnd,
    mark: &Mark<'_>,
) -> Result<String, AllocError> {
    match mark.names {
        None => Ok(String::new(alloc)),
        Some(lane) => sheet.tie(alloc, column, mark.lane, lane, end),
    }
}

// A dotted line from a mark, so far down or to the right.
fn lead(alloc: Global, goes: Goes, pixels: usize) -> Result<String, AllocError> {
    match goes {
        Goes::Across => {
            format!(in alloc;
                "<path d=\"M0 0V{pixels}\" stroke=\"#e4e4e4\" stroke-dasharray=\"1 3\"/>"
            )
        }
        Goes::Down => {
            format!(in alloc;
                "<path d=\"M0 0H{pixels}\" stroke=\"#b0b0b0\" stroke-dasharray=\"1 3\"/>"
            )
        }
    }
}

// Appends the label of a mark, where its lines begin so far from it.
fn put_label_of(
    alloc: Global,
    sheet: &Sheet,
    pixels: usize,
    mark: &Mark<'_>,
    text: &mut Vec<u8>,
) -> Result<(), AllocError> {
    let from = pixels.saturating_add(indent(sheet.goes, mark.shape));
    let look = look_for(sheet.goes, mark.shape);
    put_beside(alloc, text, sheet.goes, mark)?;
    put_label(alloc, text, sheet.goes, sheet.shown, from, look, mark.line)
}

// The beginning of a mark of an entry, at this place.
fn place(alloc: Global, entry: Option<u64>, x: usize, y: usize) -> Result<String, AllocError>
    ensures { IfOk result (λ text. string_bytes text ≡ mark_place entry x y) }
{
    match entry {
        Some(number) => {
            format!(in alloc; "<g data-entry=\"{number}\" transform=\"translate({x},{y})\">")
        }
        None => format!(in alloc; "<g transform=\"translate({x},{y})\">"),
    }
}

// Appends the drawing of a mark, after its title.
fn put_body(
    alloc: Global,
    sheet: &Sheet,
    column: usize,
    end: TieEnd,
    mark: &Mark<'_>,
    text: &mut Vec<u8>,
) -> Result<(), AllocError> {
    let far = sheet.to_line(column, mark.lane);
    let led = lead(alloc, sheet.goes, far)?;
    let tied = tie(alloc, sheet, column, end, mark)?;
    put_text(text, led.as_str())?;
    put_text(text, tied.as_str())?;
    put_text(text, shape_text(mark.shape))?;
    put_label_of(alloc, sheet, far, mark, text)?;
    Ok(())
}

// Appends the mark of a column, with the line of its entry or play as its title.
fn put_mark(
    alloc: Global,
    sheet: &Sheet,
    column: usize,
    known: &Known<'_>,
    mark: &Mark<'_>,
    text: &mut Vec<u8>,
) -> Result<(), AllocError>
    ensures { OnOk result (AddsSigns (shapes.mark known.now.entry mark.now known.now.end ∷ []) text.old.items text.new.items) }
{
    let x = sheet.left_of(column, mark.lane);
    let y = sheet.top_of(column, mark.lane);
    let placed = place(alloc, known.entry, x, y)?;
    let mut body = Vec::new(alloc);
    put_body(alloc, sheet, column, known.end, mark, &mut body)?;
    put_text(text, placed.as_str())?;
    put_title(text, mark.line)?;
    text.extend_from_slice(body.as_slice())?;
    Ok(())
}

// The lanes of the band of a column, where it is the first one there.
fn frame(alloc: Global, sheet: &Sheet, column: usize) -> Result<String, AllocError> {
    if column % COLUMNS == 0 {
        sheet.frame(alloc, column)
    } else {
        Ok(String::new(alloc))
    }
}

// All that is known in a column: the entry of its mark, what is at the end of its tie, the waits that go on, and the
// machine's states after it and before.
#[derive(Clone, Copy, Drop)]
struct Known<'a> {
    entry: Option<u64>,
    end: TieEnd,
    waits: &'a [(Lane, bool)],
    after: Option<&'a Moment>,
    before: Option<&'a Moment>,
}

// Appends the waits that go on in a column, if they are shown beside the lanes' states.
fn put_shown_waits(
    text: &mut String,
    sheet: &Sheet,
    column: usize,
    waits: &[(Lane, bool)],
) -> Result<(), AllocError>
    ensures { OnOk result (AddsSigns (shown_waits sheet.now.shows waits.now) (string_bytes text.old) (string_bytes text.new)) }
{
    if sheet.shows_waits() {
        put_waits(text, sheet, column, waits)
    } else {
        Ok(())
    }
}

// Appends the lanes' states in a column.
fn put_stood(
    alloc: Global,
    sheet: &Sheet,
    column: usize,
    known: &Known<'_>,
    text: &mut String,
) -> Result<(), AllocError>
    ensures { OnOk result (AddsSigns (stood_signs sheet.now.lanes.items sheet.now.shows column known.now.waits.now (option_map (λ moment. moment.now) known.now.after) (option_map (λ moment. moment.now) known.now.before)) (string_bytes text.old) (string_bytes text.new)) }
{
    let Some(moment) = known.after else {
        return put_waits(text, sheet, column, known.waits);
    };
    put_moment(alloc, text, sheet, column, moment, known.before)?;
    put_shown_waits(text, sheet, column, known.waits)?;
    Ok(())
}

// Appends the column of a mark: the lanes of its band, where it is the first one there, their states, and the mark.
fn put_column(
    alloc: Global,
    sheet: &Sheet,
    column: usize,
    mark: &Mark<'_>,
    known: &Known<'_>,
    text: &mut Vec<u8>,
) -> Result<(), AllocError>
    ensures { OnOk result (AddsSigns (column_signs sheet.now.lanes.items sheet.now.shows column known.now.waits.now (option_map (λ moment. moment.now) known.now.after) (option_map (λ moment. moment.now) known.now.before) known.now.entry known.now.end mark.now) text.old.items text.new.items) }
{
    let mut behind = frame(alloc, sheet, column)?;
    put_stood(alloc, sheet, column, known, &mut behind)?;
    put_text(text, behind.as_str())?;
    put_mark(alloc, sheet, column, known, mark, text)?;
    Ok(())
}

// One more entry, where a mark is that of one.
fn counted(entries: usize, mark: &Mark<'_>) -> usize
    ensures { result ≡ (if is_entry mark.now then min (entries + 1) (2 ^ 64 - 1) else entries) }
{
    if is_entry(mark) {
        entries.saturating_add(1)
    } else {
        entries
    }
}

// The number of an entry, with which its line begins.
fn number_of(line: &str) -> Option<u64>
    ensures { result ≡ pictures.number_of line.now }
{
    let (front, _) = around(" ", line)?;
    long_number(front)
}

// The entry of a mark: a play's is the one before it.
fn entry_with(before: Option<u64>, mark: &Mark<'_>) -> Option<u64>
    ensures { result ≡ entry_with before mark.now }
{
    if is_entry(mark) {
        number_of(mark.line)
    } else {
        before
    }
}

// The state of the machine after so many entries, where that is known.
fn moment_after(moments: &[Moment], entries: usize) -> Option<&Moment>
    ensures { option_map (λ moment. moment.now) result ≡ pictures.moment_after moments.now entries }
{
    moments.get(entries.checked_sub(1)?)
}

// Appends the columns of all marks.
fn put_columns(
    alloc: Global,
    sheet: &Sheet,
    marks: &[Mark<'_>],
    moments: &[Moment],
    text: &mut Vec<u8>,
) -> Result<(), AllocError>
    ensures { OnOk result (AddsSigns (signs_after sheet.now.lanes.items sheet.now.shows moments.now [] marks.now) text.old.items text.new.items) }
{
    let mut waits = no_waits(alloc, sheet.lanes.as_slice())?;
    let mut entries: usize = 0;
    let mut entry = None;
    for (column, mark) in marks.iter().enumerate() {
        let before = moment_after(moments, entries);
        entries = counted(entries, mark);
        entry = entry_with(entry, mark);
        let known = Known {
            entry,
            end: end_of(mark, before),
            waits: waits.as_slice(),
            after: moment_after(moments, entries),
            before,
        };
        put_column(alloc, sheet, column, mark, &known, text)?;
        note(waits.as_mut_slice(), mark);
    }
    Ok(())
}

// The picture of marks, and of the machine's states after their entries.
fn picture(
    alloc: Global,
    marks: &[Mark<'_>],
    moments: &[Moment],
    shows: Shows,
    goes: Goes,
) -> Result<Vec<u8>, AllocError>
    ensures { IfOk result (λ text. HoldsPicture shows moments.now marks.now text.items) }
{
    let sheet = Sheet::of(alloc, marks, moments, shows, goes)?;
    let head = sheet.head(alloc)?;
    let mut text = Vec::new(alloc);
    put_text(&mut text, head.as_str())?;
    put_columns(alloc, &sheet, marks, moments, &mut text)?;
    text.extend_from_slice(b"</svg>\n")?;
    Ok(text)
}

/// The picture of what is drawn as SVG: a band of lanes for each 60 marks. If the machine's state after each entry
/// is known, dates and strips show it; the waits that the answers report are shown beside words, and where nothing else
/// is known. `AllocError` where memory couldn't grow.
pub fn write_svg(alloc: Global, drawn: &Drawn<'_, '_>) -> Result<Vec<u8>, AllocError>
    ensures { IfOk result (λ text. IsPictureOf drawn.now text.items) }
{
    let marks = page(drawn.marks, drawn.page);
    let moments = page_moments(drawn.marks, drawn.moments.as_slice(), drawn.page);
    picture(alloc, marks, moments, drawn.shows, drawn.goes)
}
