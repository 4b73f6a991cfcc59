//! The extras of steps' texts beside texts of callers: calls that take the core by a turn of its own, and a wrong step.
ghost use Rattle.std.specs.Prelude.{◌≡◌, ◌++◌, ◌-◌, [], None, IfOk, codes, OnOk, false, length, map, slice_set, string_bytes};
ghost use Rattle.std.specs.Option.{option_map_or};
ghost use Rattle.std.specs.Str.Lines.{lines};
ghost use Rattle.evl_scenario.specs.Lines.{line_feed};
ghost use Rattle.lab_scenario_orders.specs.Splits as splits;
ghost use Rattle.lab_scenario_orders.specs.Splits.{joined_lines};
ghost use Rattle.lab_step_texts.specs.Extras.{is_empty, is_open, is_strange, is_stray, plain_line, plain_lines, plain_part, strange_from, strange_line, stray_from, stray_line, way_set, ways_from, ways_on, ways_part, wrong_from, wrong_on, wrong_part, wrong_set};

use crate::answers::begins;
use lab_kinds::{bare, is_own, is_set_to, is_what_if, is_what_if_head};
use lab_scenario_orders::past;
use lab_step_orders::{CoreUse, WhatIf};
use std::alloc::{AllocError, Global};

/// The parts of a text of steps.
#[derive(Drop)]
pub(crate) struct Extras {
    /// The text of callers.
    pub(crate) plain: String,
    /// How each step comes by the core.
    pub(crate) ways: Vec<CoreUse>,
    /// The wrong step that is asked for.
    pub(crate) what_if: Option<WhatIf>,
    /// The number of the first line of `[what_if]` that asks for none, or for a second one.
    pub(crate) strange: Option<usize>,
    /// The number of the first line that sets `lasts` outside a step, or once more in one.
    pub(crate) stray: Option<usize>,
}

// Whether a text is the end of the head of a step.
fn ends_step(text: &str) -> bool
    ensures { result ≡ splits.ends_head (codes "step") (codes "]]") text.now }
{
    match past("step", text) {
        Some(rest) => rest.trim() == "]]",
        None => false,
    }
}

// Whether a step begins here.
fn is_step(line: &str) -> bool
    ensures { result ≡ splits.is_step line.now }
{
    match past("[[", bare(line)) {
        Some(rest) => ends_step(rest.trim()),
        None => false,
    }
}

// How a step comes by the core in which this line is, if it says so.
fn way_set(line: &str) -> Option<CoreUse>
    ensures { result ≡ way_set line.now }
{
    if is_set_to("lasts", "true", line) {
        Some(CoreUse::Lasts)
    } else if is_set_to("lasts", "false", line) {
        Some(CoreUse::Tries)
    } else {
        None
    }
}

// The last step comes by the core in this way, if one is named.
fn put_way(ways: &mut Vec<CoreUse>, way: Option<CoreUse>)
    ensures { ways.new.items ≡ option_map_or (λ way. slice_set ways.old.items (length ways.old.items - 1) way) way ways.old.items }
{
    let Some(way) = way else {
        return;
    };
    let count = ways.len();
    if count > 0 {
        ways[count - 1] = way;
    }
}

// The steps up to a line.
fn put_line(ways: &mut Vec<CoreUse>, line: &str) -> Result<(), AllocError>
    ensures { OnOk result (ways.new.items ≡ ways_on ways.old.items line.now) }
{
    if is_step(line) {
        ways.push(CoreUse::Whole)?;
    } else {
        put_way(ways, way_set(line));
    }
    Ok(())
}

// How each step comes by the core.
fn ways_in(alloc: Global, lines: &[&str]) -> Result<Vec<CoreUse>, AllocError>
    ensures { IfOk result (λ ways. ways.items ≡ ways_from [] (map (λ line. line.now) lines.now)) }
{
    let mut ways = Vec::new(alloc);
    for line in lines {
        put_line(&mut ways, *line)?;
    }
    Ok(ways)
}

// The wrong step that a line asks for, if it does.
fn wrong_set(line: &str) -> Option<WhatIf>
    ensures { result ≡ wrong_set line.now }
{
    if is_set_to("offer_drops_mark", "true", line) {
        Some(WhatIf::OfferDropsMark)
    } else if is_set_to("claim_sets_no_mark", "true", line) {
        Some(WhatIf::ClaimSetsNoMark)
    } else if is_set_to("unlock_skips_kernel", "true", line) {
        Some(WhatIf::UnlockSkipsKernel)
    } else if is_set_to("leave_keeps_mark", "true", line) {
        Some(WhatIf::LeaveKeepsMark)
    } else {
        None
    }
}

// The wrong step up to a line, which is in such a table or not.
fn wrong_on(what: Option<WhatIf>, is_in: bool, line: &str) -> Option<WhatIf>
    ensures { result ≡ wrong_on what is_in line.now }
{
    if is_in {
        wrong_set(line).or(what)
    } else {
        what
    }
}

// The last wrong step that is asked for.
fn wrong_in(lines: &[&str]) -> Option<WhatIf>
    ensures { result ≡ wrong_from None false (map (λ line. line.now) lines.now) }
{
    let mut what = None;
    let mut was = false;
    for line in lines {
        was = is_what_if(was, *line);
        what = wrong_on(what, was, *line);
    }
    what
}

// Whether nothing is on a line but a comment.
fn is_empty(line: &str) -> bool
    ensures { result ≡ is_empty line.now }
{
    bare(line) == ""
}

// Whether a line of such a table asks for no wrong step, or for a second one.
fn is_strange(what: Option<WhatIf>, is_in: bool, line: &str) -> bool
    ensures { result ≡ is_strange what is_in line.now }
{
    is_in
        && !(is_what_if_head(line)
            || (is_empty(line) || (wrong_set(line).is_some() && what.is_none())))
}

// The number of the first line that does, from 1.
fn strange_in(lines: &[&str]) -> Option<usize>
    ensures { result ≡ strange_from 1 None false (map (λ line. line.now) lines.now) }
{
    let mut what = None;
    let mut was = false;
    for (i, line) in lines.iter().enumerate() {
        was = is_what_if(was, *line);
        if is_strange(what, was, *line) {
            return Some(i + 1);
        }
        what = wrong_on(what, was, *line);
    }
    None
}

// Whether a table begins here.
fn is_table(line: &str) -> bool
    ensures { result ≡ splits.is_table line.now }
{
    begins(b"[", bare(line).as_bytes())
}

// Whether a step goes on after a line that has no `lasts` so far.
fn is_open(was: bool, line: &str) -> bool
    ensures { result ≡ is_open was line.now }
{
    if is_table(line) {
        is_step(line)
    } else {
        was && !way_set(line).is_some()
    }
}

// Whether a line sets `lasts` elsewhere, or once more.
fn is_stray(going: bool, line: &str) -> bool
    ensures { result ≡ is_stray going line.now }
{
    way_set(line).is_some() && !going
}

// The number of the first line that does, from 1.
fn stray_in(lines: &[&str]) -> Option<usize>
    ensures { result ≡ stray_from 1 false (map (λ line. line.now) lines.now) }
{
    let mut going = false;
    for (i, line) in lines.iter().enumerate() {
        if is_stray(going, *line) {
            return Some(i + 1);
        }
        going = is_open(going, *line);
    }
    None
}

// Puts a line to the text of callers, blank where that hasn't it.
fn put_plain(text: &mut String, is_in: bool, line: &str) -> Result<(), AllocError>
    ensures { OnOk result (string_bytes text.new ≡ string_bytes text.old ++ (plain_line is_in line.now ++ line_feed)) }
{
    if !is_own(is_in, line) {
        text.push_str(line)?;
    }
    text.push_str("\n")
}

// The text of callers.
fn plain_in(alloc: Global, lines: &[&str]) -> Result<String, AllocError>
    ensures { IfOk result (λ text. string_bytes text ≡ joined_lines (plain_lines false (map (λ line. line.now) lines.now))) }
{
    let mut text = String::new(alloc);
    let mut was = false;
    for line in lines {
        was = is_what_if(was, *line);
        put_plain(&mut text, was, *line)?;
    }
    Ok(text)
}

/// The lines of a text, in order.
pub(crate) fn lines_of(alloc: Global, text: &str) -> Result<Vec<&str>, AllocError>
    ensures { IfOk result (λ all. map (λ line. line.now) all.items ≡ lines text.now) }
{
    text.lines().collect(alloc)
}

/// The parts of a text of steps. `AllocError` where memory couldn't grow.
pub(crate) fn extras_of(alloc: Global, text: &str) -> Result<Extras, AllocError>
    ensures plain { IfOk result (λ e. string_bytes e.plain ≡ plain_part text.now) }
    ensures ways { IfOk result (λ e. e.ways.items ≡ ways_part text.now) }
    ensures what_if { IfOk result (λ e. e.what_if ≡ wrong_part text.now) }
    ensures strange { IfOk result (λ e. e.strange ≡ strange_line text.now) }
    ensures stray { IfOk result (λ e. e.stray ≡ stray_line text.now) }
{
    let all = lines_of(alloc, text)?;
    let lines = all.as_slice();
    let plain = plain_in(alloc, lines)?;
    let ways = ways_in(alloc, lines)?;
    Ok(Extras {
        plain,
        ways,
        what_if: wrong_in(lines),
        strange: strange_in(lines),
        stray: stray_in(lines),
    })
}
