//! The notice of what is found in a text, as a line of JSON: its kind, place and step, and what is said of it.
ghost use Rattle.std.specs.Prelude.{◌≡◌, ◌++◌, OnOk, flat_map, map, string_bytes};
ghost use Rattle.lab_faults.specs.Told.{fault_told};
ghost use Rattle.lab_json.specs.Notices as told;
ghost use Rattle.lab_json.specs.Notices.{fault_json, kind_text, notice_json, notice_said, step_of};

use crate::texts::{put_name, put_number, put_text};
use evl_scenario::Fault;
use lab_faults::Found;
use std::alloc::{AllocError, Global};

/// A kind of what is found.
#[derive(Clone, Copy, PartialEq, Eq)]
pub enum Noticed {
    /// The text is refused for it, or a bank is.
    Fault,
    /// A step may not be meant so.
    Warning,
    /// A step is answered otherwise than the text expects.
    Unexpected,
    /// The file isn't read.
    Unread,
}

/// A thing found in a text. Lines and bytes in them are counted from 1, as are steps; each may be unknown.
#[derive(Clone, Copy)]
pub struct Notice<'a> {
    pub kind: Noticed,
    pub line: Option<u64>,
    pub byte: Option<u64>,
    pub step: Option<u64>,
    pub says: &'a str,
}

fn kind_text(kind: Noticed) -> &'static str
    ensures { result.now ≡ kind_text kind }
{
    match kind {
        Noticed::Fault => "fault",
        Noticed::Warning => "warning",
        Noticed::Unexpected => "unexpected",
        Noticed::Unread => "unread",
    }
}

// The step that a fault is of.
fn step_of(fault: Fault) -> Option<u64>
    ensures { result ≡ step_of fault }
{
    match fault {
        Fault::Step(number) => Some(u64::from(number)),
        _ => None,
    }
}

// Writes the file and the kind of a notice.
fn put_head(alloc: Global, json: &mut String, file: &str, kind: Noticed) -> Result<(), AllocError>
    ensures { OnOk result (string_bytes json.new ≡ string_bytes json.old ++ told.head_json file.now kind) }
{
    json.push_str("{\"file\": ")?;
    put_text(alloc, json, file)?;
    put_kind(json, kind)
}

// Writes a kind.
fn put_kind(json: &mut String, kind: Noticed) -> Result<(), AllocError>
    ensures { OnOk result (string_bytes json.new ≡ string_bytes json.old ++ told.kind_json kind) }
{
    let kind = kind_text(kind);
    write!(json, ", \"kind\": \"{kind}\"")
}

// Writes a number after its name.
fn put_named(json: &mut String, name: &str, number: Option<u64>) -> Result<(), AllocError>
    ensures { OnOk result (string_bytes json.new ≡ string_bytes json.old ++ told.named_json name.now number) }
{
    put_name(json, name)?;
    put_number(json, number)
}

// Writes where a notice belongs.
fn put_where(json: &mut String, notice: Notice<'_>) -> Result<(), AllocError>
    ensures { OnOk result (string_bytes json.new ≡ string_bytes json.old ++ told.where_json (notice_said notice.entry)) }
{
    put_named(json, "line", notice.line)?;
    put_named(json, "byte", notice.byte)?;
    put_named(json, "step", notice.step)
}

// Writes what is said, and the end of the line.
fn put_says(alloc: Global, json: &mut String, says: &str) -> Result<(), AllocError>
    ensures { OnOk result (string_bytes json.new ≡ string_bytes json.old ++ told.says_json says.now) }
{
    put_name(json, "says")?;
    put_text(alloc, json, says)?;
    json.push_str("}\n")
}

/// Writes a line of JSON for what was found in a file: its kind, line, byte and step, each a number or null, and what is
/// said of it. `AllocError` where memory couldn't grow.
pub fn write_notice(
    alloc: Global,
    json: &mut String,
    file: &str,
    notice: Notice<'_>,
) -> Result<(), AllocError>
    ensures { OnOk result (string_bytes json.new ≡ string_bytes json.old ++ notice_json file.now (notice_said notice.entry)) }
{
    put_head(alloc, json, file, notice.kind)?;
    put_where(json, notice)?;
    put_says(alloc, json, notice.says)
}

// Writes the line of a fault.
#[tactic(auto, unfolding(crate::specs::Notices::fault_json))]
fn write_fault(
    alloc: Global,
    json: &mut String,
    file: &str,
    found: &Found,
) -> Result<(), AllocError>
    ensures { OnOk result (string_bytes json.new ≡ string_bytes json.old ++ fault_json file.now (fault_told found.now)) }
{
    let notice = Notice {
        kind: Noticed::Fault,
        line: Some(found.place.line as u64),
        byte: Some(found.place.column as u64),
        step: step_of(found.fault),
        says: found.words.as_str(),
    };
    write_notice(alloc, json, file, notice)
}

/// Writes a line of JSON for each fault of a file's text, in order. `AllocError` where memory couldn't grow.
pub fn write_faults(
    alloc: Global,
    json: &mut String,
    file: &str,
    found: &[Found],
) -> Result<(), AllocError>
    ensures { OnOk result (string_bytes json.new ≡ string_bytes json.old ++ flat_map (fault_json file.now) (map fault_told found.now)) }
{
    for one in found {
        write_fault(alloc, json, file, one)?;
    }
    Ok(())
}
