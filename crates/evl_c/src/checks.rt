//! The faults of a text for C, or its warnings: what `lab check` prints.
ghost use Rattle.std.specs.Prelude.{◌≡◌, ◌≢◌, ◌↔◌, ◌++◌, false, is_some, map, string_bytes, true, IfOk, IfSome, IsSomeAnd, OnErr, OnOk};
ghost use Rattle.std.specs.Str.{is_utf8};
ghost use Rattle.evl_bank.specs.Bank.{program_bank};
ghost use Rattle.evl_plans.specs.Told as callbacks;
ghost use Rattle.lab_kinds.specs.Kinds.{checked_kind};
ghost use Rattle.evl_c.specs.Checks.{Checks, ChecksText, TellsChecked, kind_warnings, place_line, place_text};
ghost use Rattle.evl_c.specs.Forms.{are_plans, handler_of};
ghost use Rattle.evl_c.specs.Statuses.{is_among, of_check, of_check_over};

use crate::forms::{PlanForm, are_plans, read_plans};
use crate::plans::program_plans;
use crate::windows::put_window;
use evl_plans::Planned;
use lab_kinds::{TextKind, checked_kind, report_kind};
use lab_lines::{LinesFault, plain_text};
use lab_warnings::warnings;
use std::alloc::{AllocError, Global};

// The words for what is wanted of a text of lines.
const NO_BOARD: &str = "a line with the board is wanted, as board threads=2 sems=[0]";

const TOO_LONG: &str = "a scenario of at most 1048576 bytes is wanted";

/// The report of a check (embed/include/evlsim/abi.h: `evlsim_checked`).
#[repr(C)]
#[derive(Clone, Copy)]
pub struct Checked {
    /// How many bytes all lines have.
    pub length: usize,
    /// Whether the lines are of faults; else they are of warnings.
    pub is_at_fault: bool,
}

// Reports the warnings of a scenario without fault; a text of another kind has none.
fn warn(
    alloc: Global,
    plans: &[Planned],
    kind: TextKind,
    name: &str,
    text: &[u8],
    told: &mut String,
) -> Result<(), AllocError>
    ensures { OnOk result (string_bytes told.new ≡ string_bytes told.old ++ kind_warnings (map callbacks.handler_of plans.now) kind name.now text.now) }
{
    match kind {
        TextKind::Scenario => {
            warnings(alloc, name, text, plans, told)?;
            Ok(())
        }
        TextKind::Orders | TextKind::Callers | TextKind::Bank => Ok(()),
    }
}

// Reports the faults of a text of a kind, or its warnings where it has none, and answers whether it has a fault.
fn tell_faults(
    alloc: Global,
    plans: &[Planned],
    kind: TextKind,
    name: &str,
    text: &[u8],
    told: &mut String,
) -> Result<bool, AllocError>
    ensures { IfOk result (Checks (map callbacks.handler_of plans.now) kind name.now text.now (string_bytes told.old) (string_bytes told.new)) }
{
    if report_kind(alloc, kind, name, text, told)? {
        return Ok(true);
    }
    warn(alloc, plans, kind, name, text, told)?;
    Ok(false)
}

// Reports a fault at a line and a byte.
fn put_at(
    told: &mut String,
    name: &str,
    line: usize,
    column: usize,
    words: &str,
) -> Result<(), AllocError>
    ensures { OnOk result (string_bytes told.new ≡ string_bytes told.old ++ place_line name.now line column words.now) }
{
    write!(told, "{name}:{line}:{column}: {words}\n")?;
    Ok(())
}

// Reports why a text of lines can't be read.
fn put_place(told: &mut String, name: &str, fault: &LinesFault) -> Result<(), AllocError>
    ensures { OnOk result (IsSomeAnd (place_text name.now fault.now) (λ line. string_bytes told.new ≡ string_bytes told.old ++ line)) }
{
    match fault {
        LinesFault::Text => put_at(told, name, 1, 1, "a text in UTF-8 is wanted"),
        LinesFault::Line(line, unread) => {
            put_at(told, name, *line, unread.column, unread.words.as_str())
        }
        LinesFault::Board => put_at(told, name, 1, 1, NO_BOARD),
        LinesFault::TooLong => put_at(told, name, 1, 1, TOO_LONG),
        LinesFault::Memory => Err(AllocError),
    }
}

// Reports the faults of a text, or its warnings where it has none, and answers whether it has a fault.
fn tell_plain(
    alloc: Global,
    plans: &[Planned],
    name: &str,
    text: &[u8],
    told: &mut String,
) -> Result<bool, AllocError>
    ensures { IfOk result (Checks (map callbacks.handler_of plans.now) (checked_kind text.now) name.now text.now (string_bytes told.old) (string_bytes told.new)) }
{
    let kind = checked_kind(alloc, text)?;
    tell_faults(alloc, plans, kind, name, text, told)
}

// Reports the faults or warnings of what a text is taken for; of a text of lines that can't be read its first fault.
fn tell_given(
    alloc: Global,
    plans: &[Planned],
    name: &str,
    given: Vec<u8>,
    told: &mut String,
) -> Result<bool, AllocError>
    ensures { IfOk result (ChecksText (map callbacks.handler_of plans.now) name.now given.items (string_bytes told.old) (string_bytes told.new)) }
{
    match plain_text(alloc, given) {
        Ok(plain) => tell_plain(alloc, plans, name, plain.as_slice(), told),
        Err(fault) => {
            put_place(told, name, &fault)?;
            Ok(true)
        }
    }
}

// Checks a text over these callbacks, and puts its lines into the buffer.
fn check_text(
    alloc: Global,
    plans: &[Planned],
    name: &str,
    text: &[u8],
    start: usize,
    out: &mut [u8],
    checked: &mut Checked,
) -> Result<(), AllocError>
    ensures told { OnOk result (TellsChecked (map callbacks.handler_of plans.now) name.now text.now start out.old out.new checked.new) }
    ensures refused { OnErr result ((out.new ≡ out.old) × (checked.new ≡ checked.old)) }
{
    let given = Vec::from_slice(alloc, text)?;
    let mut told = String::new(alloc);
    let is_at_fault = tell_given(alloc, plans, name, given, &mut told)?;
    let bytes = told.as_bytes();
    put_window(bytes, start, out);
    *checked = Checked {
        length: bytes.len(),
        is_at_fault,
    };
    Ok(())
}

// The name that these bytes are, where they are UTF-8.
fn name_in(bytes: &[u8]) -> Option<&str>
    ensures name { IfSome result (λ name. name.now ≡ bytes.now) }
    ensures utf8 { is_some result ≡ is_utf8 bytes.now }
{
    match std::str::from_utf8(bytes) {
        Ok(name) => Some(name),
        Err(_) => None,
    }
}

// The same over callbacks with these plans, for a file of a name in these bytes.
fn check_over(
    alloc: Global,
    plans: &[PlanForm],
    name: &[u8],
    text: &[u8],
    start: usize,
    out: &mut [u8],
    checked: &mut Checked,
) -> u32
    requires plans { are_plans plans.now ≡ true }
    ensures told { result ≡ 0 → TellsChecked (map handler_of plans.now) name.now text.now start out.old out.new checked.new }
    ensures named { (result ≡ 1) ↔ (is_utf8 name.now ≡ false) }
    ensures statuses { is_among of_check result ≡ true }
    ensures refused { result ≢ 0 → (out.new ≡ out.old) × (checked.new ≡ checked.old) }
{
    let Some(name) = name_in(name) else {
        return 1;
    };
    let Ok(read) = read_plans(alloc, plans) else {
        return 4;
    };
    match check_text(alloc, read.as_slice(), name, text, start, out, checked) {
        Ok(()) => 0,
        Err(_) => 4,
    }
}

// rule: Each export ends in one of the answers that it lists.
//   clauses: evlsim_c_check; evlsim_c_check_over; evlsim_c_open; evlsim_c_apply; evlsim_c_apply_bare; evlsim_c_event;
//   evlsim_c_ask; evlsim_c_trace; evlsim_c_scenario; evlsim_c_call_text; evlsim_c_refusal_text; evlsim_c_machine_open;
//   evlsim_c_try_call; evlsim_c_caller_ask; evlsim_c_caller_trace; evlsim_c_try_lock_mutex; evlsim_c_begin_lock_mutex;
//   evlsim_c_finish_lock_mutex; evlsim_c_unlock_mutex_fast; evlsim_c_try_unlock_mutex; evlsim_c_try_lock_stax;
//   evlsim_c_unlock_stax
/// Puts what `lab check` prints of a text in a file of this name, from the byte `start` on, into the buffer, as much as
/// there is room for: its faults, or of a scenario without one the warnings of a run over the program's callbacks.
///
/// 0: done. 1: the name is no UTF-8. 4: no memory. But for 0 nothing is written.
#[unsafe(no_mangle)]
pub extern "C" fn evlsim_c_check(
    alloc: Global,
    name: &[u8],
    text: &[u8],
    start: usize,
    out: &mut [u8],
    checked: &mut Checked,
) -> u32
    ensures told { result ≡ 0 → TellsChecked program_bank name.now text.now start out.old out.new checked.new }
    ensures named { (result ≡ 1) ↔ (is_utf8 name.now ≡ false) }
    ensures statuses { is_among of_check result ≡ true }
    ensures refused { result ≢ 0 → (out.new ≡ out.old) × (checked.new ≡ checked.old) }
{
    check_over(alloc, &program_plans(), name, text, start, out, checked)
}

/// The same over callbacks with these plans, at most 64. 5: a number of a plan is out of its range, it declares fewer
/// kinds than it has, or there are more than 64; it comes before 1.
#[unsafe(no_mangle)]
pub extern "C" fn evlsim_c_check_over(
    alloc: Global,
    plans: &[PlanForm],
    name: &[u8],
    text: &[u8],
    start: usize,
    out: &mut [u8],
    checked: &mut Checked,
) -> u32
    ensures told { result ≡ 0 → TellsChecked (map handler_of plans.now) name.now text.now start out.old out.new checked.new }
    ensures plans { (result ≡ 5) ↔ (are_plans plans.now ≡ false) }
    ensures named { (result ≡ 1) ↔ ((are_plans plans.now ≡ true) × (is_utf8 name.now ≡ false)) }
    ensures statuses { is_among of_check_over result ≡ true }
    ensures refused { result ≢ 0 → (out.new ≡ out.old) × (checked.new ≡ checked.old) }
{
    if !are_plans(plans) {
        return 5;
    }
    check_over(alloc, plans, name, text, start, out, checked)
}
