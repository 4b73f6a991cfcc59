//! Plans as C gives them.
ghost use Rattle.std.specs.Prelude.{◌≡◌, ◌≤◌, length, map, true, IfOk};
ghost use Rattle.std.specs.List.{list_all};
ghost use Rattle.evl_plans.specs.Told as callbacks;
ghost use Rattle.evl_c.specs.Forms.{action_of, are_plans, handler_of, has_action, has_rows, is_plan, is_sound_row, period_of, used_rows};

use arrayvec::ArrayVec;
use bitflags::Flags;
use evl_base::{ActionKinds, FlagId, LineNo, SemId, TimerId};
use evl_pipeline::{Action, Plan};
use evl_plans::{Planned, kind_of};
use std::alloc::{AllocError, Global};

/// A row of a plan (embed/include/evlsim/abi.h: `evlsim_row`).
#[repr(C)]
#[derive(Clone, Copy)]
pub struct RowForm {
    /// The period, 1 or more.
    pub every: u64,
    /// The action: 0 to 4.
    pub action: u8,
    /// The element of the action: a semaphore, flag group, line or timer.
    pub element: u16,
    /// The bits that are posted to a flag group.
    pub bits: u32,
}

/// A plan (embed/include/evlsim/abi.h: `evlsim_plan`).
#[repr(C)]
#[derive(Clone, Copy)]
pub struct PlanForm {
    /// Handled are the counts that this divides: 1 or more.
    pub accepts: u64,
    /// The kinds of action that it declares, as bits.
    pub kinds: u8,
    /// How many of the rows there are, 0 to 4.
    pub count: u8,
    /// The rows, of which only the first `count` are looked at.
    pub rows: [RowForm; 4],
}

// The action of a row.
fn action_of(row: &RowForm) -> Action
    ensures { result ≡ action_of row.now }
{
    match row.action {
        0 => Action::PostSem(SemId(row.element)),
        1 => Action::PostFlags(FlagId(row.element), row.bits),
        2 => Action::Propagate,
        3 => Action::PostOob(LineNo(row.element)),
        _ => Action::StopTimer(TimerId(row.element)),
    }
}

// Whether each row has an action.
fn have_actions(rows: &[RowForm]) -> bool
    ensures { result ≡ list_all has_action rows.now }
{
    rows.iter().all(|row| row.action <= 4)
}

// Whether a period is 1 or more, and these kinds have its action's.
fn is_sound_row(kinds: u8, row: &(u64, Action)) -> bool
    ensures { result ≡ is_sound_row kinds row.now }
{
    let kind = kind_of(row.1);
    1 <= row.0 && kinds & kind == kind
}

// Whether each row has a period of 1 or more, and these kinds have its action's.
fn are_sound_rows(kinds: u8, rows: &[(u64, Action)]) -> bool
    ensures { result ≡ list_all (is_sound_row kinds) rows.now }
{
    for row in rows {
        if !is_sound_row(kinds, row) {
            return false;
        }
    }
    true
}

// The rows that there are.
fn used_rows(form: &PlanForm) -> &[RowForm]
    requires { form.now.count ≤ 4 }
    ensures { result.now ≡ used_rows form.now }
{
    &form.rows[..form.count as usize]
}

// The rows of a plan.
fn read_rows(rows: &[RowForm]) -> ArrayVec<(u64, Action), 4>
    requires { length rows.now ≤ 4 }
    ensures { result.items ≡ map period_of rows.now }
{
    let mut read = ArrayVec::new();
    for row in rows {
        read.push((row.every, action_of(row)));
    }
    read
}

// Whether the rows that there are can be a plan's.
fn has_rows(form: &PlanForm) -> bool
    requires { form.now.count ≤ 4 }
    ensures { result ≡ has_rows form.now }
{
    let rows = used_rows(form);
    have_actions(rows) && are_sound_rows(form.kinds, read_rows(rows).as_slice())
}

// Whether a form is a plan: its numbers are in their ranges, and it declares the kinds of its rows.
fn is_plan(form: &PlanForm) -> bool
    ensures { result ≡ is_plan form.now }
{
    1 <= form.accepts && form.count <= 4 && has_rows(form)
}

// Whether each form is a plan.
fn is_each_plan(forms: &[PlanForm]) -> bool
    ensures { result ≡ list_all is_plan forms.now }
{
    for form in forms {
        if !is_plan(form) {
            return false;
        }
    }
    true
}

/// Whether forms are plans, and no more than a bank holds.
pub fn are_plans(forms: &[PlanForm]) -> bool
    ensures { result ≡ are_plans forms.now }
{
    forms.len() <= 64 && is_each_plan(forms)
}

// The callback that a form describes.
fn read_plan(form: &PlanForm) -> Planned
    requires { is_plan form.now ≡ true }
    ensures { callbacks.handler_of result ≡ handler_of form.now }
{
    Planned::new(
        ActionKinds::from_bits_retain(form.kinds),
        Plan {
            accepts: form.accepts,
            rows: read_rows(used_rows(form)),
        },
    )
}

/// The callbacks that forms stand for, at most 64. `AllocError` where the list couldn't grow.
pub fn read_plans(alloc: Global, forms: &[PlanForm]) -> Result<Vec<Planned>, AllocError>
    requires { are_plans forms.now ≡ true }
    ensures plans { IfOk result (λ plans. map callbacks.handler_of plans.items ≡ map handler_of forms.now) }
    ensures few { IfOk result (λ plans. length plans.items ≤ 64) }
{
    let mut plans = Vec::new(alloc);
    for form in forms {
        plans.push(read_plan(form))?;
    }
    Ok(plans)
}
