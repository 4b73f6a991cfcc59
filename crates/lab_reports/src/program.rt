//! The callbacks of the program, as their plans.
ghost use Rattle.std.specs.Prelude.{◌≡◌, ◌≤◌, ◌∷◌, [], length, map, IfOk};
ghost use Rattle.evl_bank.specs.Bank.{program_bank};
ghost use Rattle.evl_plans.specs.Plans.{of_rows};
ghost use Rattle.evl_plans.specs.Told.{handler_of};

use arrayvec::ArrayVec;
use evl_base::{FlagId, LineNo, SemId, TimerId};
use evl_pipeline::Action;
use evl_plans::Planned;
use std::alloc::{AllocError, Global};

// A callback that handles each event and asks for nothing.
fn quiet() -> Planned
    ensures { handler_of result ≡ of_rows 1 [] }
{
    Planned::of_rows(1, ArrayVec::new())
}

// A callback of one row.
fn asking(accepts: u64, every: u64, action: Action) -> Planned
    requires accepts { 1 ≤ accepts }
    requires every { 1 ≤ every }
    ensures { handler_of result ≡ of_rows accepts ((every, action) ∷ []) }
{
    let mut rows = ArrayVec::new();
    rows.push((every, action));
    Planned::of_rows(accepts, rows)
}

/// The program's eight callbacks. `AllocError` where the list couldn't grow.
pub fn program_plans(alloc: Global) -> Result<Vec<Planned>, AllocError>
    ensures bank { IfOk result (λ plans. map handler_of plans.items ≡ program_bank) }
    ensures few { IfOk result (λ plans. length plans.items ≤ 64) }
{
    Ok(vec![in alloc;
        quiet(),
        asking(1, 1, Action::PostSem(SemId(0))),
        asking(1, 2, Action::PostSem(SemId(0))),
        asking(1, 1, Action::Propagate),
        asking(1, 1, Action::PostOob(LineNo(4))),
        asking(1, 1, Action::PostFlags(FlagId(0), 1)),
        asking(2, 1, Action::StopTimer(TimerId(0))),
        quiet(),
    ]?)
}
