//! The callbacks of the program, as plans of C's.
ghost use Rattle.std.specs.Prelude.{◌≡◌, map, true};
ghost use Rattle.evl_bank.specs.Bank.{program_bank};
ghost use Rattle.evl_c.specs.Forms.{are_plans, handler_of, no_rows, one_row};

use crate::forms::{PlanForm, RowForm};

// A row that isn't there.
const NO_ROW: RowForm = RowForm {
    every: 0,
    action: 0,
    element: 0,
    bits: 0,
};

// A plan of no rows that handles each event.
fn quiet() -> PlanForm
    ensures { result ≡ no_rows }
{
    PlanForm {
        accepts: 1,
        kinds: 0,
        count: 0,
        rows: [NO_ROW, NO_ROW, NO_ROW, NO_ROW],
    }
}

// A plan of one row.
fn plan(accepts: u64, kinds: u8, every: u64, action: u8, element: u16, bits: u32) -> PlanForm
    ensures { result ≡ one_row accepts kinds every action element bits }
{
    let row = RowForm {
        every,
        action,
        element,
        bits,
    };
    PlanForm {
        accepts,
        kinds,
        count: 1,
        rows: [row, NO_ROW, NO_ROW, NO_ROW],
    }
}

/// The program's eight callbacks.
pub fn program_plans() -> [PlanForm; 8]
    ensures plans { are_plans result ≡ true }
    ensures bank { map handler_of result ≡ program_bank }
{
    [
        quiet(),
        plan(1, 1, 1, 0, 0, 0),
        plan(1, 1, 2, 0, 0, 0),
        plan(1, 4, 1, 2, 0, 0),
        plan(1, 8, 1, 3, 4, 0),
        plan(1, 2, 1, 1, 0, 1),
        plan(2, 16, 1, 4, 0, 0),
        quiet(),
    ]
}
