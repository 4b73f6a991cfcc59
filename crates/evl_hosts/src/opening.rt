//! Opening a machine, with its callers kept apart.
ghost use Rattle.std.specs.Prelude.{◌≡◌, ◌⊎◌, ◌↔◌, Err, IfErr, IfOk, All, false, length, map};
ghost use Rattle.std.specs.Arc.{arc_value};
ghost use Rattle.evl_kernel.specs.state.KernelViews.{IsOpened};
ghost use Rattle.evl_kernel.specs.state.Openings.{can_open};
ghost use Rattle.evl_machine.specs.callers.Handles.{Belongs};
ghost use Rattle.evl_hosts.specs.Hosts.{AreOpened, new_host};

use crate::hosts::Host;
use crate::shared::Shared;
use evl_base::{Board, Refusal};
use evl_machine::CallerOf;
use evl_plans::Planned;
use std::alloc::{AllocError, Global};
use std::sync::Arc;

// Each of these callers, with a share of its machine.
fn apart(
    alloc: Global,
    shared: &Arc<Shared, Global>,
    callers: Vec<CallerOf<Planned, Global>>,
) -> Result<Vec<Host>, AllocError>
    requires { All (λ c. Belongs c (arc_value shared.now)) callers.items }
    ensures { IfOk result (λ hosts. hosts.items ≡ map (new_host (arc_value shared.now)) callers.items) }
{
    let mut hosts = Vec::with_capacity(alloc, callers.len())?;
    for caller in callers {
        let share = Arc::try_clone(shared)?;
        hosts.push(Host::new(alloc, share, caller))?;
    }
    Ok(hosts)
}

/// The callers of a new machine of this board, which is handed in twice, in the order of its threads: over these
/// callbacks, with a history of at most `limit` entries. `Range` exactly where a number of the board is outside its
/// limits, there are more than 64 callbacks, or `limit` is outside 1 to 1,000,000; `NoMemory` where a growth was refused.
pub fn open_hosts(
    alloc: Global,
    board: Board,
    again: Board,
    bank: Vec<Planned>,
    limit: u32,
) -> Result<Vec<Host>, Refusal>
    requires twice { again ≡ board }
    ensures opened { IfOk result (λ hosts. AreOpened board bank.items limit hosts.items) }
    ensures range { (result ≡ Err Refusal.Range) ↔ (can_open board (length bank.items) limit ≡ false) }
    ensures refusals { IfErr result (λ e. (e ≡ Refusal.Range) ⊎ (e ≡ Refusal.NoMemory)) }
{
    let (shared, callers) = Shared::new(alloc, board, again, bank, limit)?;
    let Ok(shared) = Arc::new(alloc, shared) else {
        return Err(Refusal::NoMemory);
    };
    match apart(alloc, &shared, callers) {
        Ok(hosts) => Ok(hosts),
        Err(_) => Err(Refusal::NoMemory),
    }
}
