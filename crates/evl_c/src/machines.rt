//! Makes machines for C, with their callers, and frees callers.
ghost use Rattle.std.specs.Prelude.{◌≡◌, ◌≢◌, ◌↔◌, ◌∷◌, [], IfNone, IfSome, None, OnOk, OnSome, Some, false, length, map, true};
ghost use Rattle.evl_c.specs.Forms.{are_plans, handler_of};
ghost use Rattle.evl_c.specs.HostCalls.{AreFresh, are_free, can_be_opened, host_held, is_whole_board, machine_board};
ghost use Rattle.evl_c.specs.Statuses.{is_among, of_machine};

use crate::boards::{BoardForm, is_board, read_board, read_list};
use crate::forms::{PlanForm, are_plans, read_plans};
use crate::host_handles::HostHandle;
use evl_base::{Board, Refusal};
use evl_hosts::{Host, open_hosts};
use std::alloc::{AllocError, Global};

// The board of a form, with staxes of these limits.
fn with_staxes(form: &BoardForm<'_>, staxes: &[u16]) -> Option<Board>
    ensures board { IfSome result (λ board. board ≡ machine_board form.now staxes.now) }
    ensures some { OnSome result (is_whole_board form.now staxes.now ≡ true) }
    ensures none { IfNone result (is_whole_board form.now staxes.now ≡ false) }
{
    if is_board(form) && staxes.len() <= 16 {
        let mut board = read_board(form);
        board.staxes = read_list(staxes);
        Some(board)
    } else {
        None
    }
}

// Frees each caller that is there.
fn free_all(alloc: Global, callers: &mut [HostHandle])
    ensures free { are_free callers.new }
    ensures count { length callers.new ≡ length callers.old }
{
    for place in 0..callers.len() {
        callers[place].free(alloc);
    }
}

// Puts a caller into a handle, in place of the one that was there.
fn put_one(alloc: Global, host: Host, caller: &mut HostHandle) -> Result<(), AllocError>
    ensures { OnOk result (host_held caller.new ≡ Some host) }
{
    caller.free(alloc);
    caller.put(Box::new(alloc, host)?);
    Ok(())
}

// Puts callers into as many handles.
fn put_all(alloc: Global, hosts: Vec<Host>, callers: &mut [HostHandle]) -> Result<(), AllocError>
    requires each { length hosts.items ≡ length callers.old }
    ensures put { OnOk result (map host_held callers.new ≡ map (λ h. Some h) hosts.items) }
    ensures count { length callers.new ≡ length callers.old }
{
    let mut place = 0;
    for host in hosts {
        put_one(alloc, host, &mut callers[place])?;
        place += 1;
    }
    Ok(())
}

/// Makes a machine of a board with staxes of these limits, over callbacks with these plans, with a history of at most
/// `limit` entries, and puts its callers into the handles, in the order of its threads. Callers that were there are freed.
///
/// 0: done. 2: bad board or limit. 4: no memory. 5: a plan is none, or there are more than 64. 7: there aren't as many
/// handles as threads. But for 0 no caller is there then.
#[unsafe(no_mangle)]
pub extern "C" fn evlsim_c_machine_open(
    alloc: Global,
    board: &BoardForm<'_>,
    staxes: &[u16],
    plans: &[PlanForm],
    limit: u32,
    callers: &mut [HostHandle],
) -> u32
    ensures opened { result ≡ 0 → AreFresh (machine_board board.now staxes.now) (map handler_of plans.now) limit callers.new }
    ensures fits { result ≡ 0 → can_be_opened board.now staxes.now (length plans.now) limit ≡ true }
    ensures board { result ≡ 2 → can_be_opened board.now staxes.now (length plans.now) limit ≡ false }
    ensures plans { (result ≡ 5) ↔ (are_plans plans.now ≡ false) }
    ensures numbers { (result ≡ 7) ↔ ((are_plans plans.now ≡ true) × (length callers.old ≢ board.now.threads)) }
    ensures statuses { is_among of_machine result ≡ true }
    ensures refused { result ≢ 0 → are_free callers.new }
{
    free_all(alloc, callers);
    if !are_plans(plans) {
        return 5;
    }
    if callers.len() != usize::from(board.threads) {
        return 7;
    }
    let status = open_over(alloc, board, staxes, plans, limit, callers);
    if status != 0 {
        free_all(alloc, callers);
    }
    status
}

// Makes a machine over callbacks with these plans, for as many free handles as it has threads.
fn open_over(
    alloc: Global,
    board: &BoardForm<'_>,
    staxes: &[u16],
    plans: &[PlanForm],
    limit: u32,
    callers: &mut [HostHandle],
) -> u32
    requires plans { are_plans plans.now ≡ true }
    requires count { length callers.old ≡ board.now.threads }
    ensures opened { result ≡ 0 → AreFresh (machine_board board.now staxes.now) (map handler_of plans.now) limit callers.new }
    ensures fits { result ≡ 0 → can_be_opened board.now staxes.now (length plans.now) limit ≡ true }
    ensures board { result ≡ 2 → can_be_opened board.now staxes.now (length plans.now) limit ≡ false }
    ensures statuses { is_among (0 ∷ 2 ∷ 4 ∷ []) result ≡ true }
{
    let Some(first) = with_staxes(board, staxes) else {
        return 2;
    };
    let Some(again) = with_staxes(board, staxes) else {
        return 2;
    };
    let Ok(bank) = read_plans(alloc, plans) else {
        return 4;
    };
    let hosts = match open_hosts(alloc, first, again, bank, limit) {
        Ok(hosts) => hosts,
        Err(Refusal::Range) => return 2,
        Err(_) => return 4,
    };
    match put_all(alloc, hosts, callers) {
        Ok(()) => 0,
        Err(_) => 4,
    }
}

/// Frees a caller, if one is there, and with the last one its machine.
#[unsafe(no_mangle)]
pub extern "C" fn evlsim_c_caller_close(alloc: Global, caller: &mut HostHandle)
    ensures { host_held caller.new ≡ None }
{
    caller.free(alloc);
}
