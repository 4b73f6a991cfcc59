//! Makes kernels for C, and frees them.
ghost use Rattle.std.specs.Prelude.{◌≡◌, ◌≢◌, ◌↔◌, false, true, length, map, None, Some, IsSomeAnd};
ghost use Rattle.evl_c.specs.Boards.{board_of};
ghost use Rattle.evl_c.specs.Forms.{are_plans, handler_of};
ghost use Rattle.evl_c.specs.Handles.{kernel_held};
ghost use Rattle.evl_c.specs.Opens.{IsFresh, can_be_opened};
ghost use Rattle.evl_c.specs.Statuses.{is_among, of_open, of_reset};

use crate::boards::{BoardForm, is_board};
use crate::forms::{PlanForm, are_plans, read_plans};
use crate::handles::KernelHandle;
use crate::held::Held;
use evl_base::Refusal;
use std::alloc::Global;

// Puts a kernel into a handle. 4: no memory.
fn put_new(alloc: Global, kernel: &mut KernelHandle, new: Held) -> u32
    requires none { kernel_held kernel.old ≡ None }
    ensures put { result ≡ 0 → kernel_held kernel.new ≡ Some new }
    ensures statuses { is_among of_open result ≡ true }
    ensures refused { result ≢ 0 → (result ≡ 4) × (kernel_held kernel.new ≡ kernel_held kernel.old) }
{
    match Box::new(alloc, new) {
        Ok(made) => {
            kernel.put(made);
            0
        }
        Err(_) => 4,
    }
}

// Makes a kernel of a board over callbacks with these plans.
fn open_over(
    alloc: Global,
    board: &BoardForm<'_>,
    plans: &[PlanForm],
    limit: u32,
    kernel: &mut KernelHandle,
) -> u32
    requires plans { are_plans plans.now ≡ true }
    requires none { kernel_held kernel.old ≡ None }
    ensures opened { result ≡ 0 → IsSomeAnd (kernel_held kernel.new) (λ k. IsFresh (board_of board.now) (map handler_of plans.now) limit k) }
    ensures fits { result ≡ 0 → can_be_opened board.now (length plans.now) limit ≡ true }
    ensures board { result ≡ 2 → can_be_opened board.now (length plans.now) limit ≡ false }
    ensures plans { result ≢ 5 }
    ensures statuses { is_among of_open result ≡ true }
    ensures refused { result ≢ 0 → kernel_held kernel.new ≡ kernel_held kernel.old }
{
    if !is_board(board) {
        return 2;
    }
    let Ok(bank) = read_plans(alloc, plans) else {
        return 4;
    };
    match Held::open(alloc, board, bank, limit) {
        Ok(new) => put_new(alloc, kernel, new),
        Err(Refusal::Range) => 2,
        Err(_) => 4,
    }
}

/// Makes a kernel of a board, over callbacks with these plans, with a history of at most `limit` entries (1 to
/// 1,000,000). A kernel that was there is freed.
///
/// 0: done. 2: bad board or limit. 4: no memory. 5: a plan is none, or there are more than 64. But for 0 no kernel is
/// there then.
#[unsafe(no_mangle)]
pub extern "C" fn evlsim_c_open(
    alloc: Global,
    board: &BoardForm<'_>,
    plans: &[PlanForm],
    limit: u32,
    kernel: &mut KernelHandle,
) -> u32
    ensures opened { result ≡ 0 → IsSomeAnd (kernel_held kernel.new) (λ k. IsFresh (board_of board.now) (map handler_of plans.now) limit k) }
    ensures fits { result ≡ 0 → can_be_opened board.now (length plans.now) limit ≡ true }
    ensures board { result ≡ 2 → can_be_opened board.now (length plans.now) limit ≡ false }
    ensures plans { (result ≡ 5) ↔ (are_plans plans.now ≡ false) }
    ensures statuses { is_among of_open result ≡ true }
    ensures refused { result ≢ 0 → kernel_held kernel.new ≡ None }
{
    kernel.free(alloc);
    if !are_plans(plans) {
        return 5;
    }
    open_over(alloc, board, plans, limit, kernel)
}

/// The kernel is as `evlsim_c_open` made it, over its board, its plans and its limit: its history is empty. No memory is
/// asked for.
///
/// 0: done. 6: no kernel is there; then nothing is done.
#[unsafe(no_mangle)]
pub extern "C" fn evlsim_c_reset(alloc: Global, kernel: &mut KernelHandle) -> u32
    ensures fresh { result ≡ 0 → IsSomeAnd (kernel_held kernel.old) (λ old. IsSomeAnd (kernel_held kernel.new) (λ new. IsFresh old.history.board old.history.bank old.limit new)) }
    ensures none { (result ≡ 6) ↔ (kernel_held kernel.old ≡ None) }
    ensures statuses { is_among of_reset result ≡ true }
    ensures refused { result ≢ 0 → kernel_held kernel.new ≡ kernel_held kernel.old }
{
    let Some(mut there) = kernel.take(alloc) else {
        return 6;
    };
    there.reset();
    kernel.put(there);
    0
}

/// Frees a kernel, if one is there.
#[unsafe(no_mangle)]
pub extern "C" fn evlsim_c_close(alloc: Global, kernel: &mut KernelHandle)
    ensures { kernel_held kernel.new ≡ None }
{
    kernel.free(alloc);
}
