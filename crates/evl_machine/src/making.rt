//! Making a machine, with a caller for each thread of its board.
ghost use Rattle.std.specs.Prelude.{◌≡◌, ◌≤◌, ◌⊎◌, ◌↔◌, [], ◌∷◌, Some, false, length, IfOk, IfErr, ◌<◌, ◌+◌, map, replicate, true, vec_capacity, vec_len};
ghost use Rattle.evl_kernel.specs.state.Callbacks.{AnswersByPlan};
ghost use Rattle.evl_kernel.specs.histories.Histories.{IsLegal};
ghost use Rattle.evl_kernel.specs.state.KernelViews.{IsOpened};
ghost use Rattle.evl_kernel.specs.state.Openings.{can_open};
ghost use Rattle.evl_core.specs.accounts.Accounts.{threads_of};
ghost use Rattle.evl_core.specs.rule.Known.{first_known, mutex_count};
ghost use Rattle.evl_machine.specs.callers.Handles.{newcomers_of};
ghost use Rattle.evl_machine.specs.calls.Makings.{AreMade};
ghost use Rattle.std.specs.List.{range_with_len};
ghost use Rattle.evl_base.specs.Board.{board_fits};
ghost use Rattle.evl_core.specs.words.Homes.{AreHomes, gate_home, word_homes};
ghost use Rattle.evl_core.specs.words.MutexPlaces.{new_places};
ghost use Rattle.evl_words.specs.GateCalls.{new_seat};

use crate::actor::Actor;
use crate::caller::CallerOf;
use crate::elements::{Elements, Gates, StaxSeats};
use crate::machine::MachineOf;
use atomic_table::Table;
use evl_base::{Board, Refusal, ThreadId};
use evl_core::{CoreLock, CoreSeat, KernelBox, MutexPlaces};
use evl_kernel::KernelOf;
use evl_pipeline::Handler;
use evl_words::Deal;
use std::alloc::{AllocError, Allocator, Global};
use std::snapshot::Snapshot;

impl<C: Handler, A: Allocator> MachineOf<C, A> {
    /// A machine with a new kernel of this board, bank and limit, and a caller for each thread of the board, in the
    /// threads' order; the boxes of transferred bytes come from `boxes`. `Range` exactly where a number of the board is
    /// outside its limits, the bank has more than 64 callbacks, or `limit` is outside 1 to 1,000,000; `NoMemory` where
    /// room for the elements, the core or the callers was refused. The bank is then dropped.
    pub fn over(
        alloc: A,
        boxes: Global,
        board: Board,
        bank: Vec<C, A>,
        limit: u32,
    ) -> Result<(MachineOf<C, A>, Vec<CallerOf<C, A>, A>), Refusal>
    where
        A: Clone,
        ensures opened { IfOk result (λ m. IsOpened C.declared C.plan board bank.items limit m.0.first) }
        ensures by_plan { IfOk result (λ m. AnswersByPlan C.declared C.plan m.0.first.callbacks) }
        ensures callers { IfOk result (λ m. m.1.items ≡ newcomers_of m.0 board.threads) }
        ensures range { (result ≡ Err Refusal.Range) ↔ (can_open board (length bank.items) limit ≡ false) }
        ensures refusals { IfErr result (λ e. (e ≡ Refusal.Range) ⊎ (e ≡ Refusal.NoMemory)) }
        ensures homes { IfOk result (λ m. AreHomes board.staxes.items m.0.staxes × AreHomes (map (λ k. board.threads) board.mutexes.items) m.0.mutexes) }
    {
        let threads = board.threads;
        let parts: Result<Parts<C, A>, AllocError> = Parts::of(&alloc, &board);
        match KernelOf::over(alloc, boxes, board, bank, limit) {
            Ok(kernel) => match parts {
                Ok(parts) => {
                    let made = joined(kernel, parts, threads)?;
                    Ok(made)
                }
                Err(_) => {
                    drop(kernel);
                    Err(Refusal::NoMemory)
                }
            },
            Err(refusal) => {
                drop(parts);
                Err(refusal)
            }
        }
    }
}

// The parts of a machine beside its kernel: its elements with each thread's seats and places, room for its callers,
// and the words and the allocator of its core.
#[derive(Drop)]
struct Parts<C, A: Allocator> {
    alloc: A,
    words: Vec<u64, A>,
    elements: Elements<A>,
    callers: Vec<CallerOf<C, A>, A>,
}

impl<C, A: Allocator + Clone> Parts<C, A> {
    // The parts for a board within its limits. The last one made is that with the most parts.
    fn of(alloc: &A, board: &Board) -> Result<Parts<C, A>, AllocError>
        ensures fits { IfOk result (λ p. board_fits board.now ≡ true) }
        ensures words { IfOk result (λ p. p.words.items ≡ replicate (1 + length board.now.mutexes.items) 0) }
        ensures room { IfOk result (λ p. (p.callers.items ≡ []) × (board.now.threads ≤ vec_capacity p.callers)) }
        ensures made { IfOk result (λ p. AreMade board.now p.elements) }
    {
        if board.check().is_err() {
            return Err(AllocError);
        }
        let mutexes = board.mutexes.as_slice();
        let own = alloc.clone()?;
        let words = zeros(alloc, mutexes.len())?;
        let callers = Vec::with_capacity(alloc.clone()?, usize::from(board.threads))?;
        let elements = Elements::new(
            alloc.clone()?,
            board.staxes.as_slice(),
            mutexes,
            board.threads,
        )?;
        Ok(Parts {
            alloc: own,
            words,
            elements,
            callers,
        })
    }
}

// A machine of this new kernel and these parts, and a caller for each thread.
fn joined<C: Drop, A: Allocator + Clone>(
    kernel: KernelOf<C, A>,
    parts: Parts<C, A>,
    threads: u16,
) -> Result<(MachineOf<C, A>, Vec<CallerOf<C, A>, A>), Refusal>
    requires new { IsLegal kernel.history × (kernel.history.entries ≡ []) }
    requires threads { threads_of kernel.history ≡ threads }
    requires board { board_fits kernel.history.board ≡ true }
    requires words { parts.words.items ≡ replicate (1 + length kernel.history.board.mutexes.items) 0 }
    requires room { (parts.callers.items ≡ []) × (threads ≤ vec_capacity parts.callers) }
    requires made { AreMade kernel.history.board parts.elements }
    ensures first { IfOk result (λ m. m.0.first ≡ kernel) }
    ensures homes { IfOk result (λ m. (m.0.staxes ≡ map gate_home parts.elements.gates) × (m.0.mutexes ≡ word_homes m.0.id threads (length parts.elements.kinds.items))) }
    ensures callers { IfOk result (λ m. m.1.items ≡ newcomers_of m.0 threads) }
    ensures refusal { IfErr result (λ e. e ≡ Refusal.NoMemory) }
{
    let Parts {
        alloc,
        words,
        elements,
        callers,
    } = parts;
    match core_of(alloc, kernel, words) {
        Ok((core, root)) => Ok(with_seats(core, root, callers, elements, threads)),
        Err(_) => Err(Refusal::NoMemory),
    }
}

// The core's lock with this kernel in its slot, its words, and the token that acts for all threads.
fn core_of<C: Drop, A: Allocator + Clone>(
    alloc: A,
    kernel: KernelOf<C, A>,
    words: Vec<u64, A>,
) -> Result<(CoreLock<C, A>, CoreSeat<C, A>), AllocError>
    requires new { IsLegal kernel.history × (kernel.history.entries ≡ []) }
    requires board { board_fits kernel.history.board ≡ true }
    requires words { words.items ≡ replicate (1 + length kernel.history.board.mutexes.items) 0 }
    ensures key { IfOk result (λ m. m.0.shared.key.value ≡ kernel) }
    ensures table { IfOk result (λ m. (m.0.shared.table_id.words ≡ 1 + length kernel.history.board.mutexes.items) × (m.0.shared.table_id.slots ≡ 1) × (m.1.table_id ≡ m.0.shared.table_id)) }
    ensures root { IfOk result (λ m. m.1.me ≡ (first_known m.0.shared.key.value, [])) }
{
    let key = Snapshot::of(&kernel);
    let kernel = KernelBox::new(&alloc, kernel)?;
    let slots = one_slot(&alloc, kernel)?;
    match Table::new(alloc, words.as_slice(), slots, &key) {
        Ok(made) => Ok(made),
        Err(_) => Err(AllocError),
    }
}

// A 0 for the lock, and one for each of so many mutexes.
fn zeros<A: Allocator + Clone>(alloc: &A, mutexes: usize) -> Result<Vec<u64, A>, AllocError>
    ensures { IfOk result (λ z. z.items ≡ replicate (1 + mutexes) 0) }
{
    let mut words = vec![in alloc.clone()?; 0; mutexes]?;
    words.push(0)?;
    Ok(words)
}

// A machine of this core and these elements, and a caller for each thread.
fn with_seats<C: Drop, A: Allocator>(
    core: CoreLock<C, A>,
    root: CoreSeat<C, A>,
    mut callers: Vec<CallerOf<C, A>, A>,
    elements: Elements<A>,
    threads: u16,
) -> (MachineOf<C, A>, Vec<CallerOf<C, A>, A>)
    requires table { (core.shared.table_id.words ≡ 1 + length core.shared.key.value.history.board.mutexes.items) × (core.shared.table_id.slots ≡ 1) × (root.table_id ≡ core.shared.table_id) }
    requires root { root.me ≡ (first_known core.shared.key.value, []) }
    requires threads { threads_of core.shared.key.value.history ≡ threads }
    requires new { IsLegal core.shared.key.value.history × (core.shared.key.value.history.entries ≡ []) }
    requires room { (callers.items ≡ []) × (threads ≤ vec_capacity callers) }
    requires board { board_fits core.shared.key.value.history.board ≡ true }
    requires made { AreMade core.shared.key.value.history.board elements }
    ensures first { result.0.first ≡ core.shared.key.value }
    ensures homes { (result.0.staxes ≡ map gate_home elements.gates) × (result.0.mutexes ≡ word_homes result.0.id threads (length elements.kinds.items)) }
    ensures callers { result.1.items ≡ newcomers_of result.0 threads }
{
    let Elements {
        gates,
        kinds,
        staxes,
        places,
    } = elements;
    seat_callers(&core, root, &mut callers, &gates, staxes, places, threads);
    (
        MachineOf {
            core,
            threads,
            gates,
            kinds,
        },
        callers,
    )
}

// One slot, in which this lies. (What it consists of doesn't matter here, so that dropping it is one step.)
fn one_slot<T: Drop, A: Allocator + Clone>(
    alloc: &A,
    value: T,
) -> Result<Vec<Option<T>, A>, AllocError>
    ensures { IfOk result (λ slots. slots.items ≡ Some value ∷ []) }
{
    let mut slots = Vec::with_capacity(alloc.clone()?, 1)?;
    slots.push_reserved(Some(value));
    Ok(slots)
}

// Gives each thread's token, and its seats at the staxes and places at the mutexes, to a caller of its own.
fn seat_callers<C: Drop, A: Allocator>(
    core: &CoreLock<C, A>,
    root: CoreSeat<C, A>,
    callers: &mut Vec<CallerOf<C, A>, A>,
    gates: &Gates<A>,
    mut staxes: Vec<StaxSeats<A>, A>,
    mut places: Vec<MutexPlaces<A>, A>,
    threads: u16,
)
    requires table { (root.table_id ≡ core.now.shared.table_id) × (core.now.shared.table_id.words ≡ 1 + mutex_count core.now.shared.key.value) }
    requires first { root.me ≡ (first_known core.now.shared.key.value, []) }
    requires threads { threads_of core.now.shared.key.value.history ≡ threads }
    requires new { IsLegal core.now.shared.key.value.history × (core.now.shared.key.value.history.entries ≡ []) }
    requires room { (callers.old.items ≡ []) × (threads ≤ vec_capacity callers.old) }
    requires seats { (staxes.items ≡ map (λ k. map (λ g. new_seat g k) gates.now) (range_with_len 0 threads)) × (places.items ≡ map (new_places (mutex_count core.now.shared.key.value)) (range_with_len 0 threads)) }
    ensures { callers.new.items ≡ newcomers_of (record { id = core.now.shared.table_id; first = core.now.shared.key.value; staxes = map gate_home gates.now; mutexes = word_homes core.now.shared.table_id threads (mutex_count core.now.shared.key.value) }) threads }
{
    let mut rest = root;
    for number in 0..threads {
        let others = core.shared.split_seat::<Deal>(&mut rest);
        let thread = ThreadId(number);
        let actor = Actor::new(rest, thread, first_of(&mut staxes), first_of(&mut places));
        callers.push_reserved(CallerOf { actor });
        rest = others;
    }
}

// The first of some things is taken away.
fn first_of<S: Drop, A: Allocator>(things: &mut Vec<S, A>) -> S
    requires { 0 < vec_len things.old }
    ensures { things.old.items ≡ result ∷ things.new.items }
{
    things.remove(0)
}
