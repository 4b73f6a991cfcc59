//! The machine of stored callbacks. These types have no `Model`, since they name the callbacks' type; each keeps, as a
//! fact, that the callbacks answer what is said of them.
ghost use Rattle.std.specs.Prelude.{◌≡◌, ◌≢◌, ◌⊎◌, ◌↔◌, ⊤, false, is_some, length, map, nat_lt, All, IfOk, IfErr, MatchOption, MatchResult};
ghost use Rattle.evl_kernel.specs.state.Callbacks.{AnswersByPlan};
ghost use Rattle.evl_kernel.specs.state.KernelViews.{IsOpened};
ghost use Rattle.evl_kernel.specs.state.Openings.{can_open};
ghost use Rattle.evl_machine.specs.callers.Handles.{Belongs, newcomers_of, returned, turned_away};
ghost use Rattle.evl_core.specs.words.Homes.{AreHomes};
ghost use Rattle.evl_core.specs.accounts.KernelCalls.{ReservesFor};
ghost use Rattle.evl_core.specs.worlds.Events.{FailsToTake, Gives, Takes};
ghost use Rattle.evl_machine.specs.calls.Calls.{CalledHeld, HoldsAtItsStage, TookKernel};
ghost use Rattle.evl_machine.specs.calls.Closings.{Closes, KeepsOpen};
ghost use Rattle.evl_machine.specs.mutex_locks.InWord.{Agrees, SaysTied};
ghost use Rattle.evl_core.specs.rule.Known.{ceilings_of, mutex_count};

use crate::caller::CallerOf;
use crate::held::HeldOf;
use crate::in_word::InWord;
use crate::machine::MachineOf;
use evl_base::{Board, Call, MutexId, Refusal, Reply};
use evl_kernel::Kernel;
use evl_pipeline::Callback;
use std::alloc::Global;
use std::ops::Deref;

/// A caller of a machine of stored callbacks.
pub type Caller = CallerOf<Callback, Global>;

type MachineCore = MachineOf<Callback, Global>;

type HeldCore<'a> = HeldOf<'a, Callback, Global>;

/// The kernel of stored callbacks under the core's lock, shared by callers on host threads. All calls of `MachineOf`
/// are its calls: it lends its machine, with the fact that they ask for.
#[derive(Drop)]
pub struct Machine {
    pub of: MachineCore,
    ghost by_plan: { AnswersByPlan (λ c. c.kinds.0) (λ c. c.plan.value) of.first.callbacks },
}

/// A caller that has the kernel. The core stays taken where it is dropped without `give`.
#[derive(Drop)]
pub struct Held<'a> {
    pub of: HeldCore<'a>,
    ghost by_plan: { AnswersByPlan (λ c. c.kinds.0) (λ c. c.plan.value) of.caller.machine.first.callbacks },
}

impl Deref for Machine {
    type Target = MachineCore;

    ghost deref_gives = { λ machine lent. (lent ≡ machine.of) × AnswersByPlan (λ c. c.kinds.0) (λ c. c.plan.value) lent.first.callbacks };

    // The machine whose calls are these, and whose callbacks answer what is said of them.
    #[inline(always)]
    fn deref(&self) -> &MachineCore {
        &self.of
    }
}

impl Machine {
    // refusals: Machine::new
    //   order: Range, NoMemory
    //   clauses: Machine::new: range
    /// A machine with a new kernel of this board, bank and limit, and a caller for each thread of the board, in the
    /// threads' order. `Range` exactly where a number of the board is outside its limits, the bank has more than 64
    /// callbacks, or `limit` is outside 1 to 1,000,000; `NoMemory` where room for the elements, the core or the callers
    /// was refused. The bank is then dropped.
    pub fn new(
        alloc: Global,
        board: Board,
        bank: Vec<Callback>,
        limit: u32,
    ) -> Result<(Machine, Vec<Caller>), Refusal>
        ensures opened { IfOk result (λ m. IsOpened (λ c. c.kinds.0) (λ c. c.plan.value) board bank.items limit m.0.of.first) }
        ensures callers { IfOk result (λ m. m.1.items ≡ newcomers_of m.0.of board.threads) }
        ensures homes { IfOk result (λ m. AreHomes board.staxes.items m.0.of.staxes × AreHomes (map (λ k. board.threads) board.mutexes.items) m.0.of.mutexes) }
        ensures range { (result ≡ Err Refusal.Range) ↔ (can_open board (length bank.items) limit ≡ false) }
        ensures refusals { IfErr result (λ e. (e ≡ Refusal.Range) ⊎ (e ≡ Refusal.NoMemory)) }
    {
        let (of, callers) = MachineOf::over(alloc, alloc, board, bank, limit)?;
        Ok((Machine { of }, callers))
    }

    /// The kernel with all that its callers did, once they are done with the machine.
    ///
    /// `Invalid` where no caller is handed in; `CoreBusy` where the core is taken, which the first caller tries to
    /// take; then `Invalid` where there are fewer callers than threads, and the first caller has given the core back.
    /// The machine and its callers then come back.
    pub fn close(self, callers: Vec<Caller>) -> Result<Kernel, (Refusal, Machine, Vec<Caller>)>
        requires { All (λ c. Belongs c self.of) callers.items }
        ensures closed { IfOk result (λ k. Closes self.of callers.items k) }
        ensures by_plan { IfOk result (λ k. AnswersByPlan (λ c. c.kinds.0) (λ c. c.plan.value) k.callbacks) }
        ensures refused { IfErr result (λ e. KeepsOpen self.of callers.items e.0 e.2.items) }
        ensures again { IfErr result (λ e. (e.1.of ≡ self.of) × All (λ c. Belongs c self.of) e.2.items) }
    {
        let Machine { of } = self;
        match of.close(callers) {
            Ok(kernel) => Ok(kernel),
            Err((refusal, of, callers)) => Err((refusal, Machine { of }, callers)),
        }
    }

    // refusals: take, Held::reserve
    //   clauses: Machine::take: taken; Held::reserve: reserved
    /// Takes the kernel for as long as the caller likes. The caller comes back only where another has it, with one lost
    /// take more.
    pub fn take(&self, caller: Caller) -> Result<Held<'_>, Caller>
        requires { Belongs caller self.now.of }
        ensures taken { MatchResult result (λ h. TookKernel caller h.of) (λ c. c ≡ turned_away c.lock caller) }
        ensures event { MatchResult result (λ h. Takes self.now.of.first caller.account caller.lock h.of.caller.account h.of.caller.lock) (λ c. FailsToTake self.now.of.first caller.account caller.lock c.account c.lock) }
    {
        match self.of.take(caller) {
            Ok(of) => Ok(Held { of }),
            Err(caller) => Err(caller),
        }
    }
}

impl<'a> Held<'a> {
    /// One call of the kernel, which is entered among all callers' calls when the kernel is given back.
    ///
    /// By what the caller has itself it is refused as `try_call` refuses it; each other answer is the kernel's, of
    /// which `NoMemory` and `HistoryFull` make no entry.
    pub fn apply(&mut self, call: Call) -> Result<Reply, Refusal>
        ensures same { self.new.of.caller ≡ self.old.of.caller }
        ensures called { CalledHeld self.old.of call result self.new.of }
    {
        self.of.apply(call)
    }

    /// Makes room for so many calls of the kernel, of whichever caller: under this take the next `calls` of `apply`
    /// answer neither `NoMemory` nor `HistoryFull`.
    pub fn reserve(&mut self, calls: usize) -> Result<(), Refusal>
        ensures same { self.new.of.caller ≡ self.old.of.caller }
        ensures reserved { ReservesFor calls self.old.of.kernel result self.new.of.kernel }
    {
        self.of.reserve(calls)
    }

    /// The kernel, to be read.
    pub fn kernel(&self) -> &Kernel
        ensures { result.now ≡ self.now.of.kernel }
    {
        self.of.kernel()
    }

    // rule: The thread that has the kernel reads a mutex's word as one tied to the record. No clause says who holds an
    //   unclaimed mutex without a ceiling.
    /// The content of a mutex's word, by one load; none where there is no such mutex. It is what the kernel records:
    /// whom it has as the owner is there, and where somebody waits, so is the mark; where nobody is recorded,
    /// a mutex with a ceiling is free.
    pub fn in_word(&mut self, mutex: MutexId) -> Option<InWord>
        ensures same { self.new.of ≡ self.old.of }
        ensures there { is_some result ≡ nat_lt mutex.0 (mutex_count self.old.of.caller.machine.first) }
        ensures agrees { MatchOption result ⊤ (Agrees self.old.of.kernel.history.state mutex.0) }
        ensures tied { MatchOption result ⊤ (SaysTied (ceilings_of self.old.of.caller.machine.first) self.old.of.kernel.history.state mutex.0) }
    {
        self.of.in_word(mutex)
    }

    /// Puts the kernel back. The caller has then seen its history.
    pub fn give(self) -> Caller
        ensures stage { HoldsAtItsStage result }
        ensures given { result ≡ returned self.entry.of.kernel.history result.lock self.entry.of.caller }
        ensures event { Gives self.entry.of.caller.machine.first self.entry.of.caller.account self.entry.of.caller.lock self.entry.of.kernel result.account result.lock }
    {
        let Held { of } = self;
        of.give()
    }
}
