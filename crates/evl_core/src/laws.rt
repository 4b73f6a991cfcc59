//! Laws of the core. Each is the contract of a function without a body.
ghost use Rattle.std.specs.Prelude.{◌≡◌, Option, slice_index};
ghost use Rattle.atomic_table.specs.Table.{State};
ghost use Rattle.evl_kernel.specs.state.KernelViews.{KernelView};
ghost use Rattle.evl_core.specs.worlds.Laws.{CoreEventsKeepOrder, CoreWorldStands, FreeCoreTurnsNoTokenAway, OneWorldStands, TakesAreLostToAnother};
ghost use Rattle.evl_core.specs.worlds.OneWorld.{LiesSo, OneDealing, StandsInOne};
ghost use Rattle.evl_core.specs.rule.Known.{ComesFrom, CoreHand, KeptKnown, ceilings_of, mutex_count, past_of, room_of};
ghost use Rattle.evl_core.specs.worlds.QuietCore.{LiesQuiet};
ghost use Rattle.evl_core.specs.worlds.TiedCore.{LiesTied};
ghost use Rattle.evl_core.specs.worlds.Tokens.{HasOneHistory};

/// The laws of the core's word and slot, and of what its threads know, hold after any list of their atomic steps.
pub fn core_events_keep_order<C>()
    ensures { CoreEventsKeepOrder C }
{}

// rule: The core's conditions hold after any atomic steps in which the thread that has the kernel makes no take.
//   clauses: core_world_stands; gate_world_stands; mutex_world_stands; one_world_stands; core_events_keep_order
/// From the opening on it holds after any list of atomic steps, among which hands of threads are split and joined.
pub fn core_world_stands<C>()
    ensures { CoreWorldStands C }
{}

/// From the opening of the one table on, its core's word and slot, each mutex's word, and what its threads know keep
/// their conditions after any list of atomic steps, among which hands of threads are split and joined. The one with the
/// kernel alone claims, settles, offers, frees, accepts and forgets a mutex, and tries one with a ceiling, which no
/// exchange unlocks.
pub fn one_world_stands<C>()
    ensures { OneWorldStands C }
{}

/// The running rule of a machine's table keeps what holds of the one world, no less and no more: the table lies
/// as some world, with the hands of its tokens, that keeps its conditions; and any table that lies as such a world is
/// within the rule.
pub fn rule_is_one_world<C>()
    ensures world { (first : KernelView C) → (s : State (Option (KernelView C)) (CoreHand C)) → KeptKnown first s → (d : OneDealing (KernelView C) (KernelView C)) × LiesSo s d × StandsInOne past_of room_of ComesFrom (ceilings_of first) (mutex_count first) first d }
    ensures rule { (first : KernelView C) → (s : State (Option (KernelView C)) (CoreHand C)) → (d : OneDealing (KernelView C) (KernelView C)) → LiesSo s d → StandsInOne past_of room_of ComesFrom (ceilings_of first) (mutex_count first) first d → KeptKnown first s }
{}

// rule: A thread loses a take only to another: while no other has the kernel, nothing that it may come to know within
//   the rule counts more lost takes, or fewer.
//   clauses: takes_are_lost_to_another; free_core_turns_no_token_away
//   rows: quiet_core_is_never_busy
/// A take is lost to another thread alone. Two worlds that keep their conditions and differ in what one thread knows,
/// and in words and histories as they may, agree in how many takes that thread has lost, unless another
/// thread had the kernel in the first: no step, whatever it does, counts a lost take while the core is free.
pub fn takes_are_lost_to_another<C>()
    ensures { TakesAreLostToAnother C }
{}

/// So no step of a token at a free core counts a lost take. Two states that the running rule of a machine's table
/// keeps, both with a free core, of which the second has another thread's view at one token, which acts for this thread
/// alone, agree in how many takes that thread has lost, where each thread of the board is some token's.
pub fn free_core_turns_no_token_away<C>()
    ensures { FreeCoreTurnsNoTokenAway C }
{}

/// Whenever the core of a running machine is free, the kernel lies in the slot with a legal history, and a line is
/// pending there out-of-band only while the out-of-band stage is stalled, and a timer or deadline is due only while
/// line 0 is (Dovetail: interrupt pipeline).
pub fn free_core_is_quiet<C>()
    ensures { (first : KernelView C) → (s : State (Option (KernelView C)) (CoreHand C)) → KeptKnown first s → slice_index s.words 0 ≡ 0 → LiesQuiet s.homes }
{}

/// Whenever the core of a running machine is free, the recorded owner of a mutex, if there is one, is the owner in its
/// word, owning or offered; a mutex with waiters has its mark set, and one without has a recorded owner only at a
/// ceiling, where the thread in the word is recorded; the mark is never by itself; and the word offers the mutex to
/// just the thread whose unfinished wait ended with it (Xenomai 4: EVL mutex).
pub fn free_core_is_tied<C>()
    ensures { (first : KernelView C) → (s : State (Option (KernelView C)) (CoreHand C)) → KeptKnown first s → slice_index s.words 0 ≡ 0 → LiesTied first s.words s.homes }
{}

/// Whatever the callers of a machine have done, there is one history of its kernel, which all that they know of it
/// fits: in any state that the running rule of the machine's table keeps, what is read of its tokens
/// (`CallerOf::token`) is the beginning of that history, with just the calls of its thread, and of any two one is the
/// beginning of the other.
pub fn callers_know_one_history<C>()
    ensures { (first : KernelView C) → (s : State (Option (KernelView C)) (CoreHand C)) → KeptKnown first s → HasOneHistory s }
{}
