//! Laws of the definitions that the contracts cite.
ghost use Rattle.std.specs.Prelude.{◌≡◌, ◌≤◌, ◌↔◌, ℕ, ◌+◌, true, List, map, count_by, replicate, Some, is_some};
ghost use Rattle.evl_base.specs.Limits.{thread_limit};
ghost use mathlib.Core.Option.{some};
ghost use lib.ListN.{get_elem?};
ghost use Rattle.evl_base.specs.declared.stage.Stage.{Stage};
ghost use Rattle.atomic_table.specs.Table.{State};
ghost use Rattle.evl_words.specs.Hands.{Hand};
ghost use Rattle.evl_words.specs.GateRule.{GateRule};
ghost use Rattle.evl_words.specs.MutexRule.{MutexRule};
ghost use Rattle.evl_words.specs.Lying.{LiesInWorld};
ghost use Rattle.evl_words.specs.Machine.{Run};
ghost use Rattle.evl_words.specs.Events.{Event, Happens};
ghost use Rattle.evl_words.specs.Dealings.{DealingEvent, DealingStep, Holds, opened_dealing};
ghost use Rattle.evl_words.specs.Gate.{Gate, GateEntry, GateStep, open_gate, HasOneStage};
ghost use Rattle.evl_words.specs.GateWord.{count_in, stage_in};
ghost use Rattle.evl_words.specs.GateWorld.{GateView, GateWorld, GateDealing, GateKind, IsGateWorld, gate_steps, newcomer};
ghost use Rattle.evl_words.specs.declared.mutex.MutexRole.TheVariants.{Owner};
ghost use Rattle.evl_words.specs.MutexBits.{number_in};
ghost use Rattle.evl_words.specs.MutexWorld.{MutexView, MutexWorld, MutexDealing, MutexKind, IsMutexWorld, mutex_steps, newcomer as bystander, wins, HasIt};

/// After any legal history all holders of a gate are of one stage.
pub fn holders_have_one_stage()
    ensures { (limit : ℕ) (log : List GateEntry) (g : Gate) → Run (GateStep limit) open_gate log g → HasOneStage g }
{}

/// The laws of a gate's word and of what its seats know hold after any list of their atomic steps.
pub fn gate_events_keep_order()
    ensures { (limit : ℕ) (w t : GateWorld) (events : List (Event GateKind)) → IsGateWorld limit w → Run (Happens gate_steps) w events t → IsGateWorld limit t }
{}

// rule: The world's conditions hold after any events from the opening on; the running gate's rule is that world.
//   clauses: gate_world_stands; mutex_world_stands; gate_events_keep_order; gate_rule_is_its_world;
//   mutex_events_keep_order; mutex_rule_is_its_world
/// From the opening on it holds after any list of atomic steps, among which hands of seats are split and joined.
pub fn gate_world_stands()
    ensures { (limit seats : ℕ) → limit ≤ 1000 → (events : List (DealingEvent GateKind)) (t : GateDealing) → Run (DealingStep gate_steps) (opened_dealing (replicate seats (newcomer limit))) events t → Holds (IsGateWorld limit) t }
{}

/// The running rule of a gate's table keeps what holds of the gate's world, no less and no more: the table lies
/// as some world, with the hands of its tokens, that keeps its conditions; and any table that lies as such a world is
/// within the rule.
pub fn gate_rule_is_its_world<S>()
    ensures { (limit seats : ℕ) (s : State S (Hand GateView)) → GateRule limit seats s ↔ LiesInWorld (IsGateWorld limit) seats s }
{}

/// A gate's word counts the seats that hold the gate, and shows their stage.
pub fn word_shows_the_holders()
    ensures { (limit : ℕ) (w : GateWorld) → IsGateWorld limit w → (count_in w.word ≡ count_by (λ h. is_some h.stage) (map (λ v. v.held) w.views)) × ((k : ℕ) (v : GateView) (s : Stage) → get_elem? w.views k ≡ some v → v.held.stage ≡ Some s → s ≡ stage_in w.word) }
{}

/// Two seats that hold a gate hold it at one stage.
pub fn holders_agree()
    ensures { (limit : ℕ) (w : GateWorld) → IsGateWorld limit w → (j k : ℕ) (u v : GateView) → get_elem? w.views j ≡ some u → get_elem? w.views k ≡ some v → (s t : Stage) → u.held.stage ≡ Some s → v.held.stage ≡ Some t → s ≡ t }
{}

/// The laws of a mutex's word and of what its seats know hold after any list of their atomic steps.
pub fn mutex_events_keep_order()
    ensures { (w t : MutexWorld) (events : List (Event MutexKind)) → IsMutexWorld w → Run (Happens mutex_steps) w events t → IsMutexWorld t }
{}

/// From the opening on it holds after any list of atomic steps, among which hands of seats are split and joined.
pub fn mutex_world_stands()
    ensures { (seats : ℕ) → seats ≤ thread_limit → (events : List (DealingEvent MutexKind)) (t : MutexDealing) → Run (DealingStep mutex_steps) (opened_dealing (replicate seats (bystander seats))) events t → Holds IsMutexWorld t }
{}

/// So it is of a mutex word's table and the mutex's world.
pub fn mutex_rule_is_its_world<S>()
    ensures { (seats : ℕ) (s : State S (Hand MutexView)) → MutexRule seats s ↔ LiesInWorld IsMutexWorld seats s }
{}

/// At most one seat owns a mutex or has won it.
pub fn one_seat_has_the_mutex()
    ensures { (w : MutexWorld) → IsMutexWorld w → (j k : ℕ) (u v : MutexView) → get_elem? w.views j ≡ some u → get_elem? w.views k ≡ some v → HasIt u → HasIt v → j ≡ k }
{}

/// A mutex's word is the claim mark alone just where some seat has won the mutex.
pub fn mark_alone_shows_a_winner()
    ensures { (w : MutexWorld) → IsMutexWorld w → (w.word ≡ 2147483648) ↔ ((k : ℕ) × (v : MutexView) × (get_elem? w.views k ≡ some v) × (wins v.held.role ≡ true)) }
{}

/// A mutex's word has the number of the seat that owns it, which is the seat's and one more.
pub fn word_names_the_owner()
    ensures { (w : MutexWorld) → IsMutexWorld w → (k : ℕ) (v : MutexView) → get_elem? w.views k ≡ some v → v.held.role ≡ Owner → number_in w.word ≡ k + 1 }
{}
