//! Effective ranks, handed on to the scheduler.
ghost use Rattle.std.specs.Prelude.{◌≡◌, ◌≢◌, ◌≤◌, ◌<◌, ◌*◌, ℕ, true, false, [], length, slice_index, slice_set};
ghost use Rattle.evl_base.specs.Limits.{thread_limit};
ghost use Rattle.evl_kernel.specs.state.ChangedThreads.{AreGivenBut, is_noted};
ghost use Rattle.evl_kernel.specs.state.ElementsViews.{owners_of};
ghost use Rattle.evl_kernel.specs.state.Records.{AreGiven, AreTold};
ghost use Rattle.evl_mutex.specs.Owners as owners;
ghost use Rattle.evl_sched.specs.Ranks.{given_to, rank_of};
ghost use Rattle.evl_sched.specs.Threads.{base_of, is_attached};

use crate::changed_threads::ChangedThreads;
use crate::elements::Elements;
use evl_base::ThreadId;
use evl_mutex::RankChanges;
use evl_sched::SchedOf;
use std::alloc::Allocator;

/// Gives each attached thread that is noted its effective rank, where it has another one. None of them is noted then.
pub(crate) fn hand_on<A: Allocator>(
    elements: &Elements<A>,
    changes: &mut ChangedThreads,
    sched: &mut SchedOf<A>,
)
    requires told { AreTold elements.now.base sched.old.sched }
    requires others { AreGivenBut (is_noted changes.old) sched.old (owners_of elements.now) }
    ensures given { AreGiven sched.new (owners_of elements.now) }
    ensures kept { sched.new.sched ≡ sched.old.sched }
    ensures none { (thread : ℕ) → is_attached sched.old.sched thread ≡ true → is_noted changes.new thread ≡ false }
{
    let words = words_of(sched);
    for word in 0..words {
        hand_word(elements, changes, word, sched);
    }
}

// How many words have the threads, 32 each.
fn words_of<A: Allocator>(sched: &SchedOf<A>) -> u16
    requires few { length sched.now.sched.seats ≤ thread_limit }
    ensures within { result ≤ 8 }
    ensures all { length sched.now.sched.seats ≤ 32 * result }
{
    let threads = sched.threads();
    ((threads + 31) / 32) as u16
}

// Gives each attached thread that is noted in a word its effective rank. None is noted there then.
#[inline(always)]
fn hand_word<A: Allocator>(
    elements: &Elements<A>,
    changes: &mut ChangedThreads,
    word: u16,
    sched: &mut SchedOf<A>,
)
    requires there { word < 8 }
    requires others { AreGivenBut (is_noted changes.old) sched.old (owners_of elements.now) }
    ensures others { AreGivenBut (is_noted changes.new) sched.new (owners_of elements.now) }
    ensures kept { sched.new.sched ≡ sched.old.sched }
    ensures none { changes.new ≡ slice_set changes.old word [] }
{
    while let Some(place) = changes.take(word) {
        let thread = ThreadId(32 * word + place);
        hand_to(sched, thread, elements.effective(thread));
    }
}

// Gives an attached thread this rank, where it has another one.
#[inline(always)]
fn hand_to<A: Allocator>(sched: &mut SchedOf<A>, thread: ThreadId, rank: u16)
    ensures given { is_attached sched.old.sched thread.0 ≡ true → rank_of sched.new thread.0 ≡ rank }
    ensures others { (t : ℕ) → t ≢ thread.0 → given_to sched.new t ≡ given_to sched.old t }
    ensures kept { sched.new.sched ≡ sched.old.sched }
{
    if let Ok(given) = sched.rank(thread) {
        if given != rank {
            sched.boost(thread, rank);
        }
    }
}

/// The recorded owners are given the base rank of a thread, which has another one, and the ranks are handed on.
pub(crate) fn base_changed<A: Allocator>(
    elements: &mut Elements<A>,
    changes: &mut ChangedThreads,
    sched: &mut SchedOf<A>,
    thread: ThreadId,
)
    requires size { length elements.old.base ≤ thread_limit }
    requires few { length sched.old.sched.seats ≤ length elements.old.base }
    requires there { thread.0 < length elements.old.base }
    requires others { (t : ℕ) → t ≢ thread.0 → slice_index elements.old.base t ≡ base_of sched.old.sched t }
    requires given { (t : ℕ) → t ≢ thread.0 → is_attached sched.old.sched t ≡ true → rank_of sched.old t ≡ owners.rank_of (owners_of elements.old) t }
    ensures size { length elements.new.base ≡ length elements.old.base }
    ensures told { AreTold elements.new.base sched.new.sched }
    ensures given { AreGiven sched.new (owners_of elements.new) }
    ensures elements { elements.new.elements ≡ elements.old.elements }
    ensures kept { sched.new.sched ≡ sched.old.sched }
{
    let rank = base_rank(sched, thread);
    changes.note(thread);
    elements.set_base(thread, rank, changes);
    hand_on(elements, changes, sched);
}

// The base rank of a thread, or 0 where it isn't attached.
fn base_rank<A: Allocator>(sched: &SchedOf<A>, thread: ThreadId) -> u16
    ensures base { result ≡ base_of sched.now.sched thread.0 }
{
    match sched.base(thread) {
        Ok(rank) => rank,
        Err(_) => 0,
    }
}
