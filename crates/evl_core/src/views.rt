//! All that each thread knows. Views are only in proofs: no value of these types is made.
use evl_base::Entry;
use evl_words::{View, WordEntry};
use std::collections::LinkedList;
use std::marker::Model;

/// The kernel's history at some moment.
pub struct Past {
    entries: LinkedList<Entry>,
}

impl Model for Past {
    ghost use Rattle.evl_kernel.specs.histories.Histories.{History};
    ghost use Rattle.evl_core.specs.accounts.Nothing.{no_history};

    ghost Value = { History };

    ghost view = { λ past. record no_history { entries = past.entries } };
}

/// All that is known of one caller: the history that it has seen, its own calls there, for how many calls it found room
/// made in the kernel, at each time that it took it, and how often it found it taken.
pub struct Account {
    pub thread: u64,
    pub seen: Past,
    pub mine: LinkedList<Entry>,
    pub found: LinkedList<u64>,
    pub lost: u64,
}

/// A token of the table, as it is read: the history of the kernel that it took, if it has one, and the accounts of its
/// threads.
pub struct CoreView {
    pub taken: Option<Past>,
    pub accounts: LinkedList<Account>,
}

/// The mutex on whose word a thread made a step since it took the kernel, and the word that it last left there.
pub struct Noted {
    pub mutex: u64,
    pub left: u64,
}

/// A step on the core's lock, as its common history has it.
pub enum LockCall {
    Take,
    Give,
}

/// How a step on the core's lock ended: a take found the kernel, or that another thread has it.
pub enum LockReply {
    Got,
    Lost,
    Done,
}

/// All that a thread knows of the core: the history of the kernel that it took, if it has one, the history that it has
/// seen, its own calls there, for how many calls it found room made in the kernel, at each time that it took it, how
/// often it found the core taken, the kernel as it was made, and what it has seen of the lock's own history.
pub struct CorePart<F> {
    pub taken: Option<Past>,
    pub seen: Past,
    pub mine: LinkedList<Entry>,
    pub found: LinkedList<u64>,
    pub lost: u64,
    pub first: F,
    pub note: Option<Noted>,
    pub lock: View<WordEntry<LockCall, LockReply>, bool>,
}

/// All that a thread knows: of the core, and of each word beside it.
pub struct ThreadView<F, M> {
    pub core: CorePart<F>,
    pub mutexes: LinkedList<M>,
}

/// A kernel as it was made.
pub struct Made<C> {
    callbacks: LinkedList<C>,
}

impl<C> Model for Made<C> {
    ghost use Rattle.evl_kernel.specs.state.KernelViews.{KernelView};
    ghost use Rattle.evl_core.specs.accounts.Nothing.{no_kernel};

    ghost Value = { KernelView C };

    ghost view = { λ made. no_kernel };
}
