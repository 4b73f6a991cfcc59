//! The core's table: the lock's word, 0 where the kernel is in the slot and 1 where a seat has it, and after it a word
//! for each mutex of the board.
use crate::kernel_box::KernelBox;
use crate::views::{Made, ThreadView};
use atomic_table::{Play, Seat, Table, TableRule};
use evl_kernel::KernelOf;
use evl_words::{HandOf, Handing, MutexCall, MutexHold, MutexReply, View, WordEntry};
use std::alloc::Allocator;
use std::marker::PhantomData;
use std::snapshot::Snapshot;

/// The threads that a token of the table acts for, each with what it knows: mostly one.
pub type CoreHand<C> = HandOf<
    ThreadView<Made<C>, View<WordEntry<MutexCall, MutexReply>, MutexHold>>,
>;

/// The rule of the core's table.
pub struct CoreRule<C, A> {
    of: PhantomData<(C, A)>,
}

impl<C, A: Allocator> TableRule<Option<KernelBox<C, A>>, CoreHand<C>, Snapshot<KernelOf<C, A>>>
    for CoreRule<C, A> {
    ghost use Rattle.evl_core.specs.rule.Known.{KeptKnown, first_known};

    ghost holds = { λ key. KeptKnown key.value };

    ghost first = { λ key. first_known key.value };
}

/// A seat at the core's table.
pub type CoreSeat<C, A> = Seat<Option<KernelBox<C, A>>, CoreHand<C>>;

/// The core's table: the lock's word and its slot, and a word for each mutex.
pub type CoreLock<C, A> = Table<
    Option<KernelBox<C, A>>,
    CoreHand<C>,
    Snapshot<KernelOf<C, A>>,
    CoreRule<C, A>,
    A,
>;

/// The kernel goes out to a seat, where the word is 0.
pub struct TakeStep;

impl<C, A: Allocator> Play<Option<KernelBox<C, A>>, CoreHand<C>> for TakeStep {
    ghost use Rattle.evl_core.specs.rule.Known.{took_known};

    ghost then = { took_known };
}

/// The kernel comes back from a seat.
pub struct GiveStep;

impl<C, A: Allocator> Play<Option<KernelBox<C, A>>, CoreHand<C>> for GiveStep {
    ghost use Rattle.evl_core.specs.rule.Known.{gave_known};

    ghost then = { gave_known };
}

/// The exchange of 0 for the thread's number at a mutex's word.
pub struct Trying;

impl<C, A: Allocator> Play<Option<KernelBox<C, A>>, CoreHand<C>> for Trying {
    ghost use Rattle.evl_core.specs.rule.Known.{tried_known};

    ghost then = { tried_known };
}

/// The exchange of the thread's number for 0.
pub struct Unlocking;

impl<C, A: Allocator> Play<Option<KernelBox<C, A>>, CoreHand<C>> for Unlocking {
    ghost use Rattle.evl_core.specs.rule.Known.{unlocked_known};

    ghost then = { unlocked_known };
}

/// The exchange of 0 for the thread's number, by the thread that has the kernel.
pub struct TryingHeld;

impl<C, A: Allocator> Play<Option<KernelBox<C, A>>, CoreHand<C>> for TryingHeld {
    ghost use Rattle.evl_core.specs.rule.Known.{tried_held_known};

    ghost then = { tried_held_known };
}

/// The step that sets the claim mark.
pub struct Claiming;

impl<C, A: Allocator> Play<Option<KernelBox<C, A>>, CoreHand<C>> for Claiming {
    ghost use Rattle.evl_core.specs.rule.Known.{claimed_known};

    ghost then = { claimed_known };
}

/// The swap by which a winner becomes the owner.
pub struct Settling;

impl<C, A: Allocator> Play<Option<KernelBox<C, A>>, CoreHand<C>> for Settling {
    ghost use Rattle.evl_core.specs.rule.Known.{settled_known};

    ghost then = { settled_known };
}

/// The swap by which an owner offers the mutex to a thread.
pub struct Offering<H>(PhantomData<H>);

impl<C, A: Allocator, H: Handing> Play<Option<KernelBox<C, A>>, CoreHand<C>> for Offering<H> {
    ghost use Rattle.evl_core.specs.rule.Known.{offered_known};

    ghost then = { offered_known H.next H.more };
}

/// The swap by which an owner gives the mutex to nobody.
pub struct Freeing;

impl<C, A: Allocator> Play<Option<KernelBox<C, A>>, CoreHand<C>> for Freeing {
    ghost use Rattle.evl_core.specs.rule.Known.{freed_known};

    ghost then = { freed_known };
}

/// The load by a thread that waits no more.
pub struct Forgetting;

impl<C, A: Allocator> Play<Option<KernelBox<C, A>>, CoreHand<C>> for Forgetting {
    ghost use Rattle.evl_core.specs.rule.Known.{forgot_known};

    ghost then = { forgot_known };
}

/// The load by a thread that accepts what is offered to it.
pub struct Awaiting;

impl<C, A: Allocator> Play<Option<KernelBox<C, A>>, CoreHand<C>> for Awaiting {
    ghost use Rattle.evl_core.specs.rule.Known.{awaited_known};

    ghost then = { awaited_known };
}

/// The step by which a thread accepts what is offered to it.
pub struct Accepting;

impl<C, A: Allocator> Play<Option<KernelBox<C, A>>, CoreHand<C>> for Accepting {
    ghost use Rattle.evl_core.specs.rule.Known.{accepted_known};

    ghost then = { accepted_known };
}

/// The load by a thread that looks at a mutex's word, and knows after it what it knew before.
pub struct Looking;

impl<C, A: Allocator> Play<Option<KernelBox<C, A>>, CoreHand<C>> for Looking {
    ghost use Rattle.evl_core.specs.words.Noted.{looked_known};

    ghost then = { looked_known };
}
