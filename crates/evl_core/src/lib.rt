//! The core without its callers: the table that the lock's word, the kernel's slot and the mutexes' words are in, its rule
//! and what each thread knows of it, the steps on a mutex's word, and the laws of them all.
//! All that names no source is this profile's own.
#![tactic(auto)]

mod core_lock;
mod kernel_box;
pub mod laws;
mod mutex_places;
pub mod mutex_steps;
mod views;

pub use core_lock::{
    Accepting, Awaiting, Claiming, CoreHand, CoreLock, CoreRule, CoreSeat, Forgetting, Freeing,
    GiveStep, Looking, Offering, Settling, TakeStep, Trying, TryingHeld, Unlocking,
};
pub use kernel_box::KernelBox;
pub use mutex_places::MutexPlaces;
pub use views::{Account, CorePart, CoreView, LockCall, LockReply, Made, Noted, Past, ThreadView};
