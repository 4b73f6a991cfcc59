//! Cross-buffers: bytes that go between the two stages (Xenomai 4: EVL cross-buffers).
//! All that names no source is this profile's own.
#![tactic(auto)]

mod bytes;
mod laws;
mod services;
mod stream;
mod waiters;
mod xbuf;

pub use laws::{reads_follow_writes, services_go_by_arrival};
pub use services::{Service, Services};
use std::alloc::Global;
pub use waiters::{Reader, Writer};
pub use xbuf::XbufOf;

/// The cross-buffers of one kernel.
pub type Xbuf = XbufOf<Global>;
