//! The staxes of a machine with each thread's seats at them, and the making of these with each thread's places at the
//! mutexes. All steps on a stax's word are made here; a contract speaks of an element's number, which is its place in
//! the list, and of its seat there.
mod dealing;
mod gate_calls;
mod gates;
mod making;
mod stax_seats;

pub(crate) use gates::Gates;
pub(crate) use making::Elements;
pub(crate) use stax_seats::StaxSeats;
