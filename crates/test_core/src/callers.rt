//! Tests of callers, over what no text of callers says: those on two host threads, the closing of a machine, memory
//! that is too short; and on one host thread calls that stop half way (where each may stop while the other side is held
//! still, what it leaves, and how one goes on), those that wait, what is recorded.
mod acts;
mod boards;
mod calls;
mod closing;
mod held;
mod hosts;
mod making;
mod passes;
mod phases;
mod refused_rows;
mod rows;
mod stops;
mod table;
mod thread_rows;
mod threads;
