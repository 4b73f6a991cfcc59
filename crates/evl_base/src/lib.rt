//! All that layers share: stages, numbers, policies, calls, replies, plays, entries, refusals and boards, with their
//! texts.
//! All that names no source is this profile's own.
#![tactic(auto)]

mod action_kinds;
mod board;
mod call;
mod call_text;
mod calls;
mod entry;
mod fields;
mod limits;
mod mutex_kind;
mod numbers;
mod play;
mod policy;
mod refusal;
mod reply;
mod stage;
mod take;
mod texts;
mod transfer;
mod way;

pub use action_kinds::ActionKinds;
pub use board::Board;
pub use call::{Call, STEP_WORDS, StepWord};
pub use calls::{fields_in, numbered_word, reply_kind, step_word};
pub use entry::Entry;
pub use fields::{Field, Fields, Kind, Named, kind_named};
pub use limits::{LINES, MAX_THREADS};
pub use mutex_kind::MutexKind;
pub use numbers::{FlagId, LineNo, MutexId, SemId, StaxId, ThreadId, TimerId, XbufId};
pub use play::Play;
pub use policy::Policy;
pub use refusal::Refusal;
pub use reply::{Reply, ReplyKind};
pub use stage::Stage;
pub use take::Take;
pub use texts::{put_call, put_play, put_reply};
pub use transfer::{Spares, Transfer};
pub use way::{Bytes, Way};
