//! All that the parts of the lab share: their streams, the texts and the banks that they read, what they say of
//! faults, and what their words ask for.
#![tactic(auto)]

mod banks;
mod converts;
mod endings;
mod statuses;
mod streams;
mod texts;
mod words;

pub use banks::read_plans;
pub use converts::{convert, tell_place};
pub use endings::{
    as_callers, as_orders, put, tell_done, tell_fault, tell_fault_by, tell_refused, tell_unread,
};
pub use statuses::{
    AGAINST, AT_FAULT, DIFFERS, FAILED, NO_MEMORY, REFUSED, UNANSWERED, refused, status_of, worse,
};
pub use streams::{Source, Stream, Watched};
pub use texts::{Unread, called, read_file, read_text, text_in, with_line_feed};
pub use words::{
    Asked, Converting, Drawing, Driving, Form, Playing, Shown, Telling, Way, asked_of,
    converting_of, drawing_of, driving_of, playing_of,
};
