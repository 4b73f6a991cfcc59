//! The simulator as a library for C. Exports' arguments, answers and refusals are in embed/include/evlsim too. Rules
//! that name no source are this profile's own.
#![tactic(auto)]

mod answers;
mod applies;
mod asks;
mod bare;
mod boards;
mod callers;
mod calls;
mod checks;
mod draws;
mod forms;
mod given;
mod handles;
mod held;
mod host_calls;
mod host_handles;
mod host_slots;
mod host_staxes;
mod machines;
mod opens;
mod order_words;
mod orders;
mod parts;
mod pictures;
mod plans;
mod plays;
mod readings;
mod slots;
mod texts;
mod verdicts;
mod windows;

pub use answers::{AnswerForm, PlayForm};
pub use applies::{evlsim_c_apply, evlsim_c_apply_bare, evlsim_c_event};
pub use asks::{evlsim_c_ask, evlsim_c_caller_ask};
pub use boards::{BoardForm, MutexForm, RingsForm};
pub use callers::evlsim_c_callers;
pub use calls::CallForm;
pub use checks::{Checked, evlsim_c_check, evlsim_c_check_over};
pub use draws::{Drawn, evlsim_c_draw, evlsim_c_draw_over};
pub use forms::{PlanForm, RowForm};
pub use handles::KernelHandle;
pub use host_calls::{
    evlsim_c_begin_lock_mutex, evlsim_c_finish_lock_mutex, evlsim_c_try_call,
    evlsim_c_try_lock_mutex, evlsim_c_try_unlock_mutex, evlsim_c_unlock_mutex_fast,
};
pub use host_handles::HostHandle;
pub use host_staxes::{evlsim_c_caller_trace, evlsim_c_try_lock_stax, evlsim_c_unlock_stax};
pub use machines::{evlsim_c_caller_close, evlsim_c_machine_open};
pub use opens::{evlsim_c_close, evlsim_c_open, evlsim_c_reset};
pub use orders::{Ordered, evlsim_c_orders};
pub use plays::{Played, evlsim_c_play, evlsim_c_play_over};
pub use readings::{QuestionForm, ReadingForm};
pub use texts::{evlsim_c_call_text, evlsim_c_scenario, evlsim_c_trace};
