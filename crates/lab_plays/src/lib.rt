//! The reports of `lab play` and `lab check` on scenarios: traces, also beside those that were kept, faults, and
//! whether steps are answered as a text expects.
#![tactic(auto)]

mod checks;
mod compares;
mod expects;
mod folders;
mod notes;
mod plays;
mod states;

pub use checks::{check_files, warn};
pub use expects::{Judged, judge};
pub use notes::note_files;
pub use plays::play_files;
pub use states::tell_states;
