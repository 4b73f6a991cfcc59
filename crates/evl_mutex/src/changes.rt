//! The threads whose effective rank may have changed, as a call on the recorded owners notes them.
ghost use Rattle.std.specs.Prelude.{◌≡◌, ◌==◌, ◌||◌, true, ℕ};

use evl_base::ThreadId;

/// The notes that a call on the recorded owners makes of each thread whose effective rank may have changed.
pub trait RankChanges {
    ghost use Rattle.std.specs.Prelude.{ℕ, Bool};

    /// Whether a thread is noted.
    ghost is_noted: { Self → ℕ → Bool };

    /// Notes a thread; a thread that is noted stays so.
    fn note(&mut self, thread: ThreadId)
        ensures noted { (t : ℕ) → is_noted self.new t ≡ (is_noted self.old t || (t == thread.0)) };
}

/// Keeps no note: every thread counts as noted, as one whose rank may have changed.
#[derive(Drop)]
pub struct Unnoted;

impl RankChanges for Unnoted {
    ghost is_noted = { λ _ _. true };

    fn note(&mut self, _thread: ThreadId) {}
}
