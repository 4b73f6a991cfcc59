//! Laws over traces. Each is the contract of a function without a body.
ghost use Rattle.evl_shell.specs.Histories.{HistoriesPlayAgain, StaxesLeaveNoTrace};

// rule: The scenario of a legal history, played over its bank, writes exactly that history's trace, if callbacks are
//   sound and the limit suffices.
//   clauses: histories_play_again; trace_kernel; know_bank
/// The scenario of a legal history over sound callbacks, played over its bank, writes just the trace of that history:
/// each call is answered and settles as it did, and with it each line is the same.
pub fn histories_play_again()
    ensures { HistoriesPlayAgain }
{}

/// The stage exclusion locks of a board change nothing of what a kernel does: a history is legal over a board just
/// where it is legal over the same board without them, and its trace is the same.
pub fn staxes_leave_no_trace()
    ensures { StaxesLeaveNoTrace }
{}
