//! Laws of the core and of its callers. Each is the contract of a function without a body.
ghost use Rattle.evl_machine.specs.calls.Laws.{CallersAgree};

pub use evl_core::laws::{
    callers_know_one_history, core_events_keep_order, core_world_stands, free_core_is_quiet,
    free_core_is_tied, free_core_turns_no_token_away, one_world_stands, rule_is_one_world,
    takes_are_lost_to_another,
};
use evl_words::laws::holders_agree;

/// Two callers that hold one stax are on one stage, whatever its seats have done (Dovetail: stage exclusion locks).
pub fn callers_agree<C>()
    ensures { CallersAgree C }
{
    holders_agree()
}
