//! Texts of callers, split.
use lab_scenario_orders::split_text;
use std::alloc::Global;

// A text, and what it is split into: a scenario, and what is asked.
type Row = (&'static str, &'static str, &'static str);

// Whether a row's text is split so, of which one step is set up, before all others.
fn is_split_so(alloc: Global, (text, scenario, ask): Row) -> bool {
    let Ok(split) = split_text(alloc, text) else {
        return false;
    };
    let parts = split.scenario.as_str() == scenario && split.ask.as_str() == ask;
    parts && split.setup == 1 && !split.is_mixed
}

const SET_UP: Row = (
    "[board]\n[[setup]] # one\ndo = 1\n[[step]]\ndo = 2\n",
    "[board]\n[[step]]\ndo = 1\n[[step]]\ndo = 2\n",
    "",
);

#[test]
fn steps_that_are_set_up_become_steps(rt: HostRuntime) {
    assert!(rt; is_split_so(rt.alloc(), SET_UP));
}

const SPACED: Row = (
    "[ board ]\n[[ setup ]]\ndo = 1\n[[\tstep ]] # two\ndo = 2\n[ ask ]\na = 1\n",
    "[ board ]\n[[step]]\ndo = 1\n[[\tstep ]] # two\ndo = 2\n",
    "[ ask ]\na = 1\n",
);

#[test]
fn blanks_may_stand_within_the_brackets_of_a_head(rt: HostRuntime) {
    assert!(rt; is_split_so(rt.alloc(), SPACED));
}

#[test]
fn a_step_before_the_setup_is_told(rt: HostRuntime) {
    let split = split_text(rt.alloc(), "[[step]]\n[[setup]]\n");
    assert!(rt; matches!(&split, Ok(split) if split.is_mixed));
}

const ASKED: Row = (
    "[board]\n[ask] # so\nnever = []\n[[setup]]\n[[step]]\n [ask]\na = 1\n",
    "[board]\n[[step]]\n[[step]]\n",
    "[ask] # so\nnever = []\n [ask]\na = 1\n",
);

#[test]
fn what_is_asked_stands_apart(rt: HostRuntime) {
    assert!(rt; is_split_so(rt.alloc(), ASKED));
}
