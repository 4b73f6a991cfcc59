//! The questions about all orders.
use super::orders::ONE_LEFT;
use crate::rows::cases;
use lab_orders::First;
use lab_scenario_orders::{
    Ask, AskFault, AskKey, Callers, FactFault, NoCallbacks, Part, first_against, first_impossible,
    is_against, near_answer, outcomes_of, read_ask, read_callers,
};
use std::alloc::Global;

// The callers of a text, and what is asked of them by another one.
fn read(alloc: Global, asked: &str) -> Result<(Callers, Ask), AskFault> {
    let Ok(callers) = read_callers(alloc, ONE_LEFT.as_bytes()) else {
        return Err(AskFault::Memory);
    };
    match read_ask(alloc, &callers, asked.as_bytes()) {
        Ok(ask) => Ok((callers, ask)),
        Err(fault) => Err(fault),
    }
}

// The first outcome that is against what is asked.
fn first(alloc: Global, asked: &str) -> Result<Option<usize>, AskFault> {
    let (callers, ask) = read(alloc, asked)?;
    match outcomes_of(
        alloc,
        &callers,
        &NoCallbacks,
        ask.watches.as_slice(),
        10_000,
    ) {
        Ok(outcomes) => Ok(first_against(&ask, outcomes.all.as_slice())),
        Err(_) => Err(AskFault::Memory),
    }
}

// Questions, and the first outcome that is against them.
const FIRST: [(&str, Option<usize>); 7] = cases![
    "" => None;
    "[ask]\nalways_ends = true\n" => Some(0);
    "[ask]\nends_waits = true\n" => Some(0);
    "[ask]\nends_waits = false\n" => None;
    "[ ask ]\nnever = [\"T2  ->  done \"]\n" => Some(1);
    "[ask]\nnever = [\"T1 -> timed out\"]\n" => None;
    "[ask]\nnever = [\n\"T2 -> done\",\n]\n" => Some(1);
];

#[test]
fn what_is_told_of_outcomes_is_asked(rt: HostRuntime) {
    for (asked, wanted) in FIRST {
        assert!(rt; first(rt.alloc(), asked) == Ok(wanted));
    }
}

// Whether this order is reported.
fn is_after(first: &First, order: &[u16]) -> bool {
    match first {
        First::After(found) => found.as_slice() == order,
        First::Nowhere => false,
    }
}

// Whether just the first two of what is asked are found, after these orders.
fn is_found(alloc: Global, asked: &str, orders: [&[u16]; 2]) -> bool {
    let Ok((callers, ask)) = read(alloc, asked) else {
        return false;
    };
    let watches = ask.watches.as_slice();
    let Ok(outcomes) = outcomes_of(alloc, &callers, &NoCallbacks, watches, 10_000) else {
        return false;
    };
    match outcomes.firsts.as_slice() {
        [one, other, First::Nowhere] => is_after(one, orders[0]) && is_after(other, orders[1]),
        _ => false,
    }
}

#[test]
fn each_moment_is_asked(rt: HostRuntime) {
    let asked =
        "[ask]\nalways = [\"sem 0 count > -2\"]\nnever_state = [\"T2 waits for sem 0\"]\nsometimes = [\"T1 waits and sem 0 count < 0\"]\n";
    assert!(rt; is_found(rt.alloc(), asked, [&[0, 1], &[1, 0]]));
}

// Whether what is asked means each of these reports, or doesn't.
fn means(alloc: Global, asked: &str, reports: &[(&str, bool)]) -> bool {
    let Ok((_, ask)) = read(alloc, asked) else {
        return false;
    };
    for (told, wanted) in reports {
        if is_against(&ask, told) != *wanted {
            return false;
        }
    }
    true
}

// Reports of which some have an answer of the first caller that is done.
const ONE_ANSWER: [(&str, bool); 4] = cases![
    "T1 -> done\n" => true;
    "T2 -> begun\nT1 -> begun -> done -> Busy\n" => true;
    "T11 -> done\nT2 -> done\nT1 -> done not\n" => false;
    "stuck: T1 waits\nT1\n" => false;
];

#[test]
fn just_one_answer_of_a_caller_is_meant(rt: HostRuntime) {
    assert!(rt; means(rt.alloc(), "[ask]\nnever = [\"T1 -> done\"]\n", &ONE_ANSWER));
}

// Whether it is asked for orders as threads are picked.
fn is_as_picked(alloc: Global, asked: &str) -> bool {
    match read(alloc, asked) {
        Ok((_, ask)) => ask.as_picked,
        Err(_) => false,
    }
}

#[test]
fn orders_as_threads_are_picked_are_asked_for(rt: HostRuntime) {
    assert!(rt; is_as_picked(rt.alloc(), "[ask]\nas_picked = true\n"));
    assert!(rt; !is_as_picked(rt.alloc(), "[ask]\nas_picked = false\nalways_ends = true\n"));
    assert!(rt; !is_as_picked(rt.alloc(), "[ask]\nalways_ends = true\n"));
}

// Reports of which some have a line that says that a thread waits.
const WAITS: [(&str, bool); 4] = cases![
    "T1 waits for sem 0\n" => true;
    "T2 -> begun\nT12 waits\n" => true;
    "T1 -> begun\nstuck: T1 waits for mutex 0\n" => true;
    "stuck: T1 isn't picked\nT1 -> begun -> done\nmutex 0: owner T1, 2 wait\n" => false;
];

#[test]
fn waits_at_the_end_are_asked_for(rt: HostRuntime) {
    assert!(rt; means(rt.alloc(), "[ask]\nends_waits = true\n", &WAITS));
}

// The answer that the first impossible one of its caller may mean, or nothing; `None` where each is possible.
fn meant(alloc: Global, asked: &str) -> Option<&'static str> {
    let (callers, ask) = read(alloc, asked).ok()?;
    let never = first_impossible(alloc, &callers, &ask).ok()??;
    Some(near_answer(alloc, &callers, never).ok()?.unwrap_or(""))
}

// Questions, and what may be meant by an answer that can't be.
const MEANT: [(&str, Option<&str>); 10] = cases![
    "[ask]\nnever = [\"T1 -> timedout\"]\n" => Some("timed out");
    "[ask]\nnever = [\"T1 -> timed  out\"]\n" => Some("timed out");
    "[ask]\nnever = [\"T2 -> Done\"]\n" => Some("done");
    "[ask]\nnever = [\"T2 -> invalid\"]\n" => Some("Invalid");
    "[ask]\nnever = [\"T1 -> count 1\"]\n" => Some("");
    "[ask]\nnever = [\"T1 -> bits 01\"]\n" => Some("");
    "[ask]\nnever = [\"T1 -> done\", \"T1 -> next 2 more\"]\n" => Some("");
    "[ask]\nnever = [\"T1 -> timed out\", \"T2 -> Deadlock\"]\n" => None;
    "[ask]\nnever = [\"T1 -> bits 4\", \"T1 -> bytes 0a\"]\n" => None;
    "[ask]\nnever = []\n" => None;
];

#[test]
fn answers_that_no_step_can_have_are_told(rt: HostRuntime) {
    for (asked, wanted) in MEANT {
        assert!(rt; meant(rt.alloc(), asked) == wanted);
    }
}

// Questions, and why they can't be read.
const REFUSED: [(&str, AskFault); 15] = cases![
    "[ask]\nnever = [\"T1 -> done\", \"T7 -> done\"]\n" => AskFault::Never(2);
    "[ask]\nnever = [\"T1 -> begun -> done\"]\n" => AskFault::Never(1);
    "[ask]\nnever = [\"T1\"]\n" => AskFault::Never(1);
    "[ask]\nalways = true\n" => AskFault::Key(AskKey::Always, Some(2));
    "[ask]\nalways_ends = 1\n" => AskFault::Key(AskKey::AlwaysEnds, Some(2));
    "[board]\nends_waits = 1\n[ ask ]\n\nends_waits = 0 # so\n" => AskFault::Key(AskKey::EndsWaits, Some(5));
    "[ask]\nas_picked = \"true\"\n" => AskFault::Key(AskKey::AsPicked, Some(2));
    "[ask]\nalways_ends = true\n as_pickd = true\n" => AskFault::Key(AskKey::Other, Some(3));
    "[ask]\nnever = \"T1 -> done\"\n" => AskFault::Key(AskKey::Never, Some(2));
    "[ask]\nnever = [1]\n" => AskFault::Key(AskKey::Never, Some(2));
    "[ask]\noutcomes = -1\n" => AskFault::Key(AskKey::Outcomes, Some(2));
    "[ask]\nnever_state = [\"T1 picked\", \"T1 waits  for sem 0\"]\n" =>
        AskFault::Facts(AskKey::NeverState, 2, FactFault::Unread(None), Some(2));
    "[ask]\nalways_ends = true\nsometimes = [\"T1 redy and not T2 ready\"]\n" =>
        AskFault::Facts(AskKey::Sometimes, 1, FactFault::Unread(Some("ready")), Some(3));
    "[ask]\nalways = [\"sem 0 count < 2 and T3 oob\"]\n" =>
        AskFault::Facts(AskKey::Always, 1, FactFault::Lacking(Part::Thread), Some(2));
    "[ask]\nnever = [\n" => AskFault::Table;
];

#[test]
fn what_cant_be_asked_is_refused(rt: HostRuntime) {
    for (asked, fault) in REFUSED {
        assert!(rt; read(rt.alloc(), asked).err() == Some(fault));
    }
}
