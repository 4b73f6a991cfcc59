//! Orders of scenarios' callers: all of them, one by itself, and the answers of the steps over all of them.
ghost use Rattle.std.specs.Prelude.{◌≡◌, ◌<◌, true};
ghost use Rattle.lab_orders.specs.Tallies.{told_weight};
ghost use Rattle.lab_orders.specs.Weights.{count_limit};

use lab_orders::{Tally, put_answers, put_head};
use lab_scenario_orders::{
    NoCallbacks, OrderFault, ask_alone, is_stuck, leaving, outcomes_of, play_order, read_ask,
    read_callers, read_order, write_report,
};
use std::alloc::Global;

// Two locks, which two threads take in opposite orders.
const TWO_LOCKS: &str = "[board]\nthreads = 3\nsems = [1, 1]\n
[[setup]]\ndo = \"attach\"\nwho = 1\npolicy = \"fifo 10\"\nstage = \"oob\"
[[setup]]\ndo = \"attach\"\nwho = 2\npolicy = \"fifo 10\"\nstage = \"oob\"
[[step]]\ndo = \"begin_get\"\nwho = 1\nsem = 0
[[step]]\ndo = \"finish\"\nwho = 1
[[step]]\ndo = \"begin_get\"\nwho = 1\nsem = 1
[[step]]\ndo = \"finish\"\nwho = 1
[[step]]\ndo = \"put\"\nwho = 1\nsem = 1
[[step]]\ndo = \"put\"\nwho = 1\nsem = 0
[[step]]\ndo = \"begin_get\"\nwho = 2\nsem = 1
[[step]]\ndo = \"finish\"\nwho = 2
[[step]]\ndo = \"begin_get\"\nwho = 2\nsem = 0
[[step]]\ndo = \"finish\"\nwho = 2
[[step]]\ndo = \"put\"\nwho = 2\nsem = 0
[[step]]\ndo = \"put\"\nwho = 2\nsem = 1\n";

const PUTS: &str = "[board]\nthreads = 3\nsems = [0, 0]
[[step]]\ndo = \"put\"\nwho = 1\nsem = 0
[[step]]\ndo = \"put\"\nwho = 1\nsem = 0
[[step]]\ndo = \"put\"\nwho = 2\nsem = 1
[[step]]\ndo = \"put\"\nwho = 2\nsem = 1\n";

// Two locks, which two threads take in opposite orders; both arrive, the second above the first, and go in-band at last.
const ARRIVALS: &str = "[board]\nthreads = 3\nsems = [1, 1]\n
[[step]]\ndo = \"attach\"\nwho = 1\npolicy = \"fifo 10\"\nstage = \"oob\"
[[step]]\ndo = \"begin_get\"\nwho = 1\nsem = 0
[[step]]\ndo = \"finish\"\nwho = 1
[[step]]\ndo = \"begin_get\"\nwho = 1\nsem = 1
[[step]]\ndo = \"finish\"\nwho = 1
[[step]]\ndo = \"put\"\nwho = 1\nsem = 1
[[step]]\ndo = \"put\"\nwho = 1\nsem = 0
[[step]]\ndo = \"set_stage\"\nwho = 1\nstage = \"inband\"
[[step]]\ndo = \"attach\"\nwho = 2\npolicy = \"fifo 20\"\nstage = \"oob\"
[[step]]\ndo = \"begin_get\"\nwho = 2\nsem = 1
[[step]]\ndo = \"finish\"\nwho = 2
[[step]]\ndo = \"begin_get\"\nwho = 2\nsem = 0
[[step]]\ndo = \"finish\"\nwho = 2
[[step]]\ndo = \"put\"\nwho = 2\nsem = 0
[[step]]\ndo = \"put\"\nwho = 2\nsem = 1
[[step]]\ndo = \"set_stage\"\nwho = 2\nstage = \"inband\"\n";

// A thread that waits for what another one puts, which is attached in-band, and a third that is no thread of the core.
const INBAND: &str = "[board]\nthreads = 3\nsems = [0]\n
[[setup]]\ndo = \"attach\"\nwho = 1\npolicy = \"fifo 10\"\nstage = \"oob\"
[[setup]]\ndo = \"attach\"\nwho = 2\npolicy = \"fifo 20\"\nstage = \"inband\"
[[step]]\ndo = \"begin_get\"\nwho = 1\nsem = 0
[[step]]\ndo = \"finish\"\nwho = 1
[[step]]\ndo = \"peek\"\nwho = 2\nsem = 0
[[step]]\ndo = \"put\"\nwho = 0\nsem = 0\n";

// How callers come: at any time, as threads are picked, or each going in-band at last that is out-of-band.
#[derive(Clone, Copy)]
enum Way {
    AtAnyTime,
    AsPicked,
    Leaving,
}

// How many orders the callers of a text have, how many outcomes, and how many orders end with somebody stuck.
fn counts(alloc: Global, text: &str, way: Way) -> Option<(u128, usize, u128)> {
    let mut callers = read_callers(alloc, text.as_bytes()).ok()?;
    callers.as_picked = matches!(way, Way::AsPicked);
    if matches!(way, Way::Leaving) {
        callers = leaving(alloc, callers).ok()?;
    }
    let outcomes = outcomes_of(alloc, &callers, &NoCallbacks, &[], 10_000).ok()?;
    let mut stuck: u128 = 0;
    for outcome in &outcomes.all {
        if is_stuck(outcome.told.as_str()) {
            stuck = stuck.saturating_add(outcome.count);
        }
    }
    Some((outcomes.count, outcomes.all.len(), stuck))
}

#[test]
fn two_orders_of_puts_end_alike(rt: HostRuntime) {
    assert!(rt; counts(rt.alloc(), PUTS, Way::AtAnyTime) == Some((6, 1, 0)));
}

#[test]
fn two_locks_can_end_stuck(rt: HostRuntime) {
    assert!(rt; counts(rt.alloc(), TWO_LOCKS, Way::AtAnyTime) == Some((38, 2, 18)));
}

#[test]
fn who_is_not_picked_makes_no_step(rt: HostRuntime) {
    assert!(rt; counts(rt.alloc(), ARRIVALS, Way::AtAnyTime) == Some((838, 2, 60)));
    assert!(rt; counts(rt.alloc(), ARRIVALS, Way::AsPicked) == Some((16, 2, 2)));
}

#[test]
fn who_never_goes_stays_picked(rt: HostRuntime) {
    assert!(rt; counts(rt.alloc(), TWO_LOCKS, Way::AsPicked) == Some((1, 1, 1)));
}

#[test]
fn who_leaves_is_out_of_the_way(rt: HostRuntime) {
    assert!(rt; counts(rt.alloc(), TWO_LOCKS, Way::Leaving) == Some((1, 1, 0)));
    assert!(rt; counts(rt.alloc(), ARRIVALS, Way::Leaving) == Some((16, 2, 2)));
    assert!(rt; counts(rt.alloc(), PUTS, Way::Leaving) == Some((6, 1, 0)));
}

#[test]
fn inband_threads_step_while_nobody_is_picked(rt: HostRuntime) {
    assert!(rt; counts(rt.alloc(), INBAND, Way::AtAnyTime) == Some((8, 3, 0)));
    assert!(rt; counts(rt.alloc(), INBAND, Way::AsPicked) == Some((3, 2, 2)));
}

#[test]
fn unattached_callers_step_at_any_time(rt: HostRuntime) {
    assert!(rt; counts(rt.alloc(), PUTS, Way::AsPicked) == Some((6, 1, 0)));
}

// The report of the orders of a text's callers.
fn report_of(alloc: Global, text: &str) -> Option<String> {
    let callers = read_callers(alloc, text.as_bytes()).ok()?;
    let outcomes = outcomes_of(alloc, &callers, &NoCallbacks, &[], 10_000).ok()?;
    write_report(alloc, &callers, &NoCallbacks, &[], &outcomes).ok()
}

const COUNTS: &str = "# 6 orders, 1 outcome, 9 moments\n# outcome 1: 6 orders\n";

#[test]
fn a_report_begins_with_counts(rt: HostRuntime) {
    let report = report_of(rt.alloc(), PUTS).expect(&rt, "report");
    assert!(rt; report.as_str().starts_with(COUNTS));
}

const FIRST_STUCK: &str =
    "# outcome 1: 18 orders\n# stuck: T1 waits for sem 1\n# stuck: T2 waits for sem 0\n";

#[test]
fn a_report_tells_first_who_is_stuck(rt: HostRuntime) {
    let report = report_of(rt.alloc(), TWO_LOCKS).expect(&rt, "report");
    assert!(rt; report.as_str().contains(FIRST_STUCK));
}

/// Two threads that each get a semaphore, of which there is one; nobody puts it back.
pub(super) const ONE_LEFT: &str = "[ask]\nalways_ends = true
[board]\nthreads = 3\nsems = [1]\n
[[setup]]\ndo = \"attach\"\nwho = 1\npolicy = \"fifo 10\"\nstage = \"oob\"
[[setup]]\ndo = \"attach\"\nwho = 2\npolicy = \"fifo 10\"\nstage = \"oob\"
[[step]]\ndo = \"begin_get\"\nwho = 1\nsem = 0
[[step]]\ndo = \"finish\"\nwho = 1
[[step]]\ndo = \"begin_get\"\nwho = 2\nsem = 0
[[step]]\ndo = \"finish\"\nwho = 2
";

// Why an order of these threads that is written so can't be played, if it can't.
fn fault_of(alloc: Global, text: &str) -> Option<OrderFault> {
    let Ok(callers) = read_callers(alloc, ONE_LEFT.as_bytes()) else {
        return Some(OrderFault::Memory);
    };
    match read_order(alloc, &callers, text) {
        Ok(order) => play_order(alloc, &callers, &NoCallbacks, order.as_slice()).err(),
        Err(fault) => Some(fault),
    }
}

#[test]
fn orders_are_played_as_they_are_written(rt: HostRuntime) {
    assert!(rt; fault_of(rt.alloc(), "T2 T2 T1").is_none());
    assert!(rt; fault_of(rt.alloc(), "T1 T3") == Some(OrderFault::Name(2)));
    assert!(rt; fault_of(rt.alloc(), "T1 T2 T2") == Some(OrderFault::Step(3)));
    assert!(rt; fault_of(rt.alloc(), "T1 T1 T1") == Some(OrderFault::Step(3)));
}

// How many orders there are of the callers of a text, and how many of them are against what it asks.
fn counts_alone(alloc: Global, text: &str) -> Option<(u128, u128)> {
    let callers = read_callers(alloc, text.as_bytes()).ok()?;
    let ask = read_ask(alloc, &callers, text.as_bytes()).ok()?;
    let found = ask_alone(alloc, &callers, &NoCallbacks, &ask, 100).ok()?;
    Some((found.orders, found.against))
}

#[test]
fn what_is_asked_alone_is_counted(rt: HostRuntime) {
    assert!(rt; counts_alone(rt.alloc(), ONE_LEFT) == Some((4, 4)));
}

// A thread that waits until a date for what another one puts, while time goes on.
const DEADLINE: &str = "[board]\nthreads = 3\nsems = [0]\n
[[setup]]\ndo = \"attach\"\nwho = 1\npolicy = \"fifo 10\"\nstage = \"oob\"
[[step]]\ndo = \"begin_get\"\nwho = 1\nsem = 0\nuntil = 100
[[step]]\ndo = \"finish\"\nwho = 1
[[step]]\ndo = \"put\"\nwho = 2\nsem = 0
[[step]]\ndo = \"tick\"\nwho = 0\ndelta = 100\n";

const AT_DEADLINE: &str = "# 10 orders, 2 outcomes, 13 moments
# T1 step 1: begun in 10 orders
# T1 step 2: done in 6 orders, timed out in 4 orders
# T2 step 1: done in 10 orders
# T0 step 1: done in 10 orders\n";

// One thread takes what another one waits for then.
const TAKEN: &str = "[board]\nthreads = 3\nsems = [1]\n
[[setup]]\ndo = \"attach\"\nwho = 1\npolicy = \"fifo 10\"\nstage = \"oob\"
[[step]]\ndo = \"begin_get\"\nwho = 1\nsem = 0
[[step]]\ndo = \"finish\"\nwho = 1
[[step]]\ndo = \"try_get\"\nwho = 2\nsem = 0\n";

const AT_TAKEN: &str = "# 3 orders, 2 outcomes, 7 moments
# T1 step 1: begun in 3 orders
# T1 step 2: done in 2 orders, not made in 1 order
# T2 step 1: done in 1 order, Again in 2 orders\n";

// Whether a count gives the orders of all outcomes.
fn are_counted(outcomes: &[Tally]) -> bool
    ensures { result ≡ true → told_weight (λ told. 1) outcomes.now < count_limit }
{
    let mut count: u128 = 0;
    for outcome in outcomes {
        match count.checked_add(outcome.count) {
            Some(sum) => count = sum,
            None => return false,
        }
    }
    count < u128::MAX
}

// The report of the answers of each caller's steps, below the counts.
fn told(alloc: Global, text: &str) -> Option<Vec<u8>> {
    let callers = read_callers(alloc, text.as_bytes()).ok()?;
    let found = outcomes_of(alloc, &callers, &NoCallbacks, &[], 1000).ok()?;
    let outcomes = found.all.as_slice();
    let mut text = Vec::new(alloc);
    put_head(
        alloc,
        &mut text,
        found.count,
        outcomes.len(),
        found.moments,
        found.whole,
    )
    .ok()?;
    if are_counted(outcomes) {
        for caller in callers.callers.as_slice() {
            let who = usize::from(caller.who.0);
            put_answers(alloc, &mut text, outcomes, who, caller.places.len()).ok()?;
        }
    }
    Some(text)
}

// Whether it is this.
fn tells_of_text(alloc: Global, text: &str, wanted: &str) -> bool {
    match told(alloc, text) {
        Some(told) => told.as_slice() == wanted.as_bytes(),
        None => false,
    }
}

#[test]
fn each_answer_of_a_step_has_its_orders(rt: HostRuntime) {
    assert!(rt; tells_of_text(rt.alloc(), DEADLINE, AT_DEADLINE));
}

#[test]
fn a_step_that_isnt_made_is_told_so(rt: HostRuntime) {
    assert!(rt; tells_of_text(rt.alloc(), TAKEN, AT_TAKEN));
}
