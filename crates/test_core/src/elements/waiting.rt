//! Semaphores, flag groups and queues in which threads wait.
use evl_base::{Refusal, Take, ThreadId};
use evl_sync::{ArrivalQueue, FlagGroup, Sem, WaitQueue};

const ONE: ThreadId = ThreadId(1);

const TWO: ThreadId = ThreadId(2);

#[test]
fn a_put_releases_the_greater_rank(rt: HostRuntime) {
    let mut sem = Sem::new(0);
    assert!(rt; !sem.begin_get(ONE, 522));
    assert!(rt; !sem.begin_get(TWO, 532));
    assert!(rt; sem.peek() == -2);
    assert!(rt; sem.put() == Ok(Some(TWO)));
    assert!(rt; sem.peek() == -1);
    sem.drop_waiter(ONE);
    assert!(rt; sem.put() == Ok(None));
    assert!(rt; sem.peek() == 1);
}

#[test]
fn a_count_has_its_bounds(rt: HostRuntime) {
    let mut sem = Sem::new(1);
    assert!(rt; sem.begin_get(ONE, 522));
    assert!(rt; sem.try_get() == Err(Refusal::Again));
    let mut full = Sem::new(2_147_483_647);
    assert!(rt; full.put() == Err(Refusal::Range));
    assert!(rt; full.peek() == 2_147_483_647);
}

#[test]
fn a_take_goes_past_waiters(rt: HostRuntime) {
    let mut group = FlagGroup::new(2);
    assert!(rt; matches!(group.begin_take(ONE, 532, Take::Exact(6)), Ok(None)));
    assert!(rt; matches!(group.begin_take(TWO, 5, Take::Of(2)), Ok(Some(2))));
    group.drop_waiter(ONE);
    assert!(rt; matches!(group.try_take(Take::Any), Err(Refusal::Again)));
}

const THREE: ThreadId = ThreadId(3);

#[test]
fn greater_ranks_go_first(rt: HostRuntime) {
    let mut queue = WaitQueue::new();
    queue.push(ONE, 522);
    queue.push(TWO, 532);
    queue.push(THREE, 522);
    assert!(rt; queue.len() == 3);
    assert!(rt; queue.head() == Some(TWO));
    assert!(rt; queue.remove(ONE));
    assert!(rt; queue.pop() == Some(TWO));
    assert!(rt; queue.pop() == Some(THREE));
    assert!(rt; queue.pop().is_none());
}

#[test]
fn arrivals_keep_their_order(rt: HostRuntime) {
    let mut queue = ArrivalQueue::new();
    queue.push(TWO);
    queue.push(ONE);
    assert!(rt; queue.head() == Some(TWO));
    assert!(rt; !queue.remove(THREE));
    assert!(rt; queue.pop() == Some(TWO));
    assert!(rt; queue.len() == 1);
}
