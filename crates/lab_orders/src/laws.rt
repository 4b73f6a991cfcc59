//! The laws of orders. Each is the contract of a function without a body.
ghost use Rattle.lab_orders.specs.Laws.{MergesAreOrders, OrdersAreMerges, OrdersEnd, RunsAreAllRuns, RunsAreThereOnce, SeenIsCounted};

use crate::worlds::World;

// rule: The runs of a length are exactly those that exist, each once. An order is a merge of the callers' steps; where
//   nobody ever waits each merge is an order.
//   clauses: runs_are_all_runs; runs_are_there_once; orders_end; orders_are_merges; merges_are_orders
/// The runs of so many steps are all that there are, and nothing else.
pub fn runs_are_all_runs<W: World>()
    ensures { RunsAreAllRuns W.State }
{}

/// Each of them is in their list once.
pub fn runs_are_there_once<W: World>()
    ensures { RunsAreThereOnce W.State }
{}

/// If there is no run of so many steps, the orders of fewer are all.
pub fn orders_end<W: World>()
    ensures { OrdersEnd W.State }
{}

/// If each caller has a list of steps, each order is a merge of front parts of these lists: so many steps of each
/// caller, in their order.
pub fn orders_are_merges<W: World>()
    ensures { OrdersAreMerges W.State }
{}

/// If nobody ever waits before the end of its list, each merge of front parts of the lists can be gone.
pub fn merges_are_orders<W: World>()
    ensures { MergesAreOrders W.State }
{}

/// If a world is what is seen of another one, step by step, each number of its states is counted over its orders as
/// it is over those of the other.
pub fn seen_is_counted<W: World, V: World>()
    ensures { SeenIsCounted W.State V.State }
{}
