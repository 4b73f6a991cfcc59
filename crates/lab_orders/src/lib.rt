//! Every order in which the callers of a world may come: how many orders there are, and where they end.
//! All that names no source is this profile's own.
#![tactic(auto)]

mod counts;
mod exploring;
mod firsts;
mod laws;
mod leading;
mod levels;
mod lines;
mod nodes;
mod rows;
mod tallies;
mod worlds;

pub use exploring::{Explored, explore};
pub use firsts::First;
pub use laws::{
    merges_are_orders, orders_are_merges, orders_end, runs_are_all_runs, runs_are_there_once,
    seen_is_counted,
};
pub use leading::{Led, lead};
pub use levels::OrdersError;
pub use lines::{put_answers, put_head};
pub use nodes::{Node, Reached};
pub use tallies::{Tally, add_tally};
pub use worlds::World;
