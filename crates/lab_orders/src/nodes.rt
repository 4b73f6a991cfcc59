//! Moments, with the orders that lead to them.

/// A moment, with how many orders lead to one of its state.
#[derive(Drop)]
pub struct Node<M> {
    /// The moment to which the first of these orders leads.
    pub at: M,
    /// How many they are.
    pub count: u128,
    /// The first of them: who makes each step.
    pub order: Vec<u16>,
}

/// A moment that a step has just led to.
#[derive(Drop)]
pub struct Reached<M, H> {
    /// The moment.
    pub at: M,
    /// All that is at hand there.
    pub hand: H,
}
