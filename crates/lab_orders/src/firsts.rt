//! The first orders that lead to what is asked at each moment.
ghost use Rattle.std.specs.Prelude.{ℕ, ◌≡◌, ◌+◌, All, Contains, IfNone, IfOk, IfSome, false, length, true};
ghost use Rattle.lab_orders.specs.Firsts.{AreFirsts, IsFirst};
ghost use Rattle.lab_orders.specs.Fronts.{AreFit, IsFront};

use crate::nodes::Node;
use crate::worlds::World;
use std::alloc::{AllocError, Global};

/// The first order that leads to a moment at which a question holds.
#[derive(Drop)]
pub enum First {
    /// There is none.
    Nowhere,
    /// The caller of each step.
    After(Vec<u16>),
}

/// For each question no order yet.
pub(crate) fn no_firsts(alloc: Global, questions: usize) -> Result<Vec<First>, AllocError>
    ensures none { IfOk result (λ firsts. All (λ first. first ≡ First.Nowhere) firsts.items) }
    ensures count { IfOk result (λ firsts. length firsts.items ≡ questions) }
{
    let mut firsts = Vec::new(alloc);
    for _question in 0..questions {
        firsts.push(First::Nowhere)?;
    }
    Ok(firsts)
}

// The first of these nodes at which a question holds.
fn node_at<'a, W: World>(
    world: &W,
    question: usize,
    nodes: &'a [Node<W::Moment>],
) -> Option<&'a Node<W::Moment>>
    requires { AreFit (W.fits world.now) nodes.now }
    ensures there { IfSome result (λ node. Contains nodes.now node.now) }
    ensures so { IfSome result (λ node. W.holds world.now question (W.state world.now node.now.at) ≡ true) }
    ensures none { IfNone result (All (λ node. W.holds world.now question (W.state world.now node.at) ≡ false) nodes.now) }
{
    for node in nodes {
        if world.holds(question, &node.at) {
            return Some(node);
        }
    }
    None
}

/// The order of a node once more. `AllocError` where memory couldn't grow.
pub(crate) fn order_of<M>(alloc: Global, node: &Node<M>) -> Result<Vec<u16>, AllocError>
    ensures { IfOk result (λ order. order.items ≡ node.now.order.items) }
{
    let mut order = Vec::with_capacity(alloc, node.order.len())?;
    order.extend_from_slice(node.order.as_slice())?;
    Ok(order)
}

// The order of the first of these nodes at which a question holds, where no run of fewer steps leads to such a moment.
fn first_at<W: World>(
    alloc: Global,
    world: &W,
    question: usize,
    nodes: &[Node<W::Moment>],
) -> Result<First, AllocError>
    requires { AreFit (W.fits world.now) nodes.now }
    ensures { IfOk result (λ found. (s : W.State) (k : ℕ) (ends : _) → IsFront (W.machine world.now) (W.state world.now) (W.fits world.now) s k nodes.now ends
        → IsFirst (W.machine world.now) s (W.holds world.now question) k First.Nowhere → IsFirst (W.machine world.now) s (W.holds world.now question) (k + 1) found) }
{
    match node_at(world, question, nodes) {
        Some(node) => match order_of(alloc, node) {
            Ok(order) => Ok(First::After(order)),
            Err(error) => Err(error),
        },
        None => Ok(First::Nowhere),
    }
}

// The first order to a question, by these nodes where it wasn't found before.
fn noticed_at<W: World>(
    alloc: Global,
    world: &W,
    question: usize,
    first: First,
    nodes: &[Node<W::Moment>],
) -> Result<First, AllocError>
    requires { AreFit (W.fits world.now) nodes.now }
    ensures { IfOk result (λ found. (s : W.State) (k : ℕ) (ends : _) → IsFront (W.machine world.now) (W.state world.now) (W.fits world.now) s k nodes.now ends
        → IsFirst (W.machine world.now) s (W.holds world.now question) k first → IsFirst (W.machine world.now) s (W.holds world.now question) (k + 1) found) }
{
    match first {
        First::After(order) => Ok(First::After(order)),
        First::Nowhere => first_at(alloc, world, question, nodes),
    }
}

/// The first orders to the questions, of one step more: those of these nodes too, to which all runs of so many steps lead.
pub(crate) fn noticed<W: World>(
    alloc: Global,
    world: &W,
    firsts: Vec<First>,
    nodes: &[Node<W::Moment>],
) -> Result<Vec<First>, AllocError>
    requires { AreFit (W.fits world.now) nodes.now }
    ensures firsts { IfOk result (λ all. (s : W.State) (k : ℕ) (ends : _) → IsFront (W.machine world.now) (W.state world.now) (W.fits world.now) s k nodes.now ends
        → AreFirsts (W.machine world.now) s (W.holds world.now) k 0 firsts.items → AreFirsts (W.machine world.now) s (W.holds world.now) (k + 1) 0 all.items) }
    ensures count { IfOk result (λ all. length all.items ≡ length firsts.items) }
{
    let mut all = Vec::with_capacity(alloc, firsts.len())?;
    for first in firsts {
        let question = all.len();
        let found = noticed_at(alloc, world, question, first, nodes)?;
        all.push(found)?;
    }
    Ok(all)
}
