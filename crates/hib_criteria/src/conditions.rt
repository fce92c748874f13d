// The condition that was read as a list of parts, put together. A part is here a piece of a condition, each standing
// before the conditions that it joins.
ghost use Rattle.hib_criteria.specs.Query.{IsBuilt, IsJoined, IsOnly};
ghost use Rattle.std.specs.Prelude.{IfOk};
ghost use Rattle.hib_base.specs.declared.scripts.Node.{Node};

use crate::forms::Nodes;
use hib_base::{Cell, Cells, Cond, Node, Op, Path, Seq};
use std::alloc::{AllocError, Global};

/// Conditions that stand side by side, the last one first.
type Conds = Seq<Cond>;

/// The condition of these parts; none if they aren't those of one condition.
pub fn condition(alloc: Global, nodes: Nodes) -> Result<Option<Cond>, AllocError>
    ensures { IfOk result (IsBuilt nodes) }
{
    let mut rest = nodes.into_vec();
    let mut conds = Seq::new(alloc);
    while let Some(node) = rest.pop() {
        conds = match with_node(alloc, node, conds)? {
            Some(more) => more,
            None => return Ok(None),
        };
    }
    Ok(only(conds))
}

/// The condition, if it is the only one: then all parts are joined to one whole, and none is left beside it.
fn only(conds: Conds) -> Option<Cond>
    ensures { IsOnly conds result }
{
    let mut all = conds.into_vec();
    let last = all.pop()?;
    if all.is_empty() { Some(last) } else { None }
}

/// The conditions after one part more; none if it joins more conditions than there are. Parts are taken from the last
/// one on.
fn with_node(alloc: Global, node: Node, conds: Conds) -> Result<Option<Conds>, AllocError>
    ensures { IfOk result (IsJoined node conds) }
{
    match node {
        Node::And => with_and(alloc, conds),
        Node::Or => with_or(alloc, conds),
        Node::Not => with_not(alloc, conds),
        Node::Test { op, path, cell } => with_test(op, path, cell, conds),
        Node::Among { path, cells } => with_among(path, cells, conds),
    }
}

/// Adds a comparison to the conditions.
#[tactic(auto, using(crate::proofs::Parts::parts_more))]
fn with_test(op: Op, path: Path, cell: Cell, mut conds: Conds) -> Result<Option<Conds>, AllocError>
    ensures { IfOk result (IsJoined (Node.Test op path cell) conds) }
{
    conds.push(Cond::Test { op, path, cell })?;
    Ok(Some(conds))
}

/// Adds to the conditions that a cell is one of some.
#[tactic(auto, using(crate::proofs::Parts::parts_more))]
fn with_among(path: Path, cells: Cells, mut conds: Conds) -> Result<Option<Conds>, AllocError>
    ensures { IfOk result (IsJoined (Node.Among path cells) conds) }
{
    conds.push(Cond::Among { path, cells })?;
    Ok(Some(conds))
}

/// Joins the first two conditions by `and`; none if there aren't two.
#[tactic(auto, using(crate::proofs::Parts::parts_more))]
fn with_and(alloc: Global, conds: Conds) -> Result<Option<Conds>, AllocError>
    ensures { IfOk result (IsJoined Node.And conds) }
{
    let mut all = conds.into_vec();
    let Some(first) = all.pop() else {
        return Ok(None);
    };
    let Some(second) = all.pop() else {
        return Ok(None);
    };
    all.push(Cond::And(Box::new(alloc, first)?, Box::new(alloc, second)?))?;
    Ok(Some(Seq::from_vec(all)))
}

/// Joins the first two conditions by `or`; none if there aren't two.
#[tactic(auto, using(crate::proofs::Parts::parts_more))]
fn with_or(alloc: Global, conds: Conds) -> Result<Option<Conds>, AllocError>
    ensures { IfOk result (IsJoined Node.Or conds) }
{
    let mut all = conds.into_vec();
    let Some(first) = all.pop() else {
        return Ok(None);
    };
    let Some(second) = all.pop() else {
        return Ok(None);
    };
    all.push(Cond::Or(Box::new(alloc, first)?, Box::new(alloc, second)?))?;
    Ok(Some(Seq::from_vec(all)))
}

/// Turns the first condition round; none if there is none.
#[tactic(auto, using(crate::proofs::Parts::parts_more))]
fn with_not(alloc: Global, conds: Conds) -> Result<Option<Conds>, AllocError>
    ensures { IfOk result (IsJoined Node.Not conds) }
{
    let mut all = conds.into_vec();
    let Some(first) = all.pop() else {
        return Ok(None);
    };
    all.push(Cond::Not(Box::new(alloc, first)?))?;
    Ok(Some(Seq::from_vec(all)))
}
