//! The waves of a cascade.
ghost use Rattle.std.specs.Prelude.{◌≡◌, ◌++◌, OnOk, IfOk, IfErr};
ghost use Rattle.std.specs.List.{flat_map};
ghost use Rattle.jpa_value.specs.declared.refusal.Cause.{Cause};
ghost use Rattle.jpa_work.specs.context.Undo.{now, IsPlaced};
ghost use Rattle.jpa_cascade.specs.Order.{AreSeen};
ghost use Rattle.jpa_cascade.specs.Waves as spec;

use crate::targets::push_targets;
use crate::{Node, Operation};
use jpa_model::Metamodel;
use jpa_value::{Cause, Seq, TryCopy};
use jpa_work::context::UnitOfWork;
use std::alloc::Global;
use std::collections::BTreeSet;

/// Adds those that were not seen, each once, to a list of all that were.
fn push_unseen(
    nodes: &mut Vec<Node>,
    seen: &mut BTreeSet<Node>,
    found: &[Node],
) -> Result<(), Cause>
    requires agree { AreSeen nodes.old.items seen.old }
    ensures ok { OnOk result (nodes.new.items
        ≡ nodes.old.items ++ spec.unseen nodes.old.items found.now) }
    ensures agree { OnOk result (AreSeen nodes.new.items seen.new) }
    ensures err { IfErr result (λ cause. cause ≡ Cause.OutOfMemory) }
{
    for node in found {
        if seen.insert(node.try_copy()?)? {
            nodes.push(node.try_copy()?)?;
        }
    }
    Ok(())
}

/// The targets of a wave.
fn targets_of(
    alloc: Global,
    metamodel: &Metamodel,
    work: &UnitOfWork,
    operation: Operation,
    wave: &[Node],
) -> Result<Vec<Node>, Cause>
    requires placed { IsPlaced metamodel.now (now work.now) }
    ensures ok { IfOk result (λ found. found.items
        ≡ flat_map (spec.targets metamodel.now operation (now work.now)) wave.now) }
    ensures err { IfErr result (λ cause. cause ≡ Cause.OutOfMemory) }
{
    let mut found = Vec::new(alloc);
    for node in wave {
        push_targets(metamodel, work, operation, node, &mut found)?;
    }
    Ok(found)
}

/// The nodes that an operation comes to from an object along relations that cascade it, each once:
/// the object, then wave after wave, so that those nearer it stand first (Jakarta Persistence 3.1,
/// chapter 3.2). `cascade_laws` has what the waves are.
///
/// With n nodes and k links between them it takes O(k log n) comparisons, and a look at the
/// relations of each. Fails for want of memory alone, with `OutOfMemory`.
pub fn waves(
    alloc: Global,
    metamodel: &Metamodel,
    work: &UnitOfWork,
    operation: Operation,
    start: usize,
) -> Result<Seq<Node>, Cause>
    requires placed { IsPlaced metamodel.now (now work.now) }
    ensures waves { IfOk result
        (λ nodes. nodes ≡ spec.waves metamodel.now operation (now work.now) start) }
    ensures err { IfErr result (λ cause. cause ≡ Cause.OutOfMemory) }
{
    let mut nodes = Vec::new(alloc);
    let mut seen = BTreeSet::new(alloc);
    push_unseen(&mut nodes, &mut seen, &[Node::Live(start)])?;
    let mut from = 0;
    while from < nodes.len() {
        let found = targets_of(alloc, metamodel, work, operation, &nodes[from..])?;
        from = nodes.len();
        push_unseen(&mut nodes, &mut seen, found.as_slice())?;
    }
    Ok(Seq::of(nodes))
}
