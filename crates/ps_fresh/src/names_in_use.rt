// The numbers of the temporary names that the nodes of a valid plan use.
ghost use Rattle.std.specs.Prelude.{◌≡◌, ◌++◌, ◌<◌, Err, IfOk, List, ℕ, OnErr, OnOk, length};
ghost use Rattle.std.specs.List.{All};
ghost use Rattle.std.specs.List.Sorted.{IsStrictlyIncreasing};
ghost use Rattle.ps_frame.specs.declared.refusal.PolarsError.{PolarsError};
ghost use Rattle.ps_meaning.specs.Steps.{Name};
ghost use Rattle.valid_plans.specs.Known.{IsKnown};
ghost use Rattle.ps_fresh.specs.Collected.{AreNumbersOf};
ghost use Rattle.ps_fresh.specs.InPlans.{all_known_names, known_names};

use crate::temporary::add_names;
use ps_frame::refusal::PolarsResult;
use ps_plan::ir::IR;
use pu_base::Node;
use std::alloc::Global;
use std::collections::BTreeSet;
use valid_plans::valid::Valid;

/// Adds those of a node: of its columns, and of the table that it scans.
///
/// Fails only for want of memory.
fn add_node(alloc: Global, valid: &Valid, node: Node, taken: &mut BTreeSet<u64>) -> PolarsResult<()>
    requires known { IsKnown valid.now.schemas node }
    requires there { node.0 < length valid.now.nodes }
    ensures added { OnOk result ((names : List Name) → AreNumbersOf taken.old.keys names → AreNumbersOf taken.new.keys (names ++ known_names valid.now node.0)) }
    ensures memory { OnErr result (result ≡ Err PolarsError.OutOfMemory) }
{
    add_names(alloc, valid.schema(node), taken)?;
    match valid.ir().get(node) {
        IR::DataFrameScan { df, projection: _ } => add_names(alloc, df.schema(), taken),
        _ => Ok(()),
    }
}

/// The numbers of the temporary names at some nodes.
///
/// Fails only for want of memory.
pub(crate) fn numbers_in_use(
    alloc: Global,
    valid: &Valid,
    order: &[usize],
) -> PolarsResult<BTreeSet<u64>>
    requires known { All (λ (n : ℕ). IsKnown valid.now.schemas (record { 0 = n })) order.now }
    requires there { All (λ n. n < length valid.now.nodes) order.now }
    ensures numbers { IfOk result (λ taken. AreNumbersOf taken.keys (all_known_names valid.now order.now)) }
    ensures rising { IfOk result (λ taken. IsStrictlyIncreasing taken.keys) }
    ensures memory { OnErr result (result ≡ Err PolarsError.OutOfMemory) }
{
    let mut taken = BTreeSet::new(alloc);
    for node in order {
        add_node(alloc, valid, Node(*node), &mut taken)?;
    }
    // What a set tells of its length tells that its numbers rise, too.
    let _count = taken.len();
    Ok(taken)
}
