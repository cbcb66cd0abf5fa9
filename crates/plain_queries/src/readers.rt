// How long the tables of nodes are wanted.
ghost use Rattle.std.specs.Prelude.{◌≡◌, ◌≤◌, ◌<◌, ℕ, Contains, IfOk, OnErr, Err, get_or, length, map};
ghost use Rattle.std.specs.List.{All};
ghost use Rattle.ps_survey.specs.Orders.{inputs_in};
ghost use Rattle.plain_queries.specs.Readers.{IsWantedUntil};

use crate::inputs::inputs_of;
use ps_frame::refusal::{PolarsError, PolarsResult};
use ps_plan::ir::IR;
use pu_base::{Arena, Node};
use std::alloc::Global;

/// For each node the place in the order of the last node that reads it; for the root the end of the order.
///
/// Fails only for want of memory.
pub(crate) fn last_readers(
    alloc: Global,
    root: Node,
    order: &[usize],
    ir: &Arena<IR>,
) -> PolarsResult<Vec<usize>>
    requires nodes { All (λ n. n < length ir.now.items) order.now }
    requires inputs { All (λ n. All (λ m. m < length ir.now.items) (inputs_in ir.now.items n)) order.now }
    requires root { root.0 < length ir.now.items }
    ensures size { IfOk result (λ until. length until.items ≡ length ir.now.items) }
    ensures wanted { IfOk result (λ until. IsWantedUntil (inputs_in ir.now.items) order.now until.items) }
    ensures root { IfOk result (λ until. length order.now ≤ get_or until.items root.0 0) }
    ensures memory { OnErr result (result ≡ Err PolarsError.OutOfMemory) }
{
    let mut until = vec![in alloc; 0usize; ir.len()]?;
    for (place, node) in order.iter().enumerate() {
        let inputs = inputs_of(alloc, ir.get(Node(*node)))?;
        want(&mut until, inputs.as_slice(), place);
    }
    want(&mut until, &[root], order.len());
    Ok(until)
}

/// Wants these nodes at a place of the order.
fn want(until: &mut Vec<usize>, nodes: &[Node], place: usize)
    requires { All (λ (n : Node). n.0 < length until.old.items) nodes.now }
    ensures size { length until.new.items ≡ length until.old.items }
    ensures wanted { (m : ℕ) → Contains (map (λ (n : Node). n.0) nodes.now) m → get_or until.new.items m 0 ≡ place }
    ensures kept { (m k : ℕ) → k ≤ place → k ≤ get_or until.old.items m 0 → k ≤ get_or until.new.items m 0 }
{
    for node in nodes {
        until[node.0] = place;
    }
}
