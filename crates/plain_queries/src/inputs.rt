// The nodes that an entry reads.
ghost use Rattle.std.specs.Prelude.{◌≡◌, IfOk, OnErr, Err};
ghost use Rattle.ps_plan.specs.Entries.{entry_inputs};

use ps_frame::refusal::{PolarsError, PolarsResult};
use ps_plan::ir::IR;
use pu_base::Node;
use std::alloc::Global;

/// The inputs of an entry, in order.
///
/// Fails only for want of memory.
pub(crate) fn inputs_of(alloc: Global, entry: &IR) -> PolarsResult<Vec<Node>>
    ensures inputs { IfOk result (λ inputs. inputs.items ≡ entry_inputs entry.now) }
    ensures memory { OnErr result (result ≡ Err PolarsError.OutOfMemory) }
{
    match entry {
        IR::DataFrameScan { .. } | IR::LeftOut(_) => Ok(Vec::new(alloc)),
        IR::SimpleProjection { input, .. }
        | IR::Select { input, .. }
        | IR::HStack { input, .. }
        | IR::Filter { input, .. }
        | IR::Slice { input, .. }
        | IR::Sink { input, .. }
        | IR::MapFunction { input, .. }
        | IR::Sort { input, .. }
        | IR::Cache { input, .. }
        | IR::GroupBy { input, .. }
        | IR::Distinct { input, .. } => copied(alloc, &[*input]),
        IR::Union { inputs, .. } | IR::HConcat { inputs } => copied(alloc, inputs.as_slice()),
        IR::Join {
            input_left,
            input_right,
            ..
        } => copied(alloc, &[*input_left, *input_right]),
    }
}

fn copied(alloc: Global, nodes: &[Node]) -> PolarsResult<Vec<Node>>
    ensures nodes { IfOk result (λ copy. copy.items ≡ nodes.now) }
    ensures memory { OnErr result (result ≡ Err PolarsError.OutOfMemory) }
{
    Ok(Vec::from_slice(alloc, nodes)?)
}
