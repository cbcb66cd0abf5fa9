// Nodes of a schema that is known, over streams.
ghost use Rattle.std.specs.Prelude.{◌≡◌, ◌∷◌, [], Err, IfOk, OnErr};
ghost use Rattle.ps_frame.specs.Trees.{Tree};
ghost use Rattle.ps_frame.specs.declared.refusal.PolarsError.{PolarsError};
ghost use Rattle.ps_phys.specs.Shown.{inputs_of, kind_of, stream_of};
ghost use Rattle.ps_rules.specs.Slots.{over};
ghost use Rattle.plan_rules.specs.Nodes.{over_all};
ghost use Rattle.lowering_parts.specs.Gathered.{Begins, made_of, state_of};
ghost use Rattle.pu_base.specs.declared.arena.Node.{Node as ANode};

use lowering_parts::nodes::insert;
use lowering_parts::schemas::cloned;
use ps_frame::refusal::PolarsResult;
use ps_frame::schema::Schema;
use ps_fresh::lowering::Lowering;
use ps_phys::phys::{PhysNodeKind, PhysStream};
use std::alloc::Global;

/// A node that reads whatever its kind says.
///
/// Fails only for want of memory; nothing was then added.
pub(crate) fn node_of(
    alloc: Global,
    low: &mut Lowering,
    schema: &Schema,
    kind: PhysNodeKind,
) -> PolarsResult<PhysStream>
    ensures made { (f : ANode → Tree) → IfOk result (λ s. made_of f low.new s ≡ over_all low.old.origin.0 (kind_of f kind) schema.now (inputs_of kind) (state_of f low.old)) }
    ensures nodes { Begins low.old.phys_sm.slots low.new.phys_sm.slots }
    ensures same { OnErr result (low.new ≡ low.old) }
    ensures others { low.new ≡ record low.old { phys_sm = low.new.phys_sm } }
    ensures memory { OnErr result (result ≡ Err PolarsError.OutOfMemory) }
{
    match cloned(alloc, schema) {
        Ok(schema) => insert(alloc, low, schema, kind),
        Err(error) => {
            // By a call: else a node of each kind is taken apart right here, and the proof is the longer.
            drop(kind);
            Err(error)
        }
    }
}

/// A node that reads one stream.
///
/// Fails only for want of memory; nothing was then added.
pub(crate) fn node_over(
    alloc: Global,
    low: &mut Lowering,
    input: PhysStream,
    schema: &Schema,
    kind: PhysNodeKind,
) -> PolarsResult<PhysStream>
    requires { inputs_of kind ≡ stream_of input ∷ [] }
    ensures made { (f : ANode → Tree) → IfOk result (λ s. made_of f low.new s ≡ over low.old.origin.0 (kind_of f kind) schema.now (stream_of input) (state_of f low.old)) }
    ensures nodes { Begins low.old.phys_sm.slots low.new.phys_sm.slots }
    ensures same { OnErr result (low.new ≡ low.old) }
    ensures others { low.new ≡ record low.old { phys_sm = low.new.phys_sm } }
    ensures memory { OnErr result (result ≡ Err PolarsError.OutOfMemory) }
{
    node_of(alloc, low, schema, kind)
}
