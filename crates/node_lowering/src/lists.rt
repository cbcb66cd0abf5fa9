//! Nodes over any number of streams.
ghost use Rattle.std.specs.Prelude.{◌≡◌, true, Err, IfOk, OnErr};
ghost use Rattle.ps_frame.specs.Trees.{Tree};
ghost use Rattle.ps_frame.specs.declared.refusal.PolarsError.{PolarsError};
ghost use Rattle.ps_meaning.specs.Shape.{zip_node};
ghost use Rattle.ps_phys.specs.Shown.{streams_of};
ghost use Rattle.plan_rules.specs.Nodes.{over_all, union_stream as united};
ghost use Rattle.lowering_parts.specs.Gathered.{Begins, made_of, state_of};
ghost use Rattle.pu_base.specs.declared.arena.Node.{Node as ANode};

use crate::parts::node_of;
use ps_frame::items::Items;
use ps_frame::refusal::PolarsResult;
use ps_frame::schema::Schema;
use ps_fresh::lowering::Lowering;
use ps_phys::phys::{PhysNodeKind, PhysStream};
use slice_lowering::slices::cut;
use std::alloc::Global;

/// A union of streams of this schema in their order, and its slice above it.
///
/// Fails only for want of memory; a node may then have been added.
pub fn union_stream(
    alloc: Global,
    low: &mut Lowering,
    inputs: Vec<PhysStream>,
    slice: &Option<(i64, usize)>,
    schema: &Schema,
) -> PolarsResult<PhysStream>
    ensures made { (f : ANode → Tree) → IfOk result (λ s. made_of f low.new s ≡ united low.old.origin.0 slice.now schema.now (streams_of inputs.items) (state_of f low.old)) }
    ensures nodes { Begins low.old.phys_sm.slots low.new.phys_sm.slots }
    ensures others { low.new ≡ record low.old { phys_sm = low.new.phys_sm } }
    ensures memory { OnErr result (result ≡ Err PolarsError.OutOfMemory) }
{
    let inputs = Items::new(inputs);
    let union = node_of(alloc, low, schema, PhysNodeKind::OrderedUnion { inputs })?;
    let sliced = cut(alloc, low, union, *slice)?;
    Ok(sliced)
}

/// The columns of streams beside each other, of which the shorter ones are filled up with nulls.
///
/// Fails only for want of memory; nothing was then added.
pub fn hconcat_stream(
    alloc: Global,
    low: &mut Lowering,
    inputs: Vec<PhysStream>,
    schema: &Schema,
) -> PolarsResult<PhysStream>
    ensures made { (f : ANode → Tree) → IfOk result (λ s. made_of f low.new s ≡ over_all low.old.origin.0 (zip_node true) schema.now (streams_of inputs.items) (state_of f low.old)) }
    ensures nodes { Begins low.old.phys_sm.slots low.new.phys_sm.slots }
    ensures same { OnErr result (low.new ≡ low.old) }
    ensures others { low.new ≡ record low.old { phys_sm = low.new.phys_sm } }
    ensures memory { OnErr result (result ≡ Err PolarsError.OutOfMemory) }
{
    let inputs = Items::new(inputs);
    let null_extend = true;
    node_of(
        alloc,
        low,
        schema,
        PhysNodeKind::Zip {
            inputs,
            null_extend,
        },
    )
}
