//! Slices: that of a node of its own, and the one that a node applies last.
ghost use Rattle.std.specs.Prelude.{◌≡◌, ◌∷◌, [], Err, IfOk, OnErr};
ghost use Rattle.ps_frame.specs.Trees.{Tree};
ghost use Rattle.ps_frame.specs.declared.refusal.PolarsError.{PolarsError};
ghost use Rattle.ps_phys.specs.Shown.{inputs_of, kind_of, stream_of};
ghost use Rattle.lowering_parts.specs.Gathered.{Begins, made_of, state_of};
ghost use Rattle.plan_rules.specs.Slices.{cut_stream, slice_kind, slice_stream};
ghost use Rattle.pu_base.specs.declared.arena.Node.{Node as ANode};

use lowering_parts::nodes::over_same_columns;
use ps_frame::refusal::PolarsResult;
use ps_fresh::lowering::Lowering;
use ps_phys::phys::{PhysNodeKind, PhysStream};
use std::alloc::Global;

/// A slice of a stream. An offset below 0 counts from the end; where no rows are asked for from there, the end isn't waited for.
///
/// Fails only for want of memory; nothing was then added.
pub fn build_slice_stream(
    alloc: Global,
    low: &mut Lowering,
    input: PhysStream,
    offset: i64,
    length: usize,
) -> PolarsResult<PhysStream>
    ensures made { (f : ANode → Tree) → IfOk result (λ s. made_of f low.new s ≡ slice_stream low.old.origin.0 offset length (stream_of input) (state_of f low.old)) }
    ensures nodes { Begins low.old.phys_sm.slots low.new.phys_sm.slots }
    ensures same { OnErr result (low.new ≡ low.old) }
    ensures others { low.new ≡ record low.old { phys_sm = low.new.phys_sm } }
    ensures memory { OnErr result (result ≡ Err PolarsError.OutOfMemory) }
{
    let kind = slice_of(input, offset, length);
    let stream = over_same_columns(alloc, low, input, kind)?;
    Ok(stream)
}

// The slice that an offset and a length ask for.
fn slice_of(input: PhysStream, offset: i64, length: usize) -> PhysNodeKind
    ensures kind { (f : ANode → Tree) → kind_of f result ≡ slice_kind offset length }
    ensures inputs { inputs_of result ≡ stream_of input ∷ [] }
{
    if offset >= 0 {
        let offset = offset as usize;
        return PhysNodeKind::StreamingSlice {
            input,
            offset,
            length,
        };
    }
    if length == 0 {
        return PhysNodeKind::StreamingSlice {
            input,
            offset: 0,
            length: 0,
        };
    }
    PhysNodeKind::NegativeSlice {
        input,
        offset,
        length,
    }
}

/// The slice that a node applies last, above its stream; the stream itself where there is none.
///
/// Fails only for want of memory; nothing was then added.
pub fn cut(
    alloc: Global,
    low: &mut Lowering,
    input: PhysStream,
    slice: Option<(i64, usize)>,
) -> PolarsResult<PhysStream>
    ensures made { (f : ANode → Tree) → IfOk result (λ s. made_of f low.new s ≡ cut_stream low.old.origin.0 slice (stream_of input) (state_of f low.old)) }
    ensures nodes { Begins low.old.phys_sm.slots low.new.phys_sm.slots }
    ensures same { OnErr result (low.new ≡ low.old) }
    ensures others { low.new ≡ record low.old { phys_sm = low.new.phys_sm } }
    ensures memory { OnErr result (result ≡ Err PolarsError.OutOfMemory) }
{
    match slice {
        Some((offset, length)) => {
            let stream = build_slice_stream(alloc, low, input, offset, length)?;
            Ok(stream)
        }
        None => Ok(input),
    }
}
