//! The call that lowers a slice, with its promise: what it answers means what was asked.
ghost use Rattle.std.specs.Prelude.{◌≡◌, ◌+◌, ◌∷◌, [], Err, IfOk, OnErr, OnOk, length as number_of};
ghost use Rattle.ps_frame.specs.Functions.{Functions};
ghost use Rattle.ps_frame.specs.Trees.{Tree};
ghost use Rattle.ps_frame.specs.declared.refusal.PolarsError.{PolarsError};
ghost use Rattle.ps_meaning.specs.Steps.{slice};
ghost use Rattle.ps_phys.specs.Shown.{stream_of};
ghost use Rattle.plan_rules.specs.Slices.{slice_stream};
ghost use Rattle.step_keeps.specs.Kept.{KeepsStep};
ghost use Rattle.lowering_parts.specs.Gathered.{Begins, made_of, state_of};
ghost use Rattle.kept_groups.specs.Asked.{IsLive, KeepsSound};
ghost use Rattle.pu_base.specs.declared.arena.Node.{Node as ANode};

use ps_frame::refusal::PolarsResult;
use ps_fresh::lowering::Lowering;
use ps_phys::phys::PhysStream;
use slice_lowering::slices::build_slice_stream as slice_by_rule;
use std::alloc::Global;

/// A slice of a stream. An offset below 0 counts from the end; where no rows are asked for from there, the end isn't waited for.
///
/// Whatever table of its schema the input means, the stream ends as the slice of it. Each cause of it, and of the node that
/// was made, breaks the slice there; and the node is large only where the input is. Where the input's node is there, a shape
/// stays sound but for the readers of its nodes.
///
/// Makes one node. What stood in the lowering stands after every answer. Fails only for want of memory; nothing was then added.
pub fn build_slice_stream(
    alloc: Global,
    low: &mut Lowering,
    input: PhysStream,
    offset: i64,
    length: usize,
) -> PolarsResult<PhysStream>
    ensures keeps { (F : Functions) (f : ANode → Tree) → IfOk result (λ s. KeepsStep F low.old.origin.0 (slice offset length) (state_of f low.old) (state_of f low.new) (stream_of input ∷ []) (stream_of s)) }
    ensures sound { (F : Functions) (f : ANode → Tree) → OnOk result (IsLive (state_of f low.old) (stream_of input) → KeepsSound F (state_of f low.old) (state_of f low.new)) }
    ensures made { (f : ANode → Tree) → IfOk result (λ s. made_of f low.new s ≡ slice_stream low.old.origin.0 offset length (stream_of input) (state_of f low.old)) }
    ensures inserts { OnOk result (number_of low.new.phys_sm.slots ≡ number_of low.old.phys_sm.slots + 1) }
    ensures nodes { Begins low.old.phys_sm.slots low.new.phys_sm.slots }
    ensures same { OnErr result (low.new ≡ low.old) }
    ensures others { low.new ≡ record low.old { phys_sm = low.new.phys_sm } }
    ensures memory { OnErr result (result ≡ Err PolarsError.OutOfMemory) }
{
    let stream = slice_by_rule(alloc, low, input, offset, length)?;
    Ok(stream)
}
