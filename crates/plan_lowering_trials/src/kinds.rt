// Whether the steps of a plan are of kinds that the rules keep, whatever their expressions are.
ghost use Rattle.std.specs.Bool.{OnTrue};
ghost use Rattle.std.specs.Prelude.{ℕ, IfSome, slice_get};
ghost use Rattle.plan_lowering_trials.specs.Always.{IsAlwaysKept};

use ps_plan::ir::{IR, UniqueKeepStrategy};
use pu_base::{Arena, Node};

fn is_always_kept(entry: &IR) -> bool
    ensures { OnTrue result (IsAlwaysKept entry.now) }
{
    match entry {
        IR::DataFrameScan { .. } => true,
        IR::SimpleProjection { .. } => true,
        IR::Select { .. } => true,
        IR::HStack { .. } => true,
        IR::Filter { .. } => true,
        IR::Slice { .. } => true,
        IR::Sink { .. } => true,
        IR::MapFunction { .. } => true,
        IR::Sort { .. } => true,
        IR::Union { .. } => true,
        IR::HConcat { .. } => true,
        IR::Cache { .. } => true,
        IR::GroupBy { .. } => true,
        IR::Join { .. } => true,
        IR::Distinct { options, .. } => match options.keep_strategy {
            UniqueKeepStrategy::First => true,
            UniqueKeepStrategy::Last => true,
            UniqueKeepStrategy::Any => true,
            UniqueKeepStrategy::None => false,
        },
        IR::LeftOut(_) => true,
    }
}

/// Whether each entry's step is of a kept kind, whatever its expressions are.
pub(crate) fn are_always_kept(ir: &Arena<IR>) -> bool
    ensures { OnTrue result ((n : ℕ) → IfSome (slice_get ir.now.items n) IsAlwaysKept) }
{
    for number in 0..ir.len() {
        if !is_always_kept(ir.get(Node(number))) {
            return false;
        }
    }
    true
}
