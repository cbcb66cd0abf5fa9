// What the entry of a node refuses by itself: keys and flags that don't fit, no key, and what isn't supported of a join
// or a sink.
ghost use Rattle.std.specs.Prelude.{◌≡◌, ◌≢◌, ◌↔◌, Bool, List, [], IfErr, IsFalse, IsTrue, OnOk, length};
ghost use Rattle.pu_base.specs.declared.arena.Node.{Node};
ghost use Rattle.ps_frame.specs.Trees.{Tree};
ghost use Rattle.ps_meaning.specs.StepRefusals.{FlagsMisfit, HasNoKey, IsFileSink, IsValidation, KeysMisfit};
ghost use Rattle.ps_meaning.specs.Steps.{Cut, distinct_step, group_step, key_trees, join as join_step, sink as sink_step, sort_step};
ghost use Rattle.ps_meaning.specs.declared.options.ExprIR.{ExprIR};
ghost use Rattle.ps_validate.specs.Entries.{IsStepError};

use ps_frame::expr::What;
use ps_frame::refusal::{Compute, PolarsError, PolarsResult, Why};
use ps_meaning::options::{
    DistinctOptions, ExprIR, JoinArgs, JoinType, JoinValidation, SinkType, SortMultipleOptions,
};
use pu_base::Node;

/// Refuses a sink that writes a file.
pub fn check_sink(at: Node, payload: SinkType) -> PolarsResult<()>
    ensures file { OnOk result (¬ IsFileSink (sink_step payload)) }
    ensures refused { IfErr result (IsStepError at (sink_step payload)) }
{
    match payload {
        SinkType::Memory => Ok(()),
        SinkType::File => Err(PolarsError::Unsupported {
            node: at,
            what: What::FileSink,
        }),
    }
}

// Whether flags number neither 1 nor the keys.
fn flags_misfit(flags: &[bool], keys: usize) -> bool
    ensures { IsTrue result ↔ FlagsMisfit flags.now keys }
{
    flags.len() != 1 && flags.len() != keys
}

/// Refuses a sort without a key, or with flags that number neither 1 nor the keys.
pub fn check_sort(at: Node, keys: &[ExprIR], options: &SortMultipleOptions) -> PolarsResult<()>
    ensures key { OnOk result (keys.now ≢ []) }
    ensures descending { OnOk result (¬ FlagsMisfit options.now.descending (length keys.now)) }
    ensures nulls_last { OnOk result (¬ FlagsMisfit options.now.nulls_last (length keys.now)) }
    ensures refused { IfErr result (λ e. (f : Node → Tree) (cut : Cut) → IsStepError at (sort_step f keys.now cut options.now) e) }
{
    if keys.is_empty()
        || flags_misfit(options.descending.as_slice(), keys.len())
        || flags_misfit(options.nulls_last.as_slice(), keys.len())
    {
        return Err(PolarsError::InvalidPlan {
            node: at,
            why: Why::Keys,
        });
    }
    Ok(())
}

/// Refuses a group-by without a key.
pub fn check_group_by(at: Node, keys: &[ExprIR]) -> PolarsResult<()>
    ensures key { OnOk result (keys.now ≢ []) }
    ensures refused { IfErr result (λ e. (f : Node → Tree) (aggs : List ExprIR) (maintain : Bool) (cut : Cut) → IsStepError at (group_step f keys.now aggs maintain cut) e) }
{
    if keys.is_empty() {
        return Err(PolarsError::ComputeError {
            node: at,
            why: Compute::NoKey,
        });
    }
    Ok(())
}

/// Refuses a distinct over an empty subset.
pub fn check_distinct(at: Node, options: &DistinctOptions) -> PolarsResult<()>
    ensures key { OnOk result (¬ HasNoKey (distinct_step options.now)) }
    ensures refused { IfErr result (IsStepError at (distinct_step options.now)) }
{
    if let Some(names) = &options.subset {
        if names.is_empty() {
            return Err(PolarsError::ComputeError {
                node: at,
                why: Compute::NoKey,
            });
        }
    }
    Ok(())
}

// Whether the keys of a join's sides fit: as many on both sides and some, or none for a cross join.
fn join_keys_fit(how: JoinType, left: &[ExprIR], right: &[ExprIR]) -> bool
    ensures fit { IsTrue result → (f : Node → Tree) → ¬ KeysMisfit how (key_trees f left.now) (key_trees f right.now) }
    ensures misfit { IsFalse result → (f : Node → Tree) → KeysMisfit how (key_trees f left.now) (key_trees f right.now) }
{
    if how == JoinType::Cross {
        left.is_empty() && right.is_empty()
    } else {
        left.len() == right.len() && !left.is_empty()
    }
}

/// Refuses a join whose keys don't fit, or that validates its matches.
pub fn check_join(
    at: Node,
    left_on: &[ExprIR],
    right_on: &[ExprIR],
    args: &JoinArgs,
) -> PolarsResult<()>
    ensures keys { OnOk result ((f : Node → Tree) → ¬ KeysMisfit args.now.how (key_trees f left_on.now) (key_trees f right_on.now)) }
    ensures validation { OnOk result (¬ IsValidation args.now.validation) }
    ensures refused { IfErr result (λ e. (f : Node → Tree) → IsStepError at (join_step (record { left_on = key_trees f left_on.now; right_on = key_trees f right_on.now; args = args.now })) e) }
{
    if !join_keys_fit(args.how, left_on, right_on) {
        return Err(PolarsError::InvalidPlan {
            node: at,
            why: Why::Keys,
        });
    }
    if args.validation != JoinValidation::ManyToMany {
        return Err(PolarsError::Unsupported {
            node: at,
            what: What::Validation,
        });
    }
    Ok(())
}
