// The caches of a plan: each id stands over one input.
ghost use Rattle.std.specs.Prelude.{◌≡◌, ◌≢◌, ◌≤◌, ◌+◌, ◌<◌, ◌↔◌, ℕ, Contains, IfErr, IfOk, MatchOption, OnErr, OnOk, Some, Err, IsTrue, length, if◌then◌else◌};
ghost use Rattle.std.specs.BTreeMap.{get};
ghost use Rattle.std.specs.Ordering.{nat_cmp};
ghost use Rattle.ps_plan.specs.Refusals.{IsCacheOver};
ghost use Rattle.ps_validate.specs.Fit.{HaveOneInput, IsCacheError};

use ps_frame::refusal::{PolarsError, PolarsResult, Why};
use ps_plan::ir::IR;
use pu_base::{Arena, Node, Steps};
use std::alloc::{AllocError, Global};
use std::collections::BTreeMap;
use std::sync::ledger::Ledger;

// The id and the input of a cache.
fn cache_of(entry: &IR) -> Option<(usize, usize)>
    ensures { MatchOption result ((id input : ℕ) → ¬ IsCacheOver id input entry.now) (λ c. (id input : ℕ) → IsCacheOver id input entry.now ↔ (id ≡ c.0) × (input ≡ c.1)) }
{
    match entry {
        IR::Cache { input, id, .. } => Some((*id, input.0)),
        _ => None,
    }
}

// The input over which an id stood first: this one, where it stands for the first time.
fn first_input(
    inputs: &mut BTreeMap<usize, usize>,
    id: usize,
    input: usize,
) -> Result<usize, AllocError>
    ensures noted { IfOk result (λ first. get nat_cmp inputs.new id ≡ Some first) }
    ensures others { OnOk result ((q : ℕ) → q ≢ id → get nat_cmp inputs.new q ≡ get nat_cmp inputs.old q) }
    ensures first { IfOk result (λ first. MatchOption (get nat_cmp inputs.old id) (first ≡ input) (λ before. first ≡ before)) }
{
    match inputs.get(&id).copied() {
        Some(first) => Ok(first),
        None => {
            inputs.insert(id, input)?;
            Ok(input)
        }
    }
}

/// Refuses a cache whose id stands over two different nodes, among the nodes of these numbers. Else it fails only for
/// want of memory. It takes a step for each node.
pub fn check_caches<L: Ledger>(
    alloc: Global,
    order: &[usize],
    ir: &Arena<IR>,
    steps: &mut Steps<L>,
) -> PolarsResult<()>
    requires { (n : ℕ) → Contains order.now n → n < length ir.now.items }
    ensures one_input { OnOk result (HaveOneInput ir.now.items order.now) }
    ensures refused { IfErr result (IsCacheError ir.now.items order.now) }
    ensures steps { steps.new ≤ steps.old + length order.now }
{
    // In order of the ids, since a map by hashes would be slow at ids that were chosen for it.
    let mut inputs = BTreeMap::new(alloc);
    for node in order {
        steps.tick();
        if let Some((id, input)) = cache_of(ir.get(Node(*node))) {
            let first = first_input(&mut inputs, id, input)?;
            if first != input {
                return Err(PolarsError::InvalidPlan {
                    node: Node(*node),
                    why: Why::Limits,
                });
            }
        }
    }
    Ok(())
}
