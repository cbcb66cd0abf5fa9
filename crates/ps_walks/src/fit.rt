// The steps of a valid plan, as theorems of functions that do nothing.
ghost use Rattle.std.specs.Prelude.{◌≡◌, ℕ, Some, slice_get};
ghost use Rattle.ps_frame.specs.Functions.{Functions};
ghost use Rattle.ps_frame.specs.Trees.{tree_at};
ghost use Rattle.ps_plan.specs.Graph.{Reached};
ghost use Rattle.ps_plan.specs.Plans.{Plan};
ghost use Rattle.ps_plan.specs.Refusals.{IsValid};
ghost use Rattle.ps_plan.specs.Entries.{entry_inputs, entry_step};
ghost use Rattle.ps_plan.specs.declared.ir.IR.{IR};
ghost use Rattle.ps_walks.specs.Accepted.{schemas_at};
ghost use Rattle.ps_walks.specs.Fit.{HasSchemas, IsFit, plan_schemas};

/// The step of a node that a valid plan reaches is fit for the schemas of its inputs.
pub fn reached_steps_are_fit()
    ensures { (F : Functions) (plan : Plan) (n : ℕ) (e : IR) → IsValid F plan → HasSchemas F plan → Reached plan n → slice_get plan.nodes n ≡ Some e → IsFit F (entry_step (tree_at plan.exprs) e) (schemas_at (plan_schemas F plan) (entry_inputs e)) }
{}
