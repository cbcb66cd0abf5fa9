// Laws of valid plans, as theorems of functions that do nothing.
ghost use Rattle.std.specs.Prelude.{◌≡◌, ◌++◌, ℕ, List, Some, slice_get};
ghost use Rattle.ps_frame.specs.Functions.{Functions};
ghost use Rattle.ps_frame.specs.Trees.{tree_at};
ghost use Rattle.ps_frame.specs.declared.expr.AExpr.{AExpr};
ghost use Rattle.ps_plan.specs.Graph.{Reached};
ghost use Rattle.ps_meaning.specs.PlanTrees.{IsCompletePlan};
ghost use Rattle.ps_plan.specs.Plans.{tree_of};
ghost use Rattle.ps_meaning.specs.Schemas.{tree_schema};
ghost use Rattle.ps_plan.specs.Entries.{entry_inputs, entry_step};
ghost use Rattle.ps_plan.specs.declared.ir.IR.{IR};
ghost use Rattle.ps_walks.specs.Accepted.{schemas_at};
ghost use Rattle.ps_walks.specs.Fit.{IsFit, plan_schemas};
ghost use Rattle.valid_plans.specs.Known.{IsKnown, schema_in};
ghost use Rattle.valid_plans.specs.Valid.{IsValidWith, ValidNodes, plan_with};

/// A valid plan stays valid where entries are added to the arena of expressions, and its nodes' trees and schemas stay.
pub fn valid_plans_stay_valid()
    ensures valid { (F : Functions) (v : ValidNodes) (exprs more : List AExpr) → IsValidWith F v exprs → IsValidWith F v (exprs ++ more) }
    ensures trees { (F : Functions) (v : ValidNodes) (exprs more : List AExpr) (n : ℕ) → IsValidWith F v exprs → Reached (plan_with v exprs) n → tree_of (plan_with v (exprs ++ more)) n ≡ tree_of (plan_with v exprs) n }
{}

/// The schema of a node that the root of a valid plan leads to is known, and it is that of the node's tree.
pub fn schemas_are_known()
    ensures known { (F : Functions) (v : ValidNodes) (exprs : List AExpr) (n : ℕ) → IsValidWith F v exprs → Reached (plan_with v exprs) n → IsKnown v.schemas (record { 0 = n }) }
    ensures schema { (F : Functions) (v : ValidNodes) (exprs : List AExpr) (n : ℕ) → IsValidWith F v exprs → Reached (plan_with v exprs) n → schema_in v.schemas (record { 0 = n }) ≡ tree_schema F (tree_of (plan_with v exprs) n) }
{}

/// The tree of such a node is complete, and its step is fit for the schemas of its inputs: its expressions have kinds
/// over these, no name stands twice in one of them, and no rule refuses it.
pub fn valid_nodes_are_fit()
    ensures complete { (F : Functions) (v : ValidNodes) (exprs : List AExpr) (n : ℕ) → IsValidWith F v exprs → Reached (plan_with v exprs) n → IsCompletePlan (tree_of (plan_with v exprs) n) }
    ensures fit { (F : Functions) (v : ValidNodes) (exprs : List AExpr) (n : ℕ) (e : IR) → IsValidWith F v exprs → Reached (plan_with v exprs) n → slice_get v.nodes n ≡ Some e → IsFit F (entry_step (tree_at exprs) e) (schemas_at (plan_schemas F (plan_with v exprs)) (entry_inputs e)) }
{}
