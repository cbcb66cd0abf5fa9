// Schemas that are found node by node, as theorems of functions that do nothing.
ghost use Rattle.std.specs.Prelude.{◌≡◌, ℕ};
ghost use Rattle.ps_frame.specs.Functions.{Functions};
ghost use Rattle.ps_plan.specs.Graph.{Reached};
ghost use Rattle.ps_meaning.specs.PlanTrees.{IsCompletePlan};
ghost use Rattle.ps_plan.specs.Plans.{Plan, tree_of};
ghost use Rattle.ps_meaning.specs.StepRefusals.{Refusal};
ghost use Rattle.ps_plan.specs.Refusals.{IsRefused, IsValid};
ghost use Rattle.ps_meaning.specs.Schemas.{tree_schema};
ghost use Rattle.ps_walks.specs.Accepted.{EachBelowAccepted, IsAccepted, IsRefusedAt, NodeSchemas};
ghost use Rattle.ps_walks.specs.Fit.{HasSchemas};

/// A plan is valid where each reached node is accepted over the schemas of its inputs, and these are then the schemas of the nodes.
pub fn accepted_plans_are_valid()
    ensures valid { (F : Functions) (plan : Plan) (S : NodeSchemas) → ((n : ℕ) → Reached plan n → IsCompletePlan (tree_of plan n)) → ((n : ℕ) → Reached plan n → IsAccepted F plan S n) → IsValid F plan }
    ensures typed { (F : Functions) (plan : Plan) (S : NodeSchemas) → ((n : ℕ) → Reached plan n → IsCompletePlan (tree_of plan n)) → ((n : ℕ) → Reached plan n → IsAccepted F plan S n) → HasSchemas F plan }
    ensures schemas { (F : Functions) (plan : Plan) (S : NodeSchemas) → ((n : ℕ) → Reached plan n → IsCompletePlan (tree_of plan n)) → ((n : ℕ) → Reached plan n → IsAccepted F plan S n) → (n : ℕ) → Reached plan n → tree_schema F (tree_of plan n) ≡ S n }
{}

/// Where each node below a reached node is accepted, a rule on names or kinds that refuses the node's step over the schemas of its inputs refuses the node.
pub fn refused_steps_are_refused()
    ensures { (F : Functions) (plan : Plan) (S : NodeSchemas) (n : ℕ) (R : Refusal) → Reached plan n → IsCompletePlan (tree_of plan n) → EachBelowAccepted F plan S n → IsRefusedAt F plan S n R → IsRefused F plan n R }
{}
