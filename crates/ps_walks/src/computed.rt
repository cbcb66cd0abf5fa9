// Tables that are computed node by node, as theorems of functions that do nothing.
ghost use Rattle.std.specs.Prelude.{◌≡◌, ◌↔◌, ℕ, List, Contains};
ghost use Rattle.ps_frame.specs.Functions.{Functions};
ghost use Rattle.ps_frame.specs.Tables.{whole};
ghost use Rattle.ps_frame.specs.declared.value.DataFault.{DataFault};
ghost use Rattle.ps_plan.specs.Graph.{Reached};
ghost use Rattle.ps_meaning.specs.Meaning.{IsMeaning};
ghost use Rattle.ps_plan.specs.PlanMeanings.{NodeMayFault};
ghost use Rattle.ps_plan.specs.Plans.{Plan, tree_of};
ghost use Rattle.ps_plan.specs.Refusals.{IsValid};
ghost use Rattle.ps_walks.specs.Computed.{EachBelowGives, EachGives, FaultsAt, Tables};

/// Where each node at and below a reached node of a valid plan gives its table over those of its inputs, the node means its table.
/// The order lists the reached nodes.
pub fn tables_are_meanings()
    ensures { (F : Functions) (plan : Plan) (order : List ℕ) (T : Tables) (n : ℕ) → IsValid F plan → ((m : ℕ) → Reached plan m ↔ Contains order m) → Reached plan n → EachGives F plan T n → IsMeaning F (tree_of plan n) (whole (T n)) }
{}

/// Where each node below a reached node of a valid plan gives its table, a fault of the node over these is one that the plan may end with.
pub fn faults_are_causes()
    ensures { (F : Functions) (plan : Plan) (order : List ℕ) (T : Tables) (n : ℕ) (f : DataFault) → IsValid F plan → ((m : ℕ) → Reached plan m ↔ Contains order m) → Reached plan n → EachBelowGives F plan T n → FaultsAt F plan T n f → NodeMayFault F plan n f }
{}
