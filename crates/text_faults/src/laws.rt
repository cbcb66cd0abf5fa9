// Laws of queries' plans, as theorems of functions that do nothing.
ghost use Rattle.std.specs.Prelude.{◌≡◌, ℕ, Some};
ghost use Rattle.ps_frame.specs.Causes.{Cause};
ghost use Rattle.ps_frame.specs.Functions.{Functions, IsLawful};
ghost use Rattle.ps_frame.specs.declared.value.DataFault.TheVariants as fault;
ghost use Rattle.ps_frame.specs.declared.value.DataFault.{DataFault};
ghost use Rattle.ps_meaning.specs.Meaning.{IsBrokenBy};
ghost use Rattle.ps_plan.specs.Graph.{Reached};
ghost use Rattle.ps_plan.specs.PlanMeanings.{NodeBrokenBy, NodeIsLarge, NodeMayFault};
ghost use Rattle.ps_plan.specs.Plans.{Plan, tree_of};
ghost use Rattle.ps_plan.specs.Refusals.{IsValid};
ghost use Rattle.text_faults.specs.Examples.{its_plan, its_select, of_no_column};
ghost use Rattle.text_plans.specs.Examples.{two_tables};
ghost use Rattle.text_plans.specs.QueryPlans.{Tables, query_tree};
ghost use Rattle.text_queries.specs.Queries.{Query};

/// What breaks a node of the valid plan of a query, in any meaning, is a count past the greatest number of rows, and the
/// node is large: where none is large, none is broken. So no other fault may be told.
pub fn queries_fault_by_rows_alone()
    ensures broken { (F : Functions) (tables : Tables) (query : Query) (plan : Plan) (n : ℕ) (c : Cause) → IsLawful F → query_tree tables query ≡ Some (tree_of plan plan.root.0) → IsValid F plan → Reached plan n → NodeBrokenBy F plan n c → (c.fault ≡ fault.Rows) × NodeIsLarge F plan n }
    ensures faults { (F : Functions) (tables : Tables) (query : Query) (plan : Plan) (n : ℕ) (f : DataFault) → IsLawful F → query_tree tables query ≡ Some (tree_of plan plan.root.0) → IsValid F plan → NodeMayFault F plan n f → f ≡ fault.Rows }
{}

/// That the plan is valid is asked for: a name that is no column has no rows, and beside a column of two rows it is broken
/// by Shape.
pub fn names_must_stand()
    ensures plan { query_tree two_tables of_no_column ≡ Some its_plan }
    ensures broken { (F : Functions) → IsBrokenBy F its_select (record { fault = fault.Shape; node = 1 }) }
{}
