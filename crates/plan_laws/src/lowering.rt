// How the claims of lowering calls go together, as theorems of functions that do nothing.
ghost use Rattle.std.specs.Prelude.{◌<◌, ◌≤◌, ◌++◌, ◌∷◌, List, [], length, Contains, ℕ};
ghost use Rattle.ps_frame.specs.Causes.{Cause};
ghost use Rattle.ps_frame.specs.Functions.{Functions, IsLawful};
ghost use Rattle.ps_frame.specs.Tables.{Table};
ghost use Rattle.ps_meaning.specs.Meaning.{IsBrokenBy, IsLarge};
ghost use Rattle.ps_meaning.specs.PlanTrees.{PlanTree, no_trees, node, tree};
ghost use Rattle.ps_meaning.specs.Shape.{IsLargeAt, IsPhysicalChoice, PhysicalMayGive, Shape};
ghost use Rattle.ps_meaning.specs.Sound.{IsSoundButForReaders};
ghost use Rattle.ps_meaning.specs.Steps.{Step};
ghost use Rattle.ps_plan.specs.Lowering.{AreTablesOf, Cached, Lowers};
ghost use Rattle.plan_laws.specs.Lowered.{IsLoweredAbove, IsNew};

/// A step that is lowered above a lowered stream: what its stream means ends as a table of the step above the tree. A cause that its nodes show, and its input doesn't, breaks the step there, and the step is large where they are.
pub fn lowered_steps_compose()
    ensures tables { (F : Functions) (before more : Shape) (cached known : List Cached) (at : ℕ) (step : Step) (t : PlanTree) (from to : ℕ) → IsLoweredAbove F before more cached known at step t from to → Lowers F (before ++ more) cached known (node at step (tree t no_trees)) to }
    ensures causes { (F : Functions) (before more : Shape) (cached known : List Cached) (at : ℕ) (step : Step) (t : PlanTree) (from to : ℕ) → IsLoweredAbove F before more cached known at step t from to → (tables : ℕ → Table) (n : ℕ) → IsNew F before more cached tables n → (U : Table) (c : Cause) → PhysicalMayGive F (before ++ more) tables n U → Contains U.broken c → (¬ Contains (tables from).broken c) → IsBrokenBy F (node at step (tree t no_trees)) c }
    ensures sizes { (F : Functions) (before more : Shape) (cached known : List Cached) (at : ℕ) (step : Step) (t : PlanTree) (from to : ℕ) → IsLoweredAbove F before more cached known at step t from to → (tables : ℕ → Table) (n : ℕ) → IsNew F before more cached tables n → IsLargeAt F (before ++ more) tables n → IsLarge F (node at step (tree t no_trees)) }
{}

/// Tables that the nodes of a sound shape mean together have rows of the nodes' schemas, whatever number of readers the nodes have.
pub fn tables_of_sound_shapes()
    ensures { (F : Functions) (shape : Shape) (tables : ℕ → Table) → IsLawful F → IsSoundButForReaders F shape → IsPhysicalChoice F shape tables → AreTablesOf F shape tables }
{}
