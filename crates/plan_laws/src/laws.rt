// Laws of meanings, as theorems of functions that do nothing.
ghost use Rattle.std.specs.Prelude.{◌<◌, ◌≡◌, ◌≢◌, ◌⊎◌, Contains, List, [], length, true, ℕ};
ghost use Rattle.ps_frame.specs.Causes.{Cause};
ghost use Rattle.ps_frame.specs.Functions.{Functions, IsLawful};
ghost use Rattle.ps_frame.specs.Tables.{Table, columns_of};
ghost use Rattle.ps_frame.specs.Trees.{IsExpression};
ghost use Rattle.ps_frame.specs.Zip.{zipped};
ghost use Rattle.ps_meaning.specs.Cases.{Case};
ghost use Rattle.ps_plan.specs.Graph.{ExprReachesItself, HasNoCircle, IsInRange, Path, Reached, operands_at};
ghost use Rattle.ps_meaning.specs.Laws.{IsBuilt};
ghost use Rattle.plan_laws.specs.Laws.{AllEndAlike, FixesOrder, HoldsId, StandsOver, causes_of};
ghost use Rattle.ps_meaning.specs.Laws.{EachStep, FitsTable, HoldsFitting, IsTyped, SameCauses};
ghost use Rattle.ps_plan.specs.Graph.{EachReached};
ghost use Rattle.ps_meaning.specs.Meaning.{Choice, IsMeaning, IsWholeMeaning, Means};
ghost use Rattle.ps_meaning.specs.PlanTrees.{IsCompletePlan, PlanTree};
ghost use Rattle.ps_plan.specs.Plans.{Plan, tree_of};
ghost use Rattle.ps_plan.specs.Refusals.{IsValid};
ghost use Rattle.ps_meaning.specs.Schemas.{tree_schema};
ghost use Rattle.ps_meaning.specs.Steps.{Step};
ghost use Rattle.ps_meaning.specs.Within.{EndAlike};

/// A plan whose reached nodes all fix their order has at most one whole table, whatever the choices.
pub fn at_most_one_whole_table()
    ensures of_plans { (F : Functions) (plan : Plan) (T U : Table) → IsLawful F → EachReached FixesOrder plan → IsWholeMeaning F (tree_of plan plan.root.0) T → IsWholeMeaning F (tree_of plan plan.root.0) U → T ≡ U }
    ensures of_trees { (F : Functions) (t : PlanTree) (T U : Table) → IsLawful F → EachStep FixesOrder t → IsWholeMeaning F t T → IsWholeMeaning F t U → T ≡ U }
{}

/// A table that a node may mean has the node's schema.
pub fn tables_have_their_schema()
    ensures { (F : Functions) (choice : Choice) (t : PlanTree) (T : Table) → IsLawful F → Means F choice t T → T.schema ≡ tree_schema F t }
{}

/// The rows of a meaning have the values that its schema says, where each expression has a kind and no rule on names or kinds is broken.
pub fn rows_fit_their_schema()
    ensures { (F : Functions) (choice : Choice) (t : PlanTree) (T : Table) → IsLawful F → IsTyped F t → Means F choice t T → FitsTable T }
{}

/// A meaning depends on the choice only at the cache ids that the tree holds.
pub fn choices_count_at_held_ids()
    ensures { (F : Functions) (c d : Choice) (t : PlanTree) (T : Table) → ((id : ℕ) → HoldsId id t → c id ≡ d id) → Means F c t T → Means F d t T }
{}

/// Each step that the engine has gives some table, whatever tables its inputs mean.
pub fn each_step_gives_some_table()
    ensures { (F : Functions) (at : ℕ) (step : Step) (ts : List Table) → IsBuilt step → (T : Table) × Case F at step ts T }
{}

/// A tree of such steps, in which caches of one id stand over one tree, means some table.
pub fn each_tree_means_some_table()
    ensures { (F : Functions) (stored : ℕ → PlanTree) (t : PlanTree) → IsLawful F → EachStep IsBuilt t → StandsOver stored t → (T : Table) × IsMeaning F t T }
{}

/// The zip with null extension of the columns of one table is that table.
pub fn one_input_is_its_own_zip()
    ensures rows { (at : ℕ) (t : Table) → t.schema ≢ [] → FitsTable t → (zipped true at (columns_of t)).rows ≡ t.rows }
    ensures causes { (at : ℕ) (t : Table) → t.schema ≢ [] → FitsTable t → SameCauses (zipped true at (columns_of t)).broken t.broken }
    ensures lost { (at : ℕ) (t : Table) → t.schema ≢ [] → FitsTable t → (zipped true at (columns_of t)).lost ≡ [] }
{}

/// The tree of a node is complete where all numbers at and below it are in range and nothing there reaches itself: so is that of each node that a valid plan reaches.
pub fn trees_are_complete()
    ensures expressions { (plan : Plan) (e : ℕ) → ((m : ℕ) → Path (operands_at plan) e m → ¬ ExprReachesItself plan m) → ((m : ℕ) → Path (operands_at plan) e m → m < length plan.exprs) → IsExpression plan.exprs (record { 0 = e }) }
    ensures nodes { (plan : Plan) (n : ℕ) → HasNoCircle plan n → IsInRange plan n → IsCompletePlan (tree_of plan n) }
    ensures of_valid_plans { (F : Functions) (plan : Plan) (n : ℕ) → IsValid F plan → Reached plan n → IsCompletePlan (tree_of plan n) }
{}

/// Each step of a node that a valid plan reaches is typed, where each scan that is reached holds a table that fits its schema.
pub fn valid_plans_are_typed()
    ensures { (F : Functions) (plan : Plan) (n : ℕ) → IsValid F plan → EachReached HoldsFitting plan → Reached plan n → IsTyped F (tree_of plan n) }
{}

/// The rows that a node of a valid plan means have the values that its schema says, where the tables of scans do.
pub fn valid_plans_rows_fit()
    ensures { (F : Functions) (choice : Choice) (plan : Plan) (n : ℕ) (T : Table) → IsLawful F → IsValid F plan → EachReached HoldsFitting plan → Reached plan n → Means F choice (tree_of plan n) T → FitsTable T }
{}

/// A step over tables that end alike gives a table that ends alike. What breaks the one breaks the other, or is a cause of an input.
pub fn steps_keep_ends()
    ensures { (F : Functions) (at : ℕ) (step : Step) (ps ls : List Table) (T : Table) → AllEndAlike ps ls → Case F at step ps T → (K : Table) × Case F at step ls K × EndAlike T K × ((c : Cause) → Contains T.broken c → Contains K.broken c ⊎ Contains (causes_of ps) c) }
{}
