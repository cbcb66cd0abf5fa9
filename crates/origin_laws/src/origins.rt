// Where causes come from, as theorems of functions that do nothing.
ghost use Rattle.std.specs.Prelude.{◌≡◌, ◌++◌, ◌∷◌, [], Contains, List, ℕ};
ghost use Rattle.std.specs.List.{AllByRecursion};
ghost use Rattle.origin_laws.specs.Origins.{AreOwnOr, all_broken};
ghost use Rattle.ps_frame.specs.Causes.{Cause, column_causes};
ghost use Rattle.ps_frame.specs.Eval.{eval};
ghost use Rattle.ps_frame.specs.Examples.{a, bad_text, col_a, earlier, int};
ghost use Rattle.ps_frame.specs.Functions.{Functions};
ghost use Rattle.ps_frame.specs.Tables.{IsWhole, Table};
ghost use Rattle.ps_frame.specs.Trees.{Tree};
ghost use Rattle.ps_frame.specs.declared.expr.Operator.TheVariants as op;
ghost use Rattle.ps_frame.specs.declared.value.DataFault.TheVariants as fault;
ghost use Rattle.ps_frame.specs.declared.value.DataType.TheVariants as kind;
ghost use Rattle.ps_meaning.specs.Cases.{Case, GivesBeforeCut};
ghost use Rattle.ps_meaning.specs.Shape.{PhysicalBefore, PhysicalNode, as_step, tables_for};
ghost use Rattle.ps_meaning.specs.Steps.{Step};

/// A cause in the column of an expression, or one that the column lost, was made by the node at which the expression stands, or broke the table.
pub fn causes_of_expressions()
    ensures { (node : ℕ) (t : Table) (e : Tree) → AreOwnOr t.broken node (column_causes (eval node t e) ++ (eval node t e).lost) }
{}

/// A text that is no number, cast strictly at node 1 beside a column that an earlier node ended: the causes are the cast's own, and the table's.
pub fn causes_of_two_nodes()
    ensures { column_causes (eval 1 (record { schema = (a, kind.Int64) ∷ []; rows = (int 7 ∷ []) ∷ []; broken = earlier ∷ [] }) (Tree.binary op.Eq col_a bad_text)) ≡ record { fault = fault.StrictCast; node = 1 } ∷ earlier ∷ record { fault = fault.StrictCast; node = 1 } ∷ [] }
{}

/// What breaks a table that a step may give, before or after its slice, was made by the step's node, or broke one of the tables of its inputs.
pub fn causes_of_steps()
    ensures before { (F : Functions) (at : ℕ) (step : Step) (ts : List Table) (U : Table) → GivesBeforeCut F at step ts U → AreOwnOr (all_broken ts) at U.broken }
    ensures after { (F : Functions) (at : ℕ) (step : Step) (ts : List Table) (T : Table) → Case F at step ts T → AreOwnOr (all_broken ts) at T.broken }
{}

/// Over whole tables, what breaks a table that a physical node may give was made by the node that it came from.
pub fn causes_over_whole_inputs()
    ensures { (F : Functions) (p : PhysicalNode) (ts : List Table) (U : Table) → AllByRecursion IsWhole ts → PhysicalBefore F p (as_step p.kind) (tables_for F p.kind ts) U → (c : Cause) → Contains U.broken c → c.node ≡ p.origin }
{}
