//! Laws of reductions over a part of the rows, as theorems of functions that do nothing.
ghost use Rattle.std.specs.Prelude.{◌≡◌, ◌∷◌, ◌<◌, ◌⊎◌, [], Contains, IsTrue, List, Some, length, slice_get, ℕ};
ghost use Rattle.ps_frame.specs.Aggregates.{max_rows};
ghost use Rattle.ps_frame.specs.Causes.{Cause, column_causes};
ghost use Rattle.ps_frame.specs.Eval.{eval};
ghost use Rattle.ps_frame.specs.Functions.{Functions};
ghost use Rattle.ps_frame.specs.Tables.{Fields, Row, Table};
ghost use Rattle.ps_frame.specs.Trees.{Tree};
ghost use Rattle.ps_frame.specs.Typing.{is_elementwise};
ghost use Rattle.ps_frame.specs.declared.value.DataFault.TheVariants as data_fault;
ghost use Rattle.ps_meaning.specs.Cases.{rows_table};
ghost use Rattle.ps_meaning.specs.Shape.{PhysicalNode, Shape, reduce};
ghost use Rattle.ps_meaning.specs.Sound.{IsReduction, IsSound, input_schemas};
ghost use Rattle.ps_meaning.specs.Steps.{Named};
ghost use Rattle.ps_rowwise.specs.Rows.{HasKind};
ghost use Rattle.ps_turns.specs.Results.{BreaksPartial, IsBrokenOver, IsMade, IsPartial};
ghost use Rattle.part_laws.specs.Parts.{ShowsParts, strict_cause};

/// An elementwise expression makes one cause alone: that of a strict cast, at the node at which it stands.
pub fn elementwise_expressions_make_one_cause()
    ensures found { (node : ℕ) (s : Fields) (t : Tree) → IsTrue (is_elementwise t) → HasKind s t → (rows : List Row) (c : Cause) → Contains (column_causes (eval node (rows_table s rows) t)) c → c ≡ strict_cause node }
    ensures lost { (node : ℕ) (s : Fields) (t : Tree) → IsTrue (is_elementwise t) → HasKind s t → (rows : List Row) (c : Cause) → Contains (eval node (rows_table s rows) t).lost c → c ≡ strict_cause node }
{}

/// What a reduction finds over some rows it finds over all rows among which they are, whatever ends these; but a count of too many rows is no count where a fault ended them.
pub fn reductions_find_by_part()
    ensures { (node : ℕ) (s : Fields) (t : Tree) → IsReduction t → HasKind s t → (a rows : List Row) (causes : List Cause) → ((x : Row) → Contains a x → Contains rows x) → (c : Cause) → Contains (column_causes (eval node (rows_table s a) t)) c
        → Contains (column_causes (eval node (record { schema = s; rows = rows; broken = causes }) t)) c ⊎ (c ≡ record { fault = data_fault.Rows; node = node }) × (max_rows < length a) }
{}

/// What breaks a reduce of a sound shape over a morsel breaks it over all rows, or the morsel has too many.
pub fn reduces_show_parts()
    ensures { (F : Functions) (shape : Shape) (n : ℕ) (p : PhysicalNode) (s : Fields) (es : List Named) → IsSound F shape → slice_get shape n ≡ Some p → p.kind ≡ reduce es → input_schemas shape p ≡ s ∷ [] → ShowsParts F p s }
{}

/// Of each morsel of a reduce there is a partial, or a cause; and of all its rows the one row, or a cause.
pub fn reduces_answer()
    ensures partial { (F : Functions) (p : PhysicalNode) (es : List Named) → p.kind ≡ reduce es → (i : ℕ) (ts : List Table) → ((n : ℕ) × IsPartial F p p.kind i ts n) ⊎ ((c : Cause) × BreaksPartial F p p.kind i ts c) }
    ensures row { (F : Functions) (p : PhysicalNode) (es : List Named) → p.kind ≡ reduce es → (ts : List Table) → ((rs : List Row) × IsMade F p ts rs) ⊎ ((c : Cause) × IsBrokenOver F p ts c) }
{}
