// Passing nodes compute piece by piece what they mean as a whole: theorems of functions that do nothing.
ghost use Rattle.std.specs.Prelude.{◌≡◌, ◌≢◌, ◌∷◌, ◌<◌, ◌⊎◌, [], Contains, IsTrue, List, None, Option, Some, length, not, slice_get, true, false, ℕ};
ghost use Rattle.std.specs.List.{list_any};
ghost use Rattle.ps_frame.specs.Aggregates.{max_rows};
ghost use Rattle.ps_frame.specs.Causes.{Cause};
ghost use Rattle.ps_frame.specs.Functions.{Functions};
ghost use Rattle.ps_frame.specs.Tables.{Fields, Frame, Row, Table};
ghost use Rattle.ps_frame.specs.Trees.{Tree};
ghost use Rattle.ps_frame.specs.Typing.{is_elementwise, is_independent};
ghost use Rattle.ps_frame.specs.declared.value.DataType.TheVariants as kind;
ghost use Rattle.ps_rowwise.specs.Rows.{HasKind};
ghost use Rattle.ps_turns.specs.Claims.{passes};
ghost use Rattle.ps_turns.specs.Progress.{Progress};
ghost use Rattle.ps_turns.specs.Tasks.{bad, good};
ghost use Rattle.ps_options.specs.declared.options.Options.{Options};
ghost use Rattle.ps_meaning.specs.Cases.{stream_table, rows_table};
ghost use Rattle.ps_meaning.specs.Schemas.{output_schema};
ghost use Rattle.ps_meaning.specs.Shape.{PhysicalNode, Shape, filter_node, select_node, simple_projection, stream_map, streaming_slice, with_row_index};
ghost use Rattle.ps_meaning.specs.Sound.{AreElementwise, IsSound, have_all_kinds, input_schemas};
ghost use Rattle.ps_meaning.specs.Steps.{Name, Named, exprs_of, hstack, project, select, user};
ghost use Rattle.ps_world.specs.Booking.{BeforeAfter, Computes, FaultsByPart, GivesAfter, GoesOn, HasBooked, HoldsAfter, IsPassing, NeverGrows, MayAnswer, StandsAt, counter, second_row};
ghost use Rattle.ps_world.specs.Laws.{BreaksWhatever, IsLargeWhatever, Justified, sent_by};
ghost use Rattle.ps_world.specs.Passing.{GoesPiecewise, one_port};
ghost use Rattle.ps_world.specs.World.{Pipe};

/// A filter by an elementwise expression, over a table that has a column.
pub fn filters_go_piecewise()
    ensures { (F : Functions) (p : PhysicalNode) (s : Fields) (e : Tree) → p.kind ≡ filter_node e → p.schema ≡ s → s ≢ [] → IsTrue (is_elementwise e) → HasKind s e → GoesPiecewise F p s }
{}

/// A select of elementwise expressions, of which one reads its input.
pub fn selects_go_piecewise()
    ensures { (F : Functions) (p : PhysicalNode) (s : Fields) (es : List Named) → p.kind ≡ select_node es false → output_schema F (select es) (s ∷ []) ≡ Some p.schema → AreElementwise (exprs_of es) → IsTrue (list_any (λ e. not (is_independent e)) (exprs_of es)) → IsTrue (have_all_kinds s (exprs_of es)) → GoesPiecewise F p s }
{}

/// A select that extends its input by elementwise expressions, over a table that has a column.
pub fn extending_selects_go_piecewise()
    ensures { (F : Functions) (p : PhysicalNode) (s : Fields) (es : List Named) → p.kind ≡ select_node es true → output_schema F (hstack es) (s ∷ []) ≡ Some p.schema → s ≢ [] → AreElementwise (exprs_of es) → IsTrue (have_all_kinds s (exprs_of es)) → GoesPiecewise F p s }
{}

/// A simple projection.
pub fn projections_go_piecewise()
    ensures { (F : Functions) (p : PhysicalNode) (s : Fields) (ns : List Name) → p.kind ≡ simple_projection ns → output_schema F (project ns) (s ∷ []) ≡ Some p.schema → GoesPiecewise F p s }
{}

/// A map by a function that streams.
pub fn stream_maps_go_piecewise()
    ensures { (F : Functions) (p : PhysicalNode) (s : Fields) (n : ℕ) → p.kind ≡ stream_map (user n) → output_schema F (user n) (s ∷ []) ≡ Some p.schema → F.streams n ≡ true → GoesPiecewise F p s }
{}

/// A row index goes on counting from piece to piece.
pub fn row_indexes_go_on()
    ensures { (F : Functions) (p : PhysicalNode) (s : Fields) (name : Name) (offset : Option ℕ) → p.kind ≡ with_row_index name offset → (name, kind.IdxSize) ∷ s ≡ p.schema → GoesOn F p s }
{}

/// A slice goes on skipping and taking from piece to piece.
pub fn slices_go_on()
    ensures { (F : Functions) (p : PhysicalNode) (s : Fields) (offset n : ℕ) → p.kind ≡ streaming_slice offset n → p.schema ≡ s → GoesOn F p s }
{}

/// Every passing node of a sound shape goes on from piece to piece.
pub fn passing_nodes_go_on()
    ensures { (F : Functions) (shape : Shape) (n : ℕ) (p : PhysicalNode) (s : Fields) → IsSound F shape → slice_get shape n ≡ Some p → IsPassing p.kind → input_schemas shape p ≡ s ∷ [] → GoesOn F p s }
{}

/// Where it goes on, whatever table its input turns out to mean, it may give one that extends what it has sent.
pub fn passing_nodes_are_justified()
    ensures { (F : Functions) (p : PhysicalNode) (s : Fields) → GoesOn F p s → (from to : Pipe) → HoldsAfter F p s from to → Justified F p (s ∷ []) (sent_by from ∷ []) (one_port to) }
{}

/// What breaks a passing node of a sound shape over a part of the rows breaks it over all of them.
pub fn parts_break_all()
    ensures { (F : Functions) (shape : Shape) (n : ℕ) (p : PhysicalNode) (s : Fields) → IsSound F shape → slice_get shape n ≡ Some p → Computes p.kind → input_schemas shape p ≡ s ∷ [] → FaultsByPart F p s }
{}

/// A row index and a slice that took each piece alone would give other rows.
pub fn pieces_are_not_alone()
    ensures index { (F : Functions) → ¬ GoesPiecewise F counter [] }
    ensures slice { (F : Functions) → ¬ GoesPiecewise F second_row [] }
{}

/// A cause that a piece of a passing node may answer breaks the node, whatever its input turns out to mean. One with too many rows, but for a map, has an input with too many.
pub fn pieces_fault_as_their_node()
    ensures causes { (F : Functions) (shape : Shape) (n : ℕ) (p : PhysicalNode) (s : Fields) → IsSound F shape → slice_get shape n ≡ Some p → Computes p.kind → input_schemas shape p ≡ s ∷ [] → (from : Pipe) (k : ℕ) (front a : List Row) → StandsAt from.got k front a → (U : Table) (c : Cause) → BeforeAfter F p p.kind (length front) (rows_table s a) U → Contains U.broken c → BreaksWhatever F p (s ∷ []) (sent_by from ∷ []) c }
    ensures rows { (F : Functions) (shape : Shape) (n : ℕ) (p : PhysicalNode) (s : Fields) → IsSound F shape → slice_get shape n ≡ Some p → NeverGrows p.kind → input_schemas shape p ≡ s ∷ [] → (from : Pipe) (k : ℕ) (front a : List Row) → StandsAt from.got k front a → (U : Table) → BeforeAfter F p p.kind (length front) (rows_table s a) U → max_rows < length U.rows → IsLargeWhatever F p (s ∷ []) (sent_by from ∷ []) }
{}

/// A map by a function that streams gives no rows where the first of two rows faults, and all rows of the second's answer where that row comes alone.
pub fn maps_may_pass_the_limit()
    ensures alone { (F : Functions) (n : ℕ) (s o : Fields) (at : ℕ) (r : Row) (big : Frame) → F.answer n (record { schema = s; rows = r ∷ [] }) ≡ Some big → (stream_table F at n o (rows_table s (r ∷ []))).rows ≡ big.rows }
    ensures behind { (F : Functions) (n : ℕ) (s o : Fields) (at : ℕ) (q r : Row) → F.answer n (record { schema = s; rows = q ∷ [] }) ≡ None → (stream_table F at n o (rows_table s (q ∷ r ∷ []))).rows ≡ [] }
{}

/// What may be handed in for a claim of a passing node is what the node gives behind the rows before; a cause breaks the node or, where there are too many rows, its input has too many.
pub fn answers_to_claims()
    ensures good { (F : Functions) (o : Options) (p : PhysicalNode) (s : Fields) → IsPassing p.kind → GoesOn F p s → (progress : Progress) (before : ℕ) → HasBooked p.kind progress before → (i k : ℕ) (rs b : List Row) → MayAnswer F i (passes o p (s ∷ []) p.kind progress k rs) (good b) → GivesAfter F p s before rs b }
    ensures bad { (F : Functions) (o : Options) (shape : Shape) (n : ℕ) (p : PhysicalNode) (s : Fields) → IsSound F shape → slice_get shape n ≡ Some p → NeverGrows p.kind → input_schemas shape p ≡ s ∷ [] → (from : Pipe) (progress : Progress) (i k : ℕ) (front a : List Row) (c : Cause) → StandsAt from.got k front a → HasBooked p.kind progress (length front) → MayAnswer F i (passes o p (s ∷ []) p.kind progress k a) (bad c) → BreaksWhatever F p (s ∷ []) (sent_by from ∷ []) c ⊎ IsLargeWhatever F p (s ∷ []) (sent_by from ∷ []) }
{}
