// Pieces of passing nodes: for each something may be handed in, and what a fault says of the node, as theorems of functions that do nothing.
ghost use Rattle.std.specs.Prelude.{◌≡◌, ◌⊎◌, ◌∷◌, ◌<◌, [], Contains, List, Some, length, slice_get, ℕ};
ghost use Rattle.ps_frame.specs.Aggregates.{max_rows};
ghost use Rattle.ps_frame.specs.Causes.{Cause};
ghost use Rattle.ps_frame.specs.Functions.{Functions, IsLawful};
ghost use Rattle.ps_frame.specs.Tables.{Fields, Row, Table};
ghost use Rattle.ps_meaning.specs.Cases.{rows_table};
ghost use Rattle.ps_meaning.specs.Shape.{PhysicalNode, Shape};
ghost use Rattle.ps_meaning.specs.Sound.{IsSound, input_schemas};
ghost use Rattle.ps_options.specs.declared.options.Options.{Options};
ghost use Rattle.ps_turns.specs.Claims.{passes};
ghost use Rattle.ps_turns.specs.Progress.{Progress};
ghost use Rattle.ps_turns.specs.Results.{IsResult};
ghost use Rattle.ps_turns.specs.Tasks.{Answer, Handed, Piece};
ghost use Rattle.ps_world.specs.Booking.{BeforeAfter, Computes, IsPassing, MayAnswer, NeverGrows, StandsAt};
ghost use Rattle.ps_world.specs.Laws.{Faults, IsLargeWhatever, MakesFault, Overflows, sent_by};
ghost use Rattle.ps_world.specs.Opening.{Reaches};
ghost use Rattle.ps_world.specs.World.{Pipe, World, handed_in};

/// A piece of a passing node that gives too many rows says that the node is large, whatever its input turns out to mean, where the functions keep their laws: its input has too many rows, or a map's function answers some part of the input by too many.
pub fn large_pieces_tell_of_their_node()
    ensures { (F : Functions) (shape : Shape) (n : ℕ) (p : PhysicalNode) (s : Fields) → IsLawful F → IsSound F shape → slice_get shape n ≡ Some p → Computes p.kind → input_schemas shape p ≡ s ∷ [] → (from : Pipe) (k : ℕ) (front a : List Row) → StandsAt from.got k front a → (U : Table) → BeforeAfter F p p.kind (length front) (rows_table s a) U → max_rows < length U.rows → IsLargeWhatever F p (s ∷ []) (sent_by from ∷ []) }
{}

/// Each claim of a passing node of a sound shape has an answer that may be handed in: rows, or a cause.
pub fn claims_have_answers()
    ensures { (F : Functions) (o : Options) (shape : Shape) (n : ℕ) (p : PhysicalNode) (s : Fields) → IsSound F shape → slice_get shape n ≡ Some p → IsPassing p.kind → input_schemas shape p ≡ s ∷ [] → (progress : Progress) (i k : ℕ) (rs : List Row) → (a : Answer) × MayAnswer F i (passes o p (s ∷ []) p.kind progress k rs) a }
{}

/// A fault that is handed in for a piece of a passing node, but a streamable map, breaks the node whatever its input turns out to mean, or says that it has too many rows where its input has. No piece of a slice has one. Where the functions keep their laws this is so of a streamable map too, but that its input may be small, and its function answers a part of it by too many rows.
pub fn pieces_of_passing_nodes_fault_as_these()
    ensures short { (F : Functions) (shape : Shape) (o : Options) (w : World) (n : ℕ) (p : PhysicalNode) (s : Fields) (from to : Pipe) (input number worker : ℕ) (handed : Handed) (c : Cause) → IsSound F shape → Reaches F shape o w → slice_get shape n ≡ Some p → NeverGrows p.kind → input_schemas shape p ≡ s ∷ [] → Contains w.pipes from → from.wire.receiver ≡ n → Contains w.pipes to → to.wire.sender ≡ n → MakesFault F w (handed_in n input number worker handed) n c → Faults F p (s ∷ []) (sent_by from ∷ []) c ⊎ Overflows F p (s ∷ []) (sent_by from ∷ []) c }
    ensures lawful { (F : Functions) (shape : Shape) (o : Options) (w : World) (n : ℕ) (p : PhysicalNode) (s : Fields) (from to : Pipe) (input number worker : ℕ) (handed : Handed) (c : Cause) → IsLawful F → IsSound F shape → Reaches F shape o w → slice_get shape n ≡ Some p → Computes p.kind → input_schemas shape p ≡ s ∷ [] → Contains w.pipes from → from.wire.receiver ≡ n → Contains w.pipes to → to.wire.sender ≡ n → MakesFault F w (handed_in n input number worker handed) n c → Faults F p (s ∷ []) (sent_by from ∷ []) c ⊎ Overflows F p (s ∷ []) (sent_by from ∷ []) c }
{}

/// For each piece of a passing node that is out in a reached world something may be handed in: rows, or a cause.
pub fn pieces_of_passing_nodes_have_results()
    ensures { (F : Functions) (shape : Shape) (o : Options) (w : World) (n : ℕ) (p : PhysicalNode) (s : Fields) (from to : Pipe) (q : Piece) → IsSound F shape → Reaches F shape o w → slice_get shape n ≡ Some p → IsPassing p.kind → input_schemas shape p ≡ s ∷ [] → Contains w.pipes from → from.wire.receiver ≡ n → Contains w.pipes to → to.wire.sender ≡ n → Contains w.outs q → q.node ≡ n → (a : Answer) × IsResult F q a }
{}
