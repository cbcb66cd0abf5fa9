//! What every reached world keeps of a map over a whole table, an in-memory join and a slice from the end, what each of them gives, says and finds, as theorems of functions that do nothing.
ghost use Rattle.std.specs.Prelude.{Contains, IsFalse, IsTrue, List, Some, slice_get, ℕ, ◌≡◌, ◌⊎◌};
ghost use Rattle.ps_frame.specs.Causes.{Cause};
ghost use Rattle.ps_frame.specs.Functions.{Functions, IsLawful};
ghost use Rattle.ps_frame.specs.Tables.{Row};
ghost use Rattle.ps_meaning.specs.Shape.{PhysicalNode, Shape};
ghost use Rattle.ps_meaning.specs.Sound.{IsSound, input_schemas};
ghost use Rattle.ps_options.specs.declared.options.Options.{Options};
ghost use Rattle.ps_turns.specs.Progress.{makes_table};
ghost use Rattle.ps_turns.specs.Results.{IsResult};
ghost use Rattle.ps_turns.specs.Tasks.{Piece, good};
ghost use Rattle.ps_world.specs.Laws.{Faults, Justified, MakesFault, Overflows, PortLaw, sent_at, sent_to};
ghost use Rattle.ps_world.specs.Opening.{Reaches};
ghost use Rattle.ps_world.specs.Updates.{FaultFound, IsSettled, Updates};
ghost use Rattle.ps_world.specs.World.{Node, Record, World, running, shape_of};
ghost use Rattle.world_families.specs.Holds.{Holds};

/// What its family keeps holds in every reached world of each node that makes a table of all its input, whatever the other nodes: it stores what it pulls, makes its table of all that came before it gives anything, and gives the table's cuts.
pub fn makers_hold()
    ensures { (F : Functions) (shape : Shape) (o : Options) (w : World) (n : ℕ) (p : PhysicalNode) → IsSound F shape → Reaches F shape o w → slice_get (shape_of w) n ≡ Some p → IsTrue (makes_table p.kind) → Holds F w n }
{}

/// So what it has sent begins a table that it may give, whatever tables its inputs turn out to mean, and is all of it where it is complete.
pub fn makers_are_justified()
    ensures { (F : Functions) (shape : Shape) (o : Options) (w : World) (n : ℕ) (p : PhysicalNode) → IsLawful F → IsSound F shape → Reaches F shape o w → slice_get (shape_of w) n ≡ Some p → IsTrue (makes_table p.kind) → Justified F p (input_schemas (shape_of w) p) (sent_to (sent_at w) p) (sent_at w n) }
{}

/// Between phases it takes a live input and is blocked to its output, or it is ready to its output.
pub fn makers_keep_ports()
    ensures { (F : Functions) (shape : Shape) (o : Options) (w : World) → IsSound F shape → Reaches F shape o w → (n : ℕ) (s : World) → IsFalse w.is_open → w.ending ≡ running → Updates F w s → (node : Node) → slice_get s.nodes n ≡ Some node → IsTrue (makes_table node.node.kind) → IsSettled s → PortLaw s n }
{}

/// For each of its pieces rows may be handed in.
pub fn makers_have_results()
    ensures { (F : Functions) (shape : Shape) (o : Options) (w : World) → IsSound F shape → Reaches F shape o w → (n : ℕ) (node : Node) → slice_get w.nodes n ≡ Some node → IsTrue (makes_table node.node.kind) → (q : Piece) → Contains w.outs q → q.node ≡ n → (rs : List Row) × IsResult F q (good rs) }
{}

/// A cause that an update of it finds breaks it in some table that it may give, whatever its inputs turn out to mean, or says that there are too many rows, and there are.
pub fn updates_name_causes()
    ensures { (F : Functions) (shape : Shape) (o : Options) (w : World) → IsSound F shape → Reaches F shape o w → (n : ℕ) (s : World) → IsFalse w.is_open → w.ending ≡ running → Updates F w s → (node : Node) → slice_get s.nodes n ≡ Some node → IsTrue (makes_table node.node.kind) → (c : Cause) → FaultFound F s n c
        → Faults F node.node (input_schemas (shape_of s) node.node) (sent_to (sent_at s) node.node) c ⊎ Overflows F node.node (input_schemas (shape_of s) node.node) (sent_to (sent_at s) node.node) c }
{}

/// So does a cause that a step of an open phase finds: only a pull finds one.
pub fn steps_name_causes()
    ensures { (F : Functions) (shape : Shape) (o : Options) (w : World) → IsSound F shape → Reaches F shape o w → (n : ℕ) (node : Node) → slice_get w.nodes n ≡ Some node → IsTrue (makes_table node.node.kind) → IsTrue w.is_open → (r : Record) (c : Cause) → MakesFault F w r n c
        → Faults F node.node (input_schemas (shape_of w) node.node) (sent_to (sent_at w) node.node) c ⊎ Overflows F node.node (input_schemas (shape_of w) node.node) (sent_to (sent_at w) node.node) c }
{}
