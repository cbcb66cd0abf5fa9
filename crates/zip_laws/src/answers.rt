// What may be handed in for the pieces of a zip, and the causes that it names, as theorems of functions that do nothing.
ghost use Rattle.std.specs.Prelude.{◌≡◌, ◌⊎◌, Bool, Contains, IsFalse, Some, slice_get, ℕ};
ghost use Rattle.ps_frame.specs.Causes.{Cause};
ghost use Rattle.ps_frame.specs.Functions.{Functions};
ghost use Rattle.ps_meaning.specs.Shape.{Shape, zip_node};
ghost use Rattle.ps_meaning.specs.Sound.{IsSound, input_schemas};
ghost use Rattle.ps_options.specs.declared.options.Options.{Options};
ghost use Rattle.ps_turns.specs.Pulls.{is_store};
ghost use Rattle.ps_turns.specs.Results.{IsResult};
ghost use Rattle.ps_turns.specs.Tasks.{Answer, Piece, bad};
ghost use Rattle.ps_world.specs.Laws.{Faults, MakesFault, Overflows, sent_at, sent_to};
ghost use Rattle.ps_world.specs.Opening.{Reaches};
ghost use Rattle.ps_world.specs.Phases.{after_fault};
ghost use Rattle.ps_world.specs.Updates.{FaultFound, Updates};
ghost use Rattle.ps_world.specs.World.{Node, World, pulled, running, shape_of};

/// For each piece of a zip that is out in a reached world something may be handed in.
pub fn zip_pieces_have_results()
    ensures { (F : Functions) (shape : Shape) (o : Options) (w : World) (n : ℕ) (node : Node) (extend : Bool) (q : Piece) → IsSound F shape → Reaches F shape o w → slice_get w.nodes n ≡ Some node → node.node.kind ≡ zip_node extend → Contains w.outs q → q.node ≡ n → (a : Answer) × IsResult F q a }
{}

/// A cause that may be handed in for such a piece breaks the zip, whatever its inputs turn out to mean, or says that it has too many rows where an input has.
pub fn zip_pieces_name_causes()
    ensures { (F : Functions) (shape : Shape) (o : Options) (w : World) (n : ℕ) (node : Node) (extend : Bool) (q : Piece) (c : Cause) → IsSound F shape → Reaches F shape o w → slice_get w.nodes n ≡ Some node → node.node.kind ≡ zip_node extend → Contains w.outs q → q.node ≡ n → IsResult F q (bad c) → Faults F node.node (input_schemas (shape_of w) node.node) (sent_to (sent_at w) node.node) c ⊎ Overflows F node.node (input_schemas (shape_of w) node.node) (sent_to (sent_at w) node.node) c }
{}

/// Where updates from a reached world, in which the run goes on, lead to a fault of a zip, the lengths of its inputs can't agree, whatever these turn out to mean: what they have sent is that of the world of the fault, and of the world that the Open leads to.
pub fn updates_of_zips_name_causes()
    ensures at_the_fault { (F : Functions) (shape : Shape) (o : Options) (w s : World) (n : ℕ) (node : Node) (extend : Bool) (c : Cause) → IsSound F shape → Reaches F shape o w → IsFalse w.is_open → w.ending ≡ running → Updates F w s → slice_get s.nodes n ≡ Some node → node.node.kind ≡ zip_node extend → FaultFound F s n c → Faults F node.node (input_schemas (shape_of s) node.node) (sent_to (sent_at s) node.node) c }
    ensures of_the_open { (F : Functions) (shape : Shape) (o : Options) (w s : World) (phase n : ℕ) (node : Node) (extend : Bool) (c : Cause) → IsSound F shape → Reaches F shape o w → IsFalse w.is_open → w.ending ≡ running → Updates F w s → slice_get s.nodes n ≡ Some node → node.node.kind ≡ zip_node extend → FaultFound F s n c → Faults F node.node (input_schemas (shape_of (after_fault s phase c)) node.node) (sent_to (sent_at (after_fault s phase c)) node.node) c }
{}

/// No pull of a node that stores no tables, as a zip or a multiplexer, finds a fault.
pub fn pulls_find_no_fault()
    ensures { (F : Functions) (w : World) (m i number n : ℕ) (node : Node) (c : Cause) → slice_get w.nodes n ≡ Some node → IsFalse (is_store node.node.kind) → ¬ MakesFault F w (pulled m i number) n c }
{}
