//! What every reached world keeps of a group-by, what it gives, says and finds, as theorems of functions that do nothing.
ghost use Rattle.std.specs.Prelude.{Contains, IsFalse, List, Some, slice_get, ℕ, ◌≡◌, ◌⊎◌};
ghost use Rattle.ps_frame.specs.Causes.{Cause};
ghost use Rattle.ps_frame.specs.Functions.{Functions};
ghost use Rattle.ps_meaning.specs.Shape.{PhysicalNode, Shape, group_by_node};
ghost use Rattle.ps_meaning.specs.Sound.{IsSound, input_schemas};
ghost use Rattle.ps_meaning.specs.Steps.{Named};
ghost use Rattle.ps_options.specs.declared.options.Options.{Options};
ghost use Rattle.ps_turns.specs.Results.{IsResult};
ghost use Rattle.ps_turns.specs.Tasks.{Answer, Piece};
ghost use Rattle.ps_world.specs.Laws.{Faults, Justified, MakesFault, Overflows, PortLaw, sent_at, sent_to};
ghost use Rattle.ps_world.specs.Opening.{Reaches};
ghost use Rattle.ps_world.specs.Updates.{IsSettled, Updates};
ghost use Rattle.ps_world.specs.World.{Node, Record, World, running, shape_of};
ghost use Rattle.world_families.specs.Holds.{Holds};

/// What its family keeps holds of each group-by in every reached world, whatever the other nodes: it keeps each morsel with a partial, splits the keys of all that came into lists once it gives, and gives one list's rows after the other.
pub fn groups_hold()
    ensures { (F : Functions) (shape : Shape) (o : Options) (w : World) (n : ℕ) (p : PhysicalNode) (keys aggregates : List Named) → IsSound F shape → Reaches F shape o w → slice_get (shape_of w) n ≡ Some p → p.kind ≡ group_by_node keys aggregates → Holds F w n }
{}

/// What it has sent begins a table that it may give, and is all of it where it is complete: its lists' rows, in whatever order they were handed in, are the groups of all that came.
pub fn groups_are_justified()
    ensures { (F : Functions) (shape : Shape) (o : Options) (w : World) (n : ℕ) (p : PhysicalNode) (keys aggregates : List Named) → IsSound F shape → Reaches F shape o w → slice_get (shape_of w) n ≡ Some p → p.kind ≡ group_by_node keys aggregates → Justified F p (input_schemas (shape_of w) p) (sent_to (sent_at w) p) (sent_at w n) }
{}

/// Between phases it takes a live input and is blocked to its output, or it is ready to its output.
pub fn groups_keep_ports()
    ensures { (F : Functions) (shape : Shape) (o : Options) (w : World) (n : ℕ) (s : World) → IsSound F shape → Reaches F shape o w → IsFalse w.is_open → w.ending ≡ running → Updates F w s → (node : Node) (keys aggregates : List Named) → slice_get s.nodes n ≡ Some node → node.node.kind ≡ group_by_node keys aggregates → IsSettled s → PortLaw s n }
{}

/// For each of its pieces something may be handed in: a partial, the rows of a list, or a cause.
pub fn groups_have_results()
    ensures { (F : Functions) (shape : Shape) (o : Options) (w : World) (n : ℕ) (node : Node) (keys aggregates : List Named) → IsSound F shape → Reaches F shape o w → slice_get w.nodes n ≡ Some node → node.node.kind ≡ group_by_node keys aggregates → (q : Piece) → Contains w.outs q → q.node ≡ n → (a : Answer) × IsResult F q a }
{}

/// A cause that a step finds at it breaks it in some table that it may give, whatever its input turns out to mean, or says that there are too many rows, and there are.
pub fn groups_name_causes()
    ensures { (F : Functions) (shape : Shape) (o : Options) (w : World) (n : ℕ) (node : Node) (keys aggregates : List Named) → IsSound F shape → Reaches F shape o w → slice_get w.nodes n ≡ Some node → node.node.kind ≡ group_by_node keys aggregates → (r : Record) (c : Cause) → MakesFault F w r n c
        → Faults F node.node (input_schemas (shape_of w) node.node) (sent_to (sent_at w) node.node) c ⊎ Overflows F node.node (input_schemas (shape_of w) node.node) (sent_to (sent_at w) node.node) c }
{}
