// What every reached world keeps of nodes that stream, as theorems of functions that do nothing.
ghost use Rattle.std.specs.Prelude.{◌≡◌, Some, slice_get, ℕ};
ghost use Rattle.ps_frame.specs.Functions.{Functions};
ghost use Rattle.ps_meaning.specs.Shape.{PhysicalNode, Shape};
ghost use Rattle.ps_meaning.specs.Sound.{IsSound, input_schemas};
ghost use Rattle.ps_options.specs.declared.options.Options.{Options};
ghost use Rattle.ps_world.specs.Laws.{Justified, ServedByChoice, sent_at, sent_to};
ghost use Rattle.ps_world.specs.Opening.{Reaches};
ghost use Rattle.ps_world.specs.World.{World, shape_of};
ghost use Rattle.world_families.specs.Holds.{Holds};
ghost use Rattle.world_families.specs.Kinds.{IsStreaming};

/// What its family keeps holds in every reached world of each source, select, filter, projection, streamable map, row index, slice, union and sink, whatever the other nodes.
pub fn streaming_nodes_hold()
    ensures { (F : Functions) (shape : Shape) (o : Options) (w : World) (n : ℕ) (p : PhysicalNode) → IsSound F shape → Reaches F shape o w → slice_get (shape_of w) n ≡ Some p → IsStreaming p.kind → Holds F w n }
{}

/// So what such a node has sent begins a table that it may give, whatever tables its inputs turn out to mean, and is all of it where it is complete.
pub fn streaming_nodes_are_justified()
    ensures { (F : Functions) (shape : Shape) (o : Options) (w : World) (n : ℕ) (p : PhysicalNode) → IsSound F shape → Reaches F shape o w → slice_get (shape_of w) n ≡ Some p → IsStreaming p.kind → Justified F p (input_schemas (shape_of w) p) (sent_to (sent_at w) p) (sent_at w n) }
{}

/// Where all nodes of a sound shape are such nodes, one choice of tables serves all ports in every world that it reaches, by any number of workers and in any order of steps: what each port has sent, and what a sink has stored, begins the table that its node means, and is all of it where it is complete.
pub fn streaming_graphs_are_served()
    ensures { (F : Functions) (shape : Shape) (o : Options) (w : World) → IsSound F shape → ((n : ℕ) (p : PhysicalNode) → slice_get shape n ≡ Some p → IsStreaming p.kind) → Reaches F shape o w → ServedByChoice F shape (sent_at w) }
{}
