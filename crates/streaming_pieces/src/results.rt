// Pieces of streaming nodes, as a theorem of a function that does nothing.
ghost use Rattle.std.specs.Prelude.{◌≡◌, Contains, Some, slice_get, ℕ};
ghost use Rattle.ps_frame.specs.Functions.{Functions};
ghost use Rattle.ps_meaning.specs.Shape.{Shape};
ghost use Rattle.ps_meaning.specs.Sound.{IsSound};
ghost use Rattle.ps_options.specs.declared.options.Options.{Options};
ghost use Rattle.ps_turns.specs.Results.{IsResult};
ghost use Rattle.ps_turns.specs.Tasks.{Answer, Piece};
ghost use Rattle.ps_world.specs.Opening.{Reaches};
ghost use Rattle.ps_world.specs.World.{Node, World};
ghost use Rattle.world_families.specs.Kinds.{IsStreaming};

/// For each piece of a streaming node that is out in a reached world something may be handed in: rows, or a cause.
pub fn streaming_pieces_have_results()
    ensures { (F : Functions) (shape : Shape) (o : Options) (w : World) (n : ℕ) (node : Node) (q : Piece) → IsSound F shape → Reaches F shape o w → slice_get w.nodes n ≡ Some node → IsStreaming node.node.kind → Contains w.outs q → q.node ≡ n → (a : Answer) × IsResult F q a }
{}
