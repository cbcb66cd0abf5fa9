// How runs of streaming nodes end, as a theorem of a function that does nothing.
ghost use Rattle.std.specs.Prelude.{◌≡◌, Some, slice_get, ℕ};
ghost use Rattle.ps_frame.specs.Functions.{Functions, IsLawful};
ghost use Rattle.ps_meaning.specs.Shape.{PhysicalNode, Shape};
ghost use Rattle.ps_meaning.specs.Sound.{IsSound};
ghost use Rattle.ps_options.specs.declared.options.Options.{Options};
ghost use Rattle.ps_world.specs.Opening.{Reaches};
ghost use Rattle.ps_world.specs.Promises.{IsAnswered};
ghost use Rattle.ps_world.specs.World.{World};
ghost use Rattle.world_families.specs.Kinds.{IsStreaming};
ghost use Rattle.streaming_answers.specs.NoMaps.{StreamsNoMap};

/// Where all nodes of a sound shape stream, a run that ended has its answer, by any number of workers and in any order of steps: finished, every pipe is done and the sink has a whole table of its meaning; faulty, it names a cause that breaks its node in some meaning, or too many rows where the node is large. The functions keep their laws, or no node is a map.
pub fn streaming_runs_are_answered()
    ensures lawful { (F : Functions) (shape : Shape) (o : Options) (w : World) → IsLawful F → IsSound F shape → ((n : ℕ) (p : PhysicalNode) → slice_get shape n ≡ Some p → IsStreaming p.kind) → Reaches F shape o w → IsAnswered F shape w }
    ensures no_map { (F : Functions) (shape : Shape) (o : Options) (w : World) → IsSound F shape → ((n : ℕ) (p : PhysicalNode) → slice_get shape n ≡ Some p → StreamsNoMap p.kind) → Reaches F shape o w → IsAnswered F shape w }
{}
