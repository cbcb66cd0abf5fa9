// How runs of graphs of streaming nodes end, as theorems of functions that do nothing.
ghost use Rattle.std.specs.Prelude.{◌≡◌, Some, slice_get, ℕ};
ghost use Rattle.ps_frame.specs.Functions.{Functions};
ghost use Rattle.ps_meaning.specs.Shape.{PhysicalNode, Shape};
ghost use Rattle.ps_meaning.specs.Sound.{IsSound};
ghost use Rattle.ps_options.specs.declared.options.Options.{Options};
ghost use Rattle.ps_world.specs.Laws.{AllDone};
ghost use Rattle.ps_world.specs.Opening.{Reaches};
ghost use Rattle.ps_world.specs.Promises.{HoldsMeaning};
ghost use Rattle.ps_world.specs.World.{World, finished};
ghost use Rattle.world_families.specs.Kinds.{IsStreaming};

/// Where all nodes of a sound shape stream, a finished run has every pipe done on both ends, and the rows in its sink are those of a whole table that the sink means.
pub fn streaming_runs_end_whole()
    ensures done { (F : Functions) (shape : Shape) (o : Options) (w : World) → IsSound F shape → ((n : ℕ) (p : PhysicalNode) → slice_get shape n ≡ Some p → IsStreaming p.kind) → Reaches F shape o w → w.ending ≡ finished → AllDone w }
    ensures meaning { (F : Functions) (shape : Shape) (o : Options) (w : World) → IsSound F shape → ((n : ℕ) (p : PhysicalNode) → slice_get shape n ≡ Some p → IsStreaming p.kind) → Reaches F shape o w → w.ending ≡ finished → HoldsMeaning F shape w }
{}
