// The nodes of an open phase move: theorems of functions that do nothing.
ghost use Rattle.std.specs.Prelude.{◌≡◌, ◌⊎◌, IsTrue, ℕ};
ghost use Rattle.ps_frame.specs.Functions.{Functions};
ghost use Rattle.ps_meaning.specs.Shape.{Shape};
ghost use Rattle.ps_meaning.specs.Sound.{IsSound};
ghost use Rattle.ps_options.specs.declared.options.Options.{Options};
ghost use Rattle.ps_world.specs.Laws.{IsOut, MayStep, Progresses};
ghost use Rattle.ps_world.specs.Opening.{Reaches};
ghost use Rattle.ps_world.specs.World.{World, running};
ghost use Rattle.world_ends.specs.Runs.{IsNeverStuck};

/// In every reached world that goes on, a node of the open phase that isn't closed may move, or a piece is out, or the node waits for one input or for one output: the second part of the law of each family of nodes.
pub fn nodes_progress()
    ensures { (F : Functions) (shape : Shape) (o : Options) (w : World) (n : ℕ) → IsSound F shape → Reaches F shape o w → w.ending ≡ running → Progresses F w n }
{}

/// So no run is stuck while a phase is open: a step may be made, or a piece is out.
pub fn phases_go_on()
    ensures { (F : Functions) (shape : Shape) (o : Options) (w : World) → IsSound F shape → Reaches F shape o w → w.ending ≡ running → IsTrue w.is_open → MayStep F w ⊎ IsOut w }
{}

/// And between phases updates come to rest or find a fault, so no run is stuck at all: a reached world that is neither finished nor faulty may make a step, or has a piece out.
pub fn no_run_is_stuck()
    ensures { (F : Functions) (shape : Shape) (o : Options) → IsSound F shape → IsNeverStuck F shape o }
{}
