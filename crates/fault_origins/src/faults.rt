// Whose a fault is, as theorems of functions that do nothing.
ghost use Rattle.std.specs.Prelude.{◌≡◌, Some, slice_get, ℕ};
ghost use Rattle.ps_frame.specs.Causes.{Cause};
ghost use Rattle.ps_frame.specs.Functions.{Functions};
ghost use Rattle.ps_meaning.specs.Shape.{PhysicalNode, Shape};
ghost use Rattle.ps_meaning.specs.Sound.{IsSound};
ghost use Rattle.ps_options.specs.declared.options.Options.{Options};
ghost use Rattle.ps_world.specs.Laws.{MakesFault};
ghost use Rattle.ps_world.specs.Opening.{Reaches};
ghost use Rattle.ps_world.specs.Updates.{FaultFound};
ghost use Rattle.ps_world.specs.World.{Record, World, faulty, shape_of};

/// A fault that an update or a fill of a node finds was made by the logical node that it came from, in any world.
pub fn faults_of_opens()
    ensures { (F : Functions) (s : World) (n : ℕ) (p : PhysicalNode) (c : Cause) → slice_get (shape_of s) n ≡ Some p → FaultFound F s n c → c.node ≡ p.origin }
{}

/// So was a fault of each step of a reached world: of an Open, a hand-in or a pull.
pub fn faults_of_steps()
    ensures { (F : Functions) (shape : Shape) (o : Options) (w : World) (r : Record) (n : ℕ) (p : PhysicalNode) (c : Cause) → IsSound F shape → Reaches F shape o w → slice_get (shape_of w) n ≡ Some p → MakesFault F w r n c → c.node ≡ p.origin }
{}

/// A run that a fault ended names a node of its shape as the one that made it.
pub fn faulty_runs_name_a_node()
    ensures { (F : Functions) (shape : Shape) (o : Options) (w : World) (c : Cause) → IsSound F shape → Reaches F shape o w → w.ending ≡ faulty c → (n : ℕ) × (p : PhysicalNode) × (slice_get shape n ≡ Some p) × (c.node ≡ p.origin) }
{}
