// What is promised of runs, as theorems of functions that do nothing.
ghost use Rattle.std.specs.Prelude.{◌≡◌, Some, slice_get, ℕ};
ghost use Rattle.ps_frame.specs.Functions.{Functions, IsLawful};
ghost use Rattle.ps_frame.specs.Tables.{Table};
ghost use Rattle.ps_meaning.specs.Shape.{IsPhysicalChoice, PhysicalNode, Shape};
ghost use Rattle.ps_meaning.specs.Sound.{IsSound};
ghost use Rattle.ps_options.specs.declared.options.Options.{Options};
ghost use Rattle.ps_world.specs.Opening.{Reaches};
ghost use Rattle.ps_world.specs.World.{World};
ghost use Rattle.streaming_promises.specs.Kept.{KeepsPromises};
ghost use Rattle.world_families.specs.Holds.{Holds};

use world_ends::runs;
use world_moves::moves;

/// Of lawful functions and a sound shape, whatever its nodes: every world that its opening reaches keeps all promises, over every list of steps and with any number of workers.
pub fn runs_keep_promises()
    ensures { (F : Functions) (shape : Shape) (o : Options) (w : World) → IsLawful F → IsSound F shape → Reaches F shape o w → KeepsPromises F shape w }
{
    moves::no_run_is_stuck();
    runs::runs_end();
    runs::ends_are_reached();
}

/// A sound shape has a table for each of its nodes, each in its case over those of its inputs.
pub fn shapes_have_tables()
    ensures { (F : Functions) (shape : Shape) → IsLawful F → IsSound F shape → (choice : ℕ → Table) × IsPhysicalChoice F shape choice × ((n : ℕ) (p : PhysicalNode) → slice_get shape n ≡ Some p → (choice n).schema ≡ p.schema) }
{}

/// In every world that the opening of a sound shape reaches, what its family keeps holds of each node and its own pipes, whatever the kinds of the others: what came under its numbers, what its pieces do, what it keeps, and where its outputs are complete.
pub fn every_node_holds()
    ensures { (F : Functions) (shape : Shape) (o : Options) (w : World) (n : ℕ) → IsSound F shape → Reaches F shape o w → Holds F w n }
{}
