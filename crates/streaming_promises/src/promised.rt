// What a caller of a graph of streaming nodes is promised, as a theorem of a function that does nothing.
ghost use Rattle.std.specs.Prelude.{◌≡◌, Some, slice_get, ℕ};
ghost use Rattle.ps_frame.specs.Functions.{Functions, IsLawful};
ghost use Rattle.ps_meaning.specs.Shape.{PhysicalNode, Shape};
ghost use Rattle.ps_meaning.specs.Sound.{IsSound};
ghost use Rattle.ps_options.specs.declared.options.Options.{Options};
ghost use Rattle.ps_world.specs.Opening.{Reaches};
ghost use Rattle.ps_world.specs.World.{World};
ghost use Rattle.world_families.specs.Kinds.{IsStreaming};
ghost use Rattle.streaming_promises.specs.Kept.{KeepsPromises};

use family_keeps::keeping;
use streaming_answers::answered;
use streaming_pieces::results;
use world_bounds::bounds;
use world_ends::runs;
use world_facts::promises;
use world_flight::flight;
use world_moves::moves;

/// Of lawful functions and a sound shape whose nodes are sources, selects, filters, projections, streamable maps, row indexes, slices, unions and sinks: every world that its opening reaches keeps all promises, over every list of steps and with any number of workers.
pub fn streaming_runs_keep_promises()
    ensures { (F : Functions) (shape : Shape) (o : Options) (w : World) → IsLawful F → IsSound F shape → ((n : ℕ) (p : PhysicalNode) → slice_get shape n ≡ Some p → IsStreaming p.kind) → Reaches F shape o w → KeepsPromises F shape w }
{
    keeping::streaming_graphs_are_served();
    keeping::streaming_nodes_hold();
    answered::streaming_runs_are_answered();
    results::streaming_pieces_have_results();
    moves::no_run_is_stuck();
    promises::numbers_come_once();
    promises::slices_halt_sources();
    promises::ends_are_enough();
    flight::claims_are_handed_in();
    flight::halted_nodes_stay_so();
    bounds::little_is_in_flight();
    bounds::sources_claim_all();
    runs::runs_end();
    runs::ends_are_reached();
}
