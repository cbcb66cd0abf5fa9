//! Whether the pipe that leaves a node has a place for one more answer.
ghost use Rattle.std.specs.Prelude.{◌≡◌, ◌↔◌, ◌<◌, ◌^◌, ◌&&◌, IsTrue, List, cond, count_by, map, nat_eq};
ghost use Rattle.std.specs.List.{AllByRecursion, list_any};
ghost use Rattle.flow_moves.specs.Moves.{MayPick, gives_to, kept_places};
ghost use Rattle.ps_flow.specs.Handing.{HasOneOutput};
ghost use Rattle.ps_flow.specs.Standing.{Stands};
ghost use Rattle.ps_frame.specs.Functions.{Functions};
ghost use Rattle.ps_graph.specs.Shown.{IsLinked, wires_of};
ghost use Rattle.ps_turns.specs.Tasks.{Piece};
ghost use Rattle.ps_world.specs.World.{Pipe, World as RunWorld, gives_on, has_place, live_outs};
ghost use Rattle.world_pipes.specs.Shown.{AreShown, IsAt, Setting};

use keyed_slots::Key;
use ps_flow::{RunNode, World, output_key};
use ps_graph::graph::Graph;
use ps_graph::key::LogicalPipeKey;
use world_pipes::Pipes;

/// Whether a claim of a node takes a place in the pipe that leaves it.
fn gives_on<N>(graph: &Graph<N>, pipes: &Pipes, node: u32) -> bool
    ensures { (s : Setting) (ps : List Pipe) → AreShown s ps pipes.now → IsLinked graph.now → wires_of graph.now.pipes.slots ≡ map (λ (p : Pipe). p.wire) ps → HasOneOutput node ps → result ≡ list_any (gives_to node) ps }
{
    match output_key(graph, node) {
        Some(key) => {
            if pipes.in_phase(key) {
                !pipes.is_dropped(key)
            } else {
                false
            }
        }
        None => false,
    }
}

/// How many pieces of a node are out for an input, unless it gives on what it makes.
fn kept_by<N: RunNode>(world: &World<N>, node: u32, input: usize) -> usize
    ensures { (F : Functions) (w : RunWorld) → Stands N.Has w world.now → MayPick F w → input < 2 ^ 32 → result ≡ cond (gives_on w node) 0 (count_by (λ (q : Piece). nat_eq q.node node && nat_eq q.input input) w.outs) }
{
    if gives_on(world.graph(), world.pipes(), node) {
        return 0;
    }
    if input > u32::MAX as usize {
        return 0;
    }
    world.outs().count(node, input as u32)
}

/// How many places of a pipe the pieces of its reader keep: where the reader gives nothing on, one each.
fn places_kept<N: RunNode>(world: &World<N>, key: LogicalPipeKey) -> usize
    ensures { (F : Functions) (w : RunWorld) (p : Pipe) → Stands N.Has w world.now → MayPick F w → IsAt key w.pipes p → result ≡ kept_places w p }
{
    match world.graph().pipes.get(key) {
        Some(pipe) => kept_by(world, pipe.receiver.number(), pipe.recv_port),
        None => 0,
    }
}

/// Whether what leaves a node in the phase has a place for one more answer.
pub(crate) fn has_place<N: RunNode>(world: &World<N>, node: u32) -> bool
    ensures { (F : Functions) (w : RunWorld) → Stands N.Has w world.now → MayPick F w → IsTrue result ↔ AllByRecursion (λ p. IsTrue (has_place w p)) (live_outs w node) }
{
    let pipes = world.pipes();
    match output_key(world.graph(), node) {
        Some(key) => {
            if pipes.in_phase(key) {
                pipes.has_place(key, places_kept(world, key))
            } else {
                true
            }
        }
        None => true,
    }
}
