//! How a node of a run pulls a morsel into what it stores.
ghost use Rattle.std.specs.Prelude.{◌≡◌, ℕ, ◌+◌, ◌≤◌, ◌∷◌, [], Err, IfSome, List, None, OnErr, OnOk, Some};
ghost use Rattle.keyed_slots.specs.Slots.{value_at};
ghost use Rattle.ps_flow.specs.Changes.{ChangedAt};
ghost use Rattle.ps_flow.specs.Pulling.{HasAlso, MayStore, StoresAs, or_fault};
ghost use Rattle.ps_flow.specs.Standing.{Stands};
ghost use Rattle.ps_frame.specs.Functions.{Functions};
ghost use Rattle.ps_frame.specs.Tables.{Row};
ghost use Rattle.ps_frame.specs.declared.refusal.PolarsError.{PolarsError};
ghost use Rattle.ps_world.specs.Pipes.{is_input};
ghost use Rattle.ps_world.specs.Pulls.{after_pull};
ghost use Rattle.ps_world.specs.World.{Node, Pipe, World as RunWorld};
ghost use Rattle.world_pipes.specs.Shown.{AreKeysOf};

use crate::inputs::input_key;
use crate::store_node::StoreNode;
use crate::world::World;
use keyed_slots::{Key, SlotMap};
use ps_frame::frame::DataFrame;
use ps_frame::refusal::{PolarsError, PolarsResult};
use ps_graph::graph::GraphNode;
use ps_graph::key::{GraphNodeKey, LogicalPipeKey};
use std::alloc::Global;
use world_records::Record;

/// A node takes memory for one more morsel of an input.
fn reserve_in<N: StoreNode>(node: &mut GraphNode<N>, alloc: Global, input: u32) -> PolarsResult<()>
    ensures has { HasAlso N.Has node.old.compute node.new.compute }
    ensures others { node.new ≡ record node.old { compute = node.new.compute } }
    ensures room { OnOk result (N.HasRoom node.new.compute input) }
    ensures memory { OnErr result (result ≡ Err PolarsError.OutOfMemory) }
{
    node.compute.reserve(alloc, input)
}

/// A node stores a morsel of an input.
fn store_in<N: StoreNode>(
    node: &mut GraphNode<N>,
    input: u32,
    morsel: DataFrame,
) -> Option<PolarsError>
    requires { N.HasRoom node.old.compute input }
    ensures stored { StoresAs N.Has input morsel result node.old.compute node.new.compute }
    ensures others { node.new ≡ record node.old { compute = node.new.compute } }
{
    node.compute.store(input, morsel)
}

/// One of the nodes takes memory for one more morsel of an input.
fn reserve_at<N: StoreNode>(
    nodes: &mut SlotMap<GraphNodeKey, GraphNode<N>>,
    alloc: Global,
    node: u32,
    input: u32,
) -> PolarsResult<()>
    ensures changed { IfSome (value_at nodes.old.slots node) (λ x. ChangedAt (HasAlso N.Has) x node nodes.old.slots nodes.new.slots) }
    ensures none { value_at nodes.old.slots node ≡ None → nodes.new ≡ nodes.old }
    ensures room { OnOk result (IfSome (value_at nodes.new.slots node) (λ x. N.HasRoom x.compute input)) }
    ensures memory { OnErr result (result ≡ Err PolarsError.OutOfMemory) }
{
    match nodes.get_mut(GraphNodeKey::from_number(node)) {
        Some(node) => reserve_in(node, alloc, input),
        None => Ok(()),
    }
}

/// One of the nodes stores a morsel of an input.
fn store_at<N: StoreNode>(
    nodes: &mut SlotMap<GraphNodeKey, GraphNode<N>>,
    node: u32,
    input: u32,
    morsel: DataFrame,
) -> Option<PolarsError>
    requires { IfSome (value_at nodes.old.slots node) (λ x. N.HasRoom x.compute input) }
    ensures { IfSome (value_at nodes.old.slots node) (λ x. ChangedAt (StoresAs N.Has input morsel result) x node nodes.old.slots nodes.new.slots) }
{
    match nodes.get_mut(GraphNodeKey::from_number(node)) {
        Some(node) => store_in(node, input, morsel),
        None => None,
    }
}

/// A fault that was found takes the place of the one that there was.
fn set_fault(fault: &mut Option<PolarsError>, found: Option<PolarsError>)
    ensures { fault.new ≡ or_fault found fault.old }
{
    match found {
        Some(error) => *fault = Some(error),
        None => (),
    }
}

impl<N: StoreNode> World<N> {
    /// Takes the memory of a pull. Fails only for want of it.
    fn make_room(&mut self, alloc: Global, node: u32, input: u32) -> PolarsResult<()>
        ensures stands { (w : RunWorld) → Stands N.Has w self.old → Stands N.Has w self.new }
        ensures records { OnOk result (self.new.options.workers + 1 ≤ self.new.journal.spare) }
        ensures room { OnOk result (IfSome (value_at self.new.graph.nodes.slots node) (λ x. N.HasRoom x.compute input)) }
        ensures memory { OnErr result (result ≡ Err PolarsError.OutOfMemory) }
    {
        let Ok(()) = self.journal.reserve(self.options.workers() + 1) else {
            return Err(PolarsError::OutOfMemory);
        };
        let Ok(()) = reserve_at(&mut self.graph.nodes, alloc, node, input) else {
            return Err(PolarsError::OutOfMemory);
        };
        Ok(())
    }

    /// Moves the next morsel of the pipe with a key into what the node stores, for which memory was taken.
    fn move_from(&mut self, node: u32, input: u32, key: LogicalPipeKey)
        requires records { self.old.options.workers + 1 ≤ self.old.journal.spare }
        requires room { IfSome (value_at self.old.graph.nodes.slots node) (λ x. N.HasRoom x.compute input) }
        ensures { (F : Functions) (w : RunWorld) (x : Node) (p : Pipe) (m : List Row) → Stands N.Has w self.old → MayStore F w node input x p m → AreKeysOf (is_input node input) (key ∷ []) w.pipes → Stands N.Has (after_pull w node input x p m) self.new }
    {
        let number = self.pipes.next(key);
        match self.pipes.take(key) {
            Some(morsel) => {
                let found = store_at(&mut self.graph.nodes, node, input, morsel);
                set_fault(&mut self.fault, found);
                self.journal.append(Record::Pull {
                    node,
                    input,
                    number,
                });
            }
            None => (),
        }
    }

    /// Moves the next morsel of an input into what its node stores, for which memory was taken.
    fn move_in(&mut self, node: u32, input: u32)
        requires records { self.old.options.workers + 1 ≤ self.old.journal.spare }
        requires room { IfSome (value_at self.old.graph.nodes.slots node) (λ x. N.HasRoom x.compute input) }
        ensures { (F : Functions) (w : RunWorld) (x : Node) (p : Pipe) (m : List Row) → Stands N.Has w self.old → MayStore F w node input x p m → Stands N.Has (after_pull w node input x p m) self.new }
    {
        match input_key(&self.graph, node, input) {
            Some(key) => self.move_from(node, input, key),
            None => (),
        }
    }

    /// A node, named by its place in the graph, moves the next morsel of an input into what it stores: a sink, a map or a join
    /// that keeps whole tables, a slice from the end, or a zip. Where a node isn't one of these, or the input has no next
    /// morsel, nothing is said.
    ///
    /// Fails only for want of memory; the world is then the one that it was before.
    pub fn pull(&mut self, alloc: Global, node: u32, input: u32) -> PolarsResult<()>
        ensures pulled { OnOk result ((F : Functions) (w : RunWorld) (x : Node) (p : Pipe) (m : List Row) → Stands N.Has w self.old → MayStore F w node input x p m → Stands N.Has (after_pull w node input x p m) self.new) }
        ensures stays { OnErr result ((w : RunWorld) → Stands N.Has w self.old → Stands N.Has w self.new) }
        ensures memory { OnErr result (result ≡ Err PolarsError.OutOfMemory) }
    {
        let Ok(()) = self.make_room(alloc, node, input) else {
            return Err(PolarsError::OutOfMemory);
        };
        self.move_in(node, input);
        Ok(())
    }
}
