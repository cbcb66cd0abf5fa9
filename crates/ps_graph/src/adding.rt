//! How a graph is put together.
ghost use Rattle.std.specs.Prelude.{◌≡◌, ◌≤◌, ◌<◌, ◌+◌, ◌-◌, ◌^◌, ◌∷◌, ◌++◌, [], ℕ, Some, All, Err, IfErr, IfOk, IfSome, IsSome, OnOk, length, take};
ghost use Rattle.keyed_slots.specs.Slots.{value_at};
ghost use Rattle.ps_frame.specs.declared.refusal.PolarsError.{PolarsError};
ghost use Rattle.ps_graph.specs.Adding.{WithOutput, WithPipes, fresh_pipe, fresh_wire, fresh_wires};
ghost use Rattle.ps_graph.specs.Shown.{IsLinked, IsLinkedUpTo, inputs_into, nodes_of, values, wires_of};
ghost use Rattle.ps_graph.specs.Turning.{origins_of};

use crate::graph::{Graph, GraphNode, LogicalPipe};
use crate::key::{GraphNodeKey, LogicalPipeKey};
use keyed_slots::{Key, SlotMap};
use ps_frame::refusal::PolarsResult;
use ps_ports::port_state::PortState;
use pu_base::Node;
use std::alloc::Global;

impl<N> GraphNode<N> {
    /// Names a pipe as one of the node's outputs.
    fn add_output(&mut self, pipe: LogicalPipeKey) -> PolarsResult<()>
        ensures outputs { OnOk result (self.new.outputs.items ≡ self.old.outputs.items ++ pipe ∷ []) }
        ensures compute { OnOk result (self.new.compute ≡ self.old.compute) }
        ensures origin { OnOk result (self.new.origin ≡ self.old.origin) }
        ensures inputs { OnOk result (self.new.inputs ≡ self.old.inputs) }
        ensures memory { IfErr result (λ e. e ≡ PolarsError.OutOfMemory) }
    {
        self.outputs.push(pipe)?;
        Ok(())
    }
}

/// Names a pipe as one of the outputs of its sender.
fn add_output<N>(
    nodes: &mut SlotMap<GraphNodeKey, GraphNode<N>>,
    sender: GraphNodeKey,
    pipe: LogicalPipeKey,
) -> PolarsResult<()>
    requires { IsSome (value_at nodes.old.slots sender.0) }
    ensures named { OnOk result (IfSome (value_at nodes.old.slots sender.0) (λ n. WithOutput n sender.0 pipe nodes.old.slots nodes.new.slots)) }
    ensures memory { IfErr result (λ e. e ≡ PolarsError.OutOfMemory) }
{
    match nodes.get_mut(sender) {
        Some(node) => node.add_output(pipe),
        None => Ok(()),
    }
}

impl<N: Drop> Graph<N> {
    /// Adds a pipe to the node that comes next, and names it as an output of its sender.
    fn add_pipe(
        &mut self,
        sender: GraphNodeKey,
        port: usize,
        receiver: GraphNodeKey,
        input: usize,
    ) -> PolarsResult<LogicalPipeKey>
        requires linked { IsLinkedUpTo (length self.old.nodes.slots + 1) self.old }
        requires sender { sender.0 < length self.old.nodes.slots }
        requires receiver { receiver.0 ≡ length self.old.nodes.slots }
        requires input { input ≡ length (inputs_into receiver.0 (values self.old.pipes.slots)) }
        requires room { length self.old.pipes.slots < 2 ^ 32 - 1 }
        ensures key { IfOk result (λ k. k.0 ≡ length self.old.pipes.slots) }
        ensures pipes { OnOk result (self.new.pipes.slots ≡ self.old.pipes.slots ++ Some (fresh_pipe sender receiver port input) ∷ []) }
        ensures linked { OnOk result (IsLinkedUpTo (length self.new.nodes.slots + 1) self.new) }
        ensures nodes { OnOk result (nodes_of self.new.nodes.slots ≡ nodes_of self.old.nodes.slots) }
        ensures origins { OnOk result (origins_of self.new.nodes.slots ≡ origins_of self.old.nodes.slots) }
        ensures count { OnOk result (length self.new.nodes.slots ≡ length self.old.nodes.slots) }
        ensures memory { IfErr result (λ e. e ≡ PolarsError.OutOfMemory) }
    {
        let pipe = self.pipes.insert(LogicalPipe {
            sender,
            send_port: port,
            send_state: PortState::Blocked,
            receiver,
            recv_port: input,
            recv_state: PortState::Blocked,
        })?;
        add_output(&mut self.nodes, sender, pipe)?;
        Ok(pipe)
    }

    /// Adds pipes from these ports to the node that comes next; answers their keys.
    fn add_pipes(
        &mut self,
        alloc: Global,
        receiver: GraphNodeKey,
        inputs: &[(GraphNodeKey, usize)],
    ) -> PolarsResult<Vec<LogicalPipeKey>>
        requires linked { IsLinked self.old }
        requires senders { All (λ i. i.0.0 < length self.old.nodes.slots) inputs.now }
        requires receiver { receiver.0 ≡ length self.old.nodes.slots }
        requires room { length self.old.pipes.slots + length inputs.now < 2 ^ 32 }
        ensures added { IfOk result (λ keys. WithPipes self.old self.new (fresh_wires receiver.0 0 inputs.now) keys.items) }
        ensures memory { IfErr result (λ e. e ≡ PolarsError.OutOfMemory) }
    {
        let mut keys = Vec::new(alloc);
        for (input, (sender, port)) in inputs.iter().enumerate() {
            let key = self.add_pipe(*sender, *port, receiver, input)?;
            keys.push(key)?;
        }
        Ok(keys)
    }

    /// Adds a node, with a pipe to each of its inputs from a port of an earlier node. A pipe that is added is blocked on both ends.
    /// A port that has a pipe already, or that stands twice among the inputs, may not be given; every port of a node below its highest must have a pipe before the graph runs.
    ///
    /// It fails only for want of memory, and the graph may then only be dropped. It takes constant time, and for each input on average.
    pub fn add_node(
        &mut self,
        alloc: Global,
        node: N,
        origin: Node,
        inputs: &[(GraphNodeKey, usize)],
    ) -> PolarsResult<GraphNodeKey>
        requires linked { IsLinked self.old }
        requires senders { All (λ i. i.0.0 < length self.old.nodes.slots) inputs.now }
        requires nodes { length self.old.nodes.slots < 2 ^ 32 - 1 }
        requires pipes { length self.old.pipes.slots + length inputs.now < 2 ^ 32 }
        ensures key { IfOk result (λ key. key.0 ≡ length self.old.nodes.slots) }
        ensures nodes { OnOk result (nodes_of self.new.nodes.slots ≡ nodes_of self.old.nodes.slots ++ node ∷ []) }
        ensures origins { OnOk result (origins_of self.new.nodes.slots ≡ origins_of self.old.nodes.slots ++ origin ∷ []) }
        ensures wires { OnOk result (wires_of self.new.pipes.slots ≡ wires_of self.old.pipes.slots ++ fresh_wires (length self.old.nodes.slots) 0 inputs.now) }
        ensures linked { OnOk result (IsLinked self.new) }
        ensures memory { IfErr result (λ e. e ≡ PolarsError.OutOfMemory) }
    {
        let receiver = GraphNodeKey::from_number(self.count() as u32);
        let pipes = self.add_pipes(alloc, receiver, inputs)?;
        let key = self.nodes.insert(GraphNode {
            compute: node,
            origin,
            inputs: pipes,
            outputs: Vec::new(alloc),
        })?;
        Ok(key)
    }
}
