//! What a graph asks of its nodes.
ghost use Rattle.std.specs.Prelude.{◌≡◌, ℕ, ◌⊎◌, Bool, Err, IfErr, IfOk, List, OnErr, OnOk, Option, length, option_map};
ghost use Rattle.ps_frame.specs.Tables.{Frame, Row};
ghost use Rattle.ps_frame.specs.declared.refusal.PolarsError.{PolarsError};
ghost use Rattle.ps_ports.specs.Ports.{Sides};
ghost use Rattle.ps_ports.specs.UpdateLaws.{KeepsUpdateLaws};

use ps_frame::frame::DataFrame;
use ps_frame::refusal::PolarsResult;
use ps_ports::port_state::PortState;
use std::alloc::Global;

/// A node: it is told what the other ends of its pipes say, and answers what it says of its own.
pub trait ComputeNode: Send + Drop {
    /// Whether it has so many inputs and outputs.
    ghost HasPorts: { Self → (inputs outputs : ℕ) → Type 0 };

    /// How many of its stages a node has behind it.
    ghost stages: { Self → ℕ };

    /// What an update may make of a node and answer, by what it is given.
    ghost Update: { Self → Sides → Self → Sides → Type 0 };

    /// Which error an update may give.
    ghost Faults: { Self → Sides → PolarsError → Type 0 };

    /// Whether it takes its input in whole before it gives anything, and keeps it in memory.
    ghost intensive: { Self → Bool };

    /// The word for nodes of its kind.
    ghost word: { Self → List ℕ };

    /// What a node becomes that is told how many pieces of work may go on beside each other.
    ghost Initializes: { Self → (pieces : ℕ) → Self → Type 0 };

    /// The rows that it keeps as the answer of its graph, if it is a node that does.
    ghost answer: { Self → Option (List Row) };

    /// The node once these were given.
    ghost emptied: { Self → Self };

    /// The word for nodes of its kind.
    fn name(&self) -> &str
        ensures { result.now ≡ word self.now };

    /// Tells the node how many pieces of work may go on beside each other.
    fn initialize(&mut self, num_pipelines: usize)
        ensures { Initializes self.old num_pipelines self.new };

    /// How many of its stages the node has behind it: at most two.
    fn stages_behind(&self) -> usize
        ensures { result ≡ stages self.now };

    /// Takes the states of the other ends of the node's pipes, and puts those of its own ends in their place: of its inputs
    /// in `recv`, of its outputs in `send`.
    ///
    /// It fails by a fault at `Node::default()`, or for want of memory.
    fn update_state(
        &mut self,
        alloc: Global,
        recv: &mut [PortState],
        send: &mut [PortState],
    ) -> PolarsResult<()>
        requires ports { HasPorts self.old (length recv.old) (length send.old) }
        ensures updated { OnOk result (Update self.old (record { inputs = recv.old; outputs = send.old }) self.new (record { inputs = recv.new; outputs = send.new })) }
        ensures fault { IfErr result (λ e. (e ≡ PolarsError.OutOfMemory) ⊎ Faults self.old (record { inputs = recv.old; outputs = send.old }) e) };

    /// Whether the node takes its input in whole, and keeps it in memory, before it gives anything.
    fn is_memory_intensive_pipeline_blocker(&self) -> bool
        ensures { result ≡ intensive self.now };

    /// Gives the rows that the node keeps as the answer of its graph, if it is one that does. It then keeps none, also
    /// where the table can't be made.
    ///
    /// Fails only for want of memory.
    fn get_output(&mut self, alloc: Global) -> PolarsResult<Option<DataFrame>>
        ensures rows { IfOk result (λ table. option_map (λ (f : Frame). f.rows) table ≡ answer self.old) }
        ensures memory { OnErr result (result ≡ Err PolarsError.OutOfMemory) }
        ensures given { self.new ≡ emptied self.old };

    /// Updates keep the laws by which a graph comes to rest.
    ghost laws: { KeepsUpdateLaws stages Update };

    /// An update leaves how many ports the node has.
    ghost ports_stay: { (a b : Self) (given answer : Sides) (inputs outputs : ℕ) → Update a given b answer → HasPorts a inputs outputs → HasPorts b inputs outputs };
}
