//! What a world asks of its nodes.
ghost use Rattle.std.specs.Prelude.{◌≡◌, ℕ, Bool, Err, IfOk, List, OnErr, length};
ghost use Rattle.ps_flow.specs.Standing.{answer_kept, new_node};
ghost use Rattle.ps_frame.specs.Causes.{Cause};
ghost use Rattle.ps_frame.specs.Functions.{Functions};
ghost use Rattle.ps_frame.specs.Tables.{Fields};
ghost use Rattle.ps_frame.specs.declared.refusal.PolarsError.{PolarsError};
ghost use Rattle.ps_graph.specs.Origins.{at_node};
ghost use Rattle.ps_meaning.specs.Errors.{cause_error};
ghost use Rattle.ps_meaning.specs.Shape.{PhysicalNode};
ghost use Rattle.ps_meaning.specs.Sound.{HasReaders};
ghost use Rattle.ps_options.specs.declared.options.Options.{Options};
ghost use Rattle.ps_ports.specs.Ports.{Sides};
ghost use Rattle.ps_turns.specs.Progress.{is_intensive, is_multiplexer};
ghost use Rattle.turn_laws.specs.Updating.{FindsFault, SeenNode, UpdatesTo, stages_behind};

use ps_frame::frame::DataFrame;
use ps_frame::refusal::PolarsResult;
use ps_graph::compute_node::ComputeNode;
use ps_options::options::Options;
use std::alloc::Global;

/// A node of a graph that knows which node of a shape it is, and what it has behind it.
pub trait RunNode: ComputeNode {
    /// Whether, in a query that is run by these options, it is this node of a shape, with this behind it.
    ghost Has: { Options → Self → SeenNode → Type 0 };

    /// Whether it is this node of a shape, over inputs of these schemas, and wasn't told yet how its query is run.
    ghost IsNew: { Self → PhysicalNode → List Fields → Type 0 };

    /// Tells a new node how its query is run.
    fn run_by(&mut self, options: &Options)
        ensures { (p : PhysicalNode) (ss : List Fields) → IsNew self.old p ss → (es : List Bool) × Has options.now self.new (new_node p ss es) };

    /// Whether it gives its input to each of its readers, so that what leaves it has no bound.
    fn is_multiplexer(&self) -> bool
        ensures { (o : Options) (x : SeenNode) → Has o self.now x → result ≡ is_multiplexer x.node.kind };

    /// Gives the table of all morsels that a sink stored. It then keeps none, also where the table can't be made; another
    /// node has none.
    ///
    /// Fails only for want of memory.
    fn give_table(&mut self, alloc: Global) -> PolarsResult<Option<DataFrame>>
        ensures table { (o : Options) (x : SeenNode) → Has o self.old x → IfOk result (λ table. table ≡ answer_kept x) }
        ensures memory { OnErr result (result ≡ Err PolarsError.OutOfMemory) };

    /// An update is one of the node of the shape.
    ghost updates: { (F : Functions) (o : Options) (a b : Self) (x : SeenNode) (given answer : Sides) → Has o a x → Self.Update a given b answer → (y : SeenNode) × UpdatesTo F o x given y answer × Has o b y };

    /// A node that an update left in its stage is left so again, where it is given the same.
    ghost rests: { (F : Functions) (o : Options) (a b : Self) (y : SeenNode) (given answer : Sides) → Has o b y → Self.Update a given b answer → Self.stages a ≡ Self.stages b → UpdatesTo F o y given y answer };

    /// A fault of an update is one of the node of the shape.
    ghost finds: { (F : Functions) (o : Options) (a : Self) (x : SeenNode) (given : Sides) (e : PolarsError) → Has o a x → Self.Faults a given e → (c : Cause) × FindsFault F o x given c × (at_node (record { 0 = x.node.origin }) e ≡ cause_error c) };

    /// It keeps its input in memory where the node of the shape does.
    ghost keeps: { (o : Options) (a : Self) (x : SeenNode) → Has o a x → Self.intensive a ≡ is_intensive x.node.kind x.progress.stage };

    /// It has as many ports as the node of the shape.
    ghost has_ports: { (o : Options) (a : Self) (x : SeenNode) (outputs : ℕ) → Has o a x → HasReaders x.node.kind outputs → Self.HasPorts a (length x.node.inputs) outputs };
}
