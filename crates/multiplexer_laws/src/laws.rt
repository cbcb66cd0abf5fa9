//! What multiplexers keep, as theorems of functions that do nothing.
ghost use Rattle.std.specs.Prelude.{◌-◌, ◌<◌, ℕ, length};
ghost use Rattle.ps_frame.specs.Functions.{Functions};
ghost use Rattle.ps_meaning.specs.Shape.{Shape};
ghost use Rattle.ps_meaning.specs.Sound.{HasOneReaderEach, IsSound, IsSoundButForReaders};
ghost use Rattle.ps_plan.specs.Lowering.{IsLoweringOf};
ghost use Rattle.ps_plan.specs.Plans.{Plan};
ghost use Rattle.multiplexer_laws.specs.Kept.{StandsFor};
ghost use Rattle.multiplexer_laws.specs.Shared.{IsOnlySink, ReadFirstPortsBefore, shared_shape};

use ps_multiplexers::laws::no_stream_is_taken_twice;

/// In the shape that a root shows once multiplexers are there, each port has exactly one reader, where each node reads first ports of nodes before it and the root is the only sink.
pub fn each_port_has_one_reader()
    ensures { (nodes : Shape) (root : ℕ) → root < length nodes → ReadFirstPortsBefore nodes → IsOnlySink root nodes → HasOneReaderEach (shared_shape nodes root) }
{
    // The law that no stream has two readers; it does nothing.
    no_stream_is_taken_twice();
}

/// And where the nodes were sound but for their readers, the shape is sound.
pub fn sound_nodes_are_shared_soundly()
    ensures { (F : Functions) (nodes : Shape) (root : ℕ) → root < length nodes → ReadFirstPortsBefore nodes → IsOnlySink root nodes → IsSoundButForReaders F nodes → IsSound F (shared_shape nodes root) }
{
    no_stream_is_taken_twice();
}

/// Each node of the shape stands for one of the nodes: it has its schema and its origin, means the same tables, and shows no other causes and sizes. The last one stands for the root.
pub fn each_node_stands_for_one()
    ensures each { (F : Functions) (nodes : Shape) (root : ℕ) → root < length nodes → ReadFirstPortsBefore nodes → IsSoundButForReaders F nodes → (n : ℕ) → n < length (shared_shape nodes root) → (m : ℕ) × StandsFor F nodes m (shared_shape nodes root) n }
    ensures root { (F : Functions) (nodes : Shape) (root : ℕ) → root < length nodes → ReadFirstPortsBefore nodes → IsSoundButForReaders F nodes → StandsFor F nodes root (shared_shape nodes root) (length (shared_shape nodes root) - 1) }
{}

/// So the shape is a lowering of each plan of which the nodes were one.
pub fn shared_lowerings_are_lowerings()
    ensures { (F : Functions) (plan : Plan) (nodes : Shape) (root : ℕ) → root < length nodes → ReadFirstPortsBefore nodes → IsSoundButForReaders F nodes → IsLoweringOf F plan nodes root → IsLoweringOf F plan (shared_shape nodes root) (length (shared_shape nodes root) - 1) }
{}
