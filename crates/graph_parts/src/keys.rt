//! Which nodes of a graph physical nodes became, and the ports that they read there.
ghost use Rattle.std.specs.Prelude.{◌≡◌, ◌-◌, ◌^◌, ◌++◌, ◌∷◌, [], ℕ, List, Err, IfOk, OnErr, OnOk, length, map};
ghost use Rattle.ps_frame.specs.declared.refusal.PolarsError.{PolarsError};
ghost use Rattle.ps_phys.specs.Shown.{inputs_of};
ghost use Rattle.graph_parts.specs.Keyed.{IsKeyed, port_of};

use keyed_slots::{Key, SecondaryMap};
use ps_frame::refusal::PolarsResult;
use ps_graph::key::GraphNodeKey;
use ps_phys::phys::{PhysNodeKey, PhysNodeKind, PhysStream};
use std::alloc::Global;

/// Which nodes of a graph physical nodes became.
pub type Keys = SecondaryMap<PhysNodeKey, GraphNodeKey>;

/// The port that a stream became; one of a node that isn't there where its node became none.
fn port(keys: &Keys, input: PhysStream) -> (GraphNodeKey, usize)
    ensures { result ≡ port_of (record { 0 = 2 ^ 32 - 1 }) keys.now.slots (input.node.0, input.port) }
{
    match keys.get(input.node) {
        Some(key) => (*key, input.port),
        None => (GraphNodeKey::null(), input.port),
    }
}

/// The ports that the inputs of a node became, in order.
pub fn ports(
    alloc: Global,
    keys: &Keys,
    kind: &PhysNodeKind,
) -> PolarsResult<Vec<(GraphNodeKey, usize)>>
    ensures ports { IfOk result (λ ports. ports.items ≡ map (port_of (record { 0 = 2 ^ 32 - 1 }) keys.now.slots) (inputs_of kind.now)) }
    ensures memory { OnErr result (result ≡ Err PolarsError.OutOfMemory) }
{
    let mut ports = Vec::new(alloc);
    let mut place = 0;
    while let Some(input) = kind.input(place) {
        let sender = port(keys, input);
        ports.push(sender)?;
        place += 1;
    }
    Ok(ports)
}

/// Notes the key of a physical node behind those that have theirs, unless it stands among them.
pub fn note(keys: &mut Keys, node: PhysNodeKey, key: GraphNodeKey) -> PolarsResult<()>
    ensures keyed { (before : List ℕ) → key.0 ≡ length before → IsKeyed before keys.old.slots → OnOk result (IsKeyed (before ++ node.0 ∷ []) keys.new.slots) }
    ensures memory { OnErr result (result ≡ Err PolarsError.OutOfMemory) }
{
    if keys.contains_key(node) {
        return Ok(());
    }
    keys.insert(node, key)?;
    Ok(())
}
