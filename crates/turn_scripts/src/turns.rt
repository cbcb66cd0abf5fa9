//! What trials call of a node: its own update.
ghost use Rattle.std.specs.Prelude.{◌≡◌, ℕ, OnOk, length};
ghost use Rattle.turn_scripts.specs.Stores.{HasStores};

use plain_nodes::equi_join::EquiJoinNode;
use plain_nodes::group_by::GroupByNode;
use plain_nodes::independent_select::InputIndependentSelectNode;
use plain_nodes::negative_slice::NegativeSliceNode;
use plain_nodes::reduce::ReduceNode;
use plain_nodes::zip::ZipNode;
use ps_frame::refusal::PolarsResult;
use ps_ports::port_state::PortState;
use std::alloc::Global;

/// A node with one output, by its own updates.
pub trait Turns: Drop {
    /// Whether it has so many inputs.
    ghost HasInputs: { Self → ℕ → Type 0 };

    /// How much of it was claimed.
    ghost claimed: { Self → ℕ };

    /// Takes the states of the other ends of the node's pipes, and puts those of its own ends in their place.
    ///
    /// It fails by a fault, at no node in particular, or for want of memory.
    fn turn(
        &mut self,
        alloc: Global,
        recv: &mut [PortState],
        send: &mut [PortState],
    ) -> PolarsResult<()>
        requires inputs { HasInputs self.old (length recv.old) }
        requires output { length send.old ≡ 1 }
        ensures inputs { OnOk result (HasInputs self.new (length recv.old)) }
        ensures claimed { OnOk result (claimed self.new ≡ claimed self.old) };
}

impl Turns for ZipNode {
    ghost HasInputs = { λ n inputs. HasStores inputs n };

    ghost claimed = { λ n. n.booked };

    fn turn(
        &mut self,
        _alloc: Global,
        recv: &mut [PortState],
        send: &mut [PortState],
    ) -> PolarsResult<()> {
        self.update(recv, send)
    }
}

impl Turns for EquiJoinNode {
    ghost HasInputs = { λ n inputs. inputs ≡ 2 };

    ghost claimed = { λ n. n.sent };

    fn turn(
        &mut self,
        _alloc: Global,
        recv: &mut [PortState],
        send: &mut [PortState],
    ) -> PolarsResult<()> {
        self.update(recv, send);
        Ok(())
    }
}

impl Turns for InputIndependentSelectNode {
    ghost HasInputs = { λ n inputs. inputs ≡ 0 };

    ghost claimed = { λ n. n.sent };

    fn turn(
        &mut self,
        _alloc: Global,
        _recv: &mut [PortState],
        send: &mut [PortState],
    ) -> PolarsResult<()> {
        self.update(send);
        Ok(())
    }
}

impl Turns for ReduceNode {
    ghost HasInputs = { λ n inputs. inputs ≡ 1 };

    ghost claimed = { λ n. n.sent };

    fn turn(
        &mut self,
        _alloc: Global,
        recv: &mut [PortState],
        send: &mut [PortState],
    ) -> PolarsResult<()> {
        self.update(recv, send);
        Ok(())
    }
}

impl Turns for GroupByNode {
    ghost HasInputs = { λ n inputs. inputs ≡ 1 };

    ghost claimed = { λ n. n.sent };

    fn turn(
        &mut self,
        _alloc: Global,
        recv: &mut [PortState],
        send: &mut [PortState],
    ) -> PolarsResult<()> {
        self.update(recv, send);
        Ok(())
    }
}

impl Turns for NegativeSliceNode {
    ghost HasInputs = { λ n inputs. inputs ≡ 1 };

    ghost claimed = { λ n. n.made.sent };

    fn turn(
        &mut self,
        alloc: Global,
        recv: &mut [PortState],
        send: &mut [PortState],
    ) -> PolarsResult<()> {
        self.update(alloc, recv, send)
    }
}
