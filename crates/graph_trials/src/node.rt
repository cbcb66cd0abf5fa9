//! Nodes that answer by their kind alone, and count their updates.
ghost use Rattle.std.specs.Prelude.{◌≡◌, ◌<◌, None, codes};
ghost use Rattle.ps_ports.specs.Ports.{is_done, kept_state};
ghost use Rattle.graph_trials.specs.Laws.{trial_laws, trial_ports};
ghost use Rattle.graph_trials.specs.Trying.{FitsKind, Tried, is_taker, stages_of};

use crate::kind::Kind;
use ps_frame::frame::DataFrame;
use ps_frame::refusal::PolarsResult;
use ps_graph::compute_node::ComputeNode;
use ps_ports::port_state::PortState;
use std::alloc::Global;

/// A node of a trial.
#[derive(Debug, Drop)]
pub struct TrialNode {
    pub kind: Kind,
    pub updates: u64,
}

impl TrialNode {
    /// A node that wasn't updated yet.
    pub fn new(kind: Kind) -> TrialNode
        ensures { result.kind ≡ kind }
    {
        TrialNode { kind, updates: 0 }
    }
}

/// The new state, but what is done stays done.
fn kept(old: PortState, new: PortState) -> PortState
    ensures { result ≡ kept_state old new }
{
    match old {
        PortState::Done => PortState::Done,
        _ => new,
    }
}

/// Whether the state is done.
fn is_done(state: PortState) -> bool
    ensures { result ≡ is_done state }
{
    matches!(state, PortState::Done)
}

impl ComputeNode for TrialNode {
    ghost HasPorts = { FitsKind };

    ghost stages = { λ n. stages_of n.kind };

    ghost Update = { λ a given b answer. Tried a.kind given b.kind answer };

    ghost Faults = { λ a given e. ⊥ };

    ghost intensive = { λ n. is_taker n.kind };

    ghost word = { λ n. codes "trial" };

    ghost Initializes = { λ a pieces b. b ≡ a };

    ghost answer = { λ n. None };

    ghost emptied = { λ n. n };

    fn name(&self) -> &str {
        "trial"
    }

    fn initialize(&mut self, _num_pipelines: usize) {}

    fn stages_behind(&self) -> usize {
        match self.kind {
            Kind::Map(true) => 1,
            _ => 0,
        }
    }

    fn update_state(
        &mut self,
        _alloc: Global,
        recv: &mut [PortState],
        send: &mut [PortState],
    ) -> PolarsResult<()> {
        self.updates = self.updates.saturating_add(1);
        match self.kind {
            Kind::Source(spent) => {
                let own = if spent {
                    PortState::Done
                } else {
                    PortState::Ready
                };
                send[0] = kept(send[0], own);
            }
            Kind::Filter | Kind::Union => {
                let sender = recv[0];
                let reader = send[0];
                recv[0] = kept(sender, reader);
                send[0] = kept(reader, sender);
            }
            Kind::Map(over) => {
                let over = over || is_done(recv[0]) || is_done(send[0]);
                self.kind = Kind::Map(over);
                let (input, output) = if over {
                    (PortState::Done, PortState::Done)
                } else {
                    (PortState::Ready, PortState::Blocked)
                };
                recv[0] = kept(recv[0], input);
                send[0] = kept(send[0], output);
            }
            Kind::Taker => {
                recv[0] = kept(recv[0], PortState::Ready);
                send[0] = kept(send[0], PortState::Blocked);
            }
            Kind::Sink => recv[0] = kept(recv[0], PortState::Ready),
        }
        Ok(())
    }

    fn is_memory_intensive_pipeline_blocker(&self) -> bool {
        matches!(self.kind, Kind::Taker | Kind::Map(false))
    }

    fn get_output(&mut self, _alloc: Global) -> PolarsResult<Option<DataFrame>> {
        Ok(None)
    }

    ghost laws = { trial_laws (λ n. n.kind) };

    ghost ports_stay = { λ a b given answer inputs outputs u p. trial_ports a.kind b.kind given answer inputs outputs u p };
}
