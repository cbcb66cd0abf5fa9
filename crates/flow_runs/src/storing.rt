//! How nodes of a run store morsels: a sink does.
ghost use Rattle.flow_runs.specs.Storing.{HasRoomIn};

use crate::node::RunningNode;
use node_work::work::Work;
use ps_flow::StoreNode;
use ps_frame::frame::DataFrame;
use ps_frame::refusal::{PolarsError, PolarsResult};
use std::alloc::Global;

impl StoreNode for RunningNode {
    ghost HasRoom = { λ n input. HasRoomIn n.work };

    fn reserve(&mut self, _alloc: Global, _input: u32) -> PolarsResult<()> {
        match &mut self.work {
            Work::Stores(stored) => stored.reserve(),
            _ => Ok(()),
        }
    }

    fn store(&mut self, _input: u32, morsel: DataFrame) -> Option<PolarsError> {
        match &mut self.work {
            Work::Stores(stored) => stored.push(morsel),
            _ => None,
        }
    }
}
