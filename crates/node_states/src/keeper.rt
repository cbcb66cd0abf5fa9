//! What keeps its input and gives what it makes of it: in-memory maps and joins, negative slices, reduces and group-bys.
ghost use Rattle.std.specs.Prelude.{◌≡◌, IsTrue, length};
ghost use Rattle.ps_turns.specs.Updates.{is_waiting, turns};
ghost use Rattle.node_states.specs.Views.{NodeView, answer_to, sides_of, stage_to};
ghost use Rattle.node_states.specs.Stages.{stage_of};
ghost use Rattle.node_states.specs.States.{IsKeeper};

use crate::ports;
use crate::stage::Stage;
use ps_ports::port_state::PortState;

/// Its stage, whether nothing is left of what it gives, and whether it has what it needs before it may give: false alone
/// for a map of a handed-in function whose table wasn't filled in yet.
#[derive(Clone, Copy, Debug, PartialEq, Eq)]
pub struct KeeperState {
    pub stage: Stage,
    pub gave_all: bool,
    pub is_filled: bool,
}

impl KeeperState {
    /// The stage in which an update leaves it.
    pub fn next_stage(&self, recv: &[PortState], send: &[PortState]) -> Stage
        ensures { (n : NodeView) → IsKeeper self.now n → stage_of result ≡ stage_to (sides_of recv.now send.now) n }
    {
        let output_done = ports::is_done(ports::first(send));
        let inputs_done = ports::all_done(recv) && self.is_filled;
        self.stage.next(output_done, inputs_done, self.gave_all)
    }

    /// Whether it waits for its table: its inputs are done, its output isn't, and it isn't filled.
    pub fn is_waiting(&self, recv: &[PortState], send: &[PortState]) -> bool
        ensures { (n : NodeView) → IsKeeper self.now n → result ≡ is_waiting n.kind n.progress (sides_of recv.now send.now) }
    {
        let is_over = ports::is_done(ports::first(send));
        self.stage == Stage::Taking && !self.is_filled && ports::all_done(recv) && !is_over
    }
}

/// Answers, by the stage after the update: while it takes input, ready to its inputs and blocked to its output; then done
/// to its inputs, and ready to its output until it is spent.
pub fn answer(stage: Stage, recv: &mut [PortState], send: &mut [PortState])
    requires output { length send.old ≡ 1 }
    ensures { (n : NodeView) → IsTrue (turns n.kind) → n.progress.stage ≡ stage_of stage → sides_of recv.new send.new ≡ answer_to (sides_of recv.old send.old) n }
{
    match stage {
        Stage::Taking => {
            ports::set_all(recv, PortState::Ready);
            ports::set_one(send, PortState::Blocked);
        }
        Stage::Giving => {
            ports::set_all(recv, PortState::Done);
            ports::set_one(send, PortState::Ready);
        }
        Stage::Spent => {
            ports::set_all(recv, PortState::Done);
            ports::set_one(send, PortState::Done);
        }
    }
}
