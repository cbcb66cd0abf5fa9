//! When a node that keeps its input begins to give.
ghost use Rattle.std.specs.Prelude.{◌≡◌, ◌&&◌, not};
ghost use Rattle.node_states.specs.Stages.{stage_of};
ghost use Rattle.ps_turns.specs.Progress.{is_giving};

use node_states::stage::Stage;

/// Whether a node that comes from one stage into another begins to give.
pub fn begins(before: Stage, after: Stage) -> bool
    ensures { result ≡ (not (is_giving (stage_of before)) && is_giving (stage_of after)) }
{
    match before {
        Stage::Giving => false,
        Stage::Taking | Stage::Spent => matches!(after, Stage::Giving),
    }
}
