//! The stages of what keeps its input before it gives anything, and of an equi join.
ghost use Rattle.std.specs.Prelude.{◌≡◌};
ghost use Rattle.ps_turns.specs.Updates.{next_stage};
ghost use Rattle.node_states.specs.Stages.{stage_of, stages_behind};

/// It takes its input, gives what it made of it, or is spent. An equi join builds while it takes, and probes while it
/// gives.
#[derive(Clone, Copy, Debug, PartialEq, Eq)]
pub enum Stage {
    Taking,
    Giving,
    Spent,
}

impl Stage {
    /// The stage after an update: spent once the output is done, before the inputs are looked at; else giving once the
    /// inputs are done, and spent once all was given.
    pub fn next(self, output_done: bool, inputs_done: bool, gave_all: bool) -> Stage
        ensures { stage_of result ≡ next_stage (stage_of self) output_done inputs_done gave_all }
    {
        if output_done {
            return Stage::Spent;
        }
        match self {
            Stage::Taking if inputs_done => Stage::Giving,
            Stage::Giving if gave_all => Stage::Spent,
            stage => stage,
        }
    }

    /// How many stages are behind it: at most two.
    pub fn behind(self) -> usize
        ensures { result ≡ stages_behind (stage_of self) }
    {
        match self {
            Stage::Taking => 0,
            Stage::Giving => 1,
            Stage::Spent => 2,
        }
    }
}
