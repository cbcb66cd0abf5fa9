//! Laws of the nodes of steps, as theorems of functions that do nothing.
ghost use Rattle.rule_nodes.specs.Steps.{StepsStaySound};

/// Each node that the rules make for a step is one of a sound shape, whatever number of readers it has, and their stream
/// has the step's schema: where the streams that it reads are of a sound shape, no rule refuses the step over their
/// schemas, and the names of these and of its own are known.
pub fn steps_stay_sound()
    ensures { StepsStaySound }
{}
