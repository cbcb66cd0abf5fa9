//! Laws of the nodes of plans, as theorems of functions that do nothing.
ghost use Rattle.rule_soundness.specs.Plans.{PlansStaySound};

/// The nodes that the rules give of a plan, before multiplexers, are those of a sound shape, whatever number of readers
/// they have: where no rule refuses a step over the schemas of its inputs, the names of all schemas are known, and caches
/// of one id stand over one tree.
pub fn plans_stay_sound()
    ensures { PlansStaySound }
{}
