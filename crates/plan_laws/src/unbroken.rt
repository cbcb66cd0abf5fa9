// A worked example, as a theorem of a function that does nothing.
ghost use Rattle.plan_laws.specs.Unbroken.{filter_above_one};
ghost use Rattle.ps_frame.specs.Functions.{Functions};
ghost use Rattle.ps_plan.specs.PlanMeanings.{NothingBreaks};

/// There are plans that nothing can break: a scan, a filter by a number and a sink.
pub fn unbroken_plan()
    ensures { (F : Functions) → NothingBreaks F filter_above_one }
{}
