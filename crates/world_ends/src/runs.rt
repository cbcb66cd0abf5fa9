// No phase is idle, so that driving a world ends: theorems of functions that do nothing.
ghost use Rattle.std.specs.Prelude.{ℕ};
ghost use Rattle.ps_frame.specs.Functions.{Functions};
ghost use Rattle.ps_meaning.specs.Shape.{Shape};
ghost use Rattle.ps_meaning.specs.Sound.{IsSound};
ghost use Rattle.ps_options.specs.declared.options.Options.{Options};
ghost use Rattle.ps_world.specs.Closing.{after_end};
ghost use Rattle.ps_world.specs.Opening.{Reaches};
ghost use Rattle.ps_world.specs.Step.{Steps};
ghost use Rattle.ps_world.specs.World.{World, closed, ended};
ghost use Rattle.world_ends.specs.Examples.{at_its_end, both_closed};
ghost use Rattle.world_ends.specs.Runs.{EachPhaseTakes, IsEndless, IsNeverStuck, PiecesHaveResults, ReachesEnd};
ghost use Rattle.world_measure.specs.Driving.{NoPhaseIsIdle, StepsTo};
ghost use Rattle.world_measure.specs.Examples.{in_its_phase};
ghost use Rattle.world_measure.specs.Order.{Ends};

use world_measure::driving;

/// No phase of a sound shape ends before something was claimed or pulled in it, whatever its nodes compute, with any number of workers. So no phase is idle.
pub fn phases_take()
    ensures takes { (F : Functions) (shape : Shape) (o : Options) → IsSound F shape → EachPhaseTakes F shape o }
    ensures not_idle { (F : Functions) (shape : Shape) (o : Options) → IsSound F shape → NoPhaseIsIdle F shape o }
{}

/// From every world that the opening of a sound shape reaches, each run ends, with steps of every kind and in whatever order workers take them: Opens, claims, hand-ins, pulls, closes and ends of phases.
pub fn runs_end()
    ensures { (F : Functions) (shape : Shape) (o : Options) (w : World) → IsSound F shape → Reaches F shape o w → Ends (StepsTo F) w }
{
    phases_take();
    driving::runs_end();
}

/// So no run is endless.
pub fn no_run_is_endless()
    ensures { (F : Functions) (shape : Shape) (o : Options) (run : ℕ → World) → IsSound F shape → Reaches F shape o (run 0) → ¬ IsEndless F run }
{
    runs_end();
}

/// Where no reached world is stuck, and each piece out has a result, some run leads from every reached world to one that is finished or faulty: whoever makes steps while there are any comes there.
pub fn ends_are_reached()
    ensures { (F : Functions) (shape : Shape) (o : Options) (w : World) → IsSound F shape → IsNeverStuck F shape o → PiecesHaveResults F shape o → Reaches F shape o w → ReachesEnd F w }
{
    runs_end();
}

/// A source that has cuts left, in its phase: it doesn't close, and the phase doesn't end. Once source and sink are closed it does. From a finished world no run goes on.
pub fn small_runs()
    ensures no_close { (F : Functions) (v : World) → ¬ Steps F in_its_phase (closed 0) v }
    ensures no_end { (F : Functions) (v : World) → ¬ Steps F in_its_phase (ended 1) v }
    ensures end { (F : Functions) → Steps F both_closed (ended 1) (after_end both_closed) }
    ensures over { (F : Functions) → ¬ IsEndless F (λ k. at_its_end) }
{}
