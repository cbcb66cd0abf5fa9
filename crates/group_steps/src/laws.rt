//! A law of distincts that are fit for their input, as a theorem of a function that does nothing.
ghost use Rattle.std.specs.Prelude.{◌∷◌, []};
ghost use Rattle.ps_frame.specs.Tables.{Fields, Frame};
ghost use Rattle.ps_groups.specs.Subsets.{StandIn};
ghost use Rattle.ps_meaning.specs.Steps.{distinct_step};
ghost use Rattle.ps_meaning.specs.declared.options.DistinctOptions.{DistinctOptions};
ghost use Rattle.ready_steps.specs.Ready.{IsReady};

/// The names that a distinct compares, if it names any, stand in a table for which it is fit.
pub fn compared_names_stand()
    ensures { (o : DistinctOptions) (d : Frame) (s : Fields) → IsReady (distinct_step o) (d ∷ []) s → StandIn o.subset d.schema }
{}
