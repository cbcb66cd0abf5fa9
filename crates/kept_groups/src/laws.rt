//! That what the call asks is so in valid plans, as a theorem of a function that does nothing.
ghost use Rattle.std.specs.Prelude.{◌∷◌, []};
ghost use Rattle.ps_frame.specs.Functions.{Functions};
ghost use Rattle.ps_meaning.specs.Schemas.{schema_or_empty};
ghost use Rattle.ps_meaning.specs.Sound.{IsSoundButForReaders};
ghost use Rattle.ps_meaning.specs.Steps.{GroupStep, group_by};
ghost use Rattle.ps_rules.specs.Slots.{State, Stream, schema_at};
ghost use Rattle.rule_parts.specs.Good.{IsGoodStep, IsStream, KnowsNames};
ghost use Rattle.kept_groups.specs.Asked.{IsReadyToGroup};

/// A group-by that no rule refuses, over a stream of a sound shape, is ready where the names of the stream and of its
/// output are known. So is each group-by of a valid plan while the plan is lowered.
pub fn good_group_bys_are_ready()
    ensures { (F : Functions) (s : State) (i : Stream) (o : GroupStep) → let f = schema_at s.nodes i in IsSoundButForReaders F s.nodes → IsStream s.nodes i f → KnowsNames s.names f → IsGoodStep F (group_by o) (f ∷ []) → KnowsNames s.names (schema_or_empty F (group_by o) (f ∷ [])) → IsReadyToGroup s i o }
{}
