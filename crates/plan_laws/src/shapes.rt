// Sound shapes, their meaning and tables within others, as theorems of functions that do nothing.
ghost use Rattle.std.specs.Prelude.{◌≡◌, ◌∷◌, [], None, Some, codes, pos};
ghost use Rattle.ps_frame.specs.Functions.{Functions};
ghost use Rattle.ps_frame.specs.Tables.{Table, whole};
ghost use Rattle.ps_frame.specs.declared.value.DataFault.TheVariants as fault;
ghost use Rattle.ps_meaning.specs.Meaning.{IsBrokenBy};
ghost use Rattle.ps_meaning.specs.Shape.{PhysicalBrokenBy, PhysicalMeans};
ghost use Rattle.ps_meaning.specs.Sound.{IsSound, IsSoundButForReaders};
ghost use Rattle.ps_meaning.specs.Within.{Within};
ghost use Rattle.plan_laws.specs.Examples.{a_column, at_one, sum_table};
ghost use Rattle.plan_laws.specs.Forgotten.{first_gathered, gathered, gathered_shape};
ghost use Rattle.plan_laws.specs.Shapes.{backward_shape, first_of_two, forward_shape, join_shape, one_two, select_shape, sum_shape, twice_shape};

/// The six nodes of a sum beside a column are a sound shape, and mean the sum beside the column alone.
pub fn sum_beside_a_column()
    ensures sound { (F : Functions) → IsSound F sum_shape }
    ensures means { (F : Functions) → PhysicalMeans F sum_shape 5 sum_table }
    ensures nothing_else { (F : Functions) (T : Table) → PhysicalMeans F sum_shape 5 T → T ≡ sum_table }
{}

/// Shapes that aren't sound, each beside a sound one that differs in one place.
pub fn sound_and_unsound()
    ensures each_port_once { (F : Functions) → IsSound F (twice_shape 1) }
    ensures a_port_twice { (F : Functions) → ¬ IsSound F (twice_shape 0) }
    ensures but_for_readers { (F : Functions) → IsSoundButForReaders F (twice_shape 0) }
    ensures literal_beside_a_column { (F : Functions) → IsSound F (select_shape ((codes "a", a_column) ∷ []) one_two.schema) }
    ensures literals_alone { (F : Functions) → ¬ IsSound F (select_shape [] []) }
    ensures join { (F : Functions) → IsSound F (join_shape None) }
    ensures join_with_a_slice { (F : Functions) → ¬ IsSound F (join_shape (Some (pos 0, 1))) }
    ensures backward { (F : Functions) → IsSound F backward_shape }
    ensures forward { (F : Functions) → ¬ IsSound F forward_shape }
{}

/// A broken table lies within a whole one that goes on from its rows, and not the other way round.
pub fn tables_within_others()
    ensures broken_in_whole { Within first_of_two (whole one_two) }
    ensures not_whole_in_broken { ¬ Within (whole one_two) first_of_two }
{}

/// The slice of a stream may keep a cause of an earlier node that the plan's slice forgets, since what is lost breaks tables of their own in a plan. So lowering speaks of the faults that a node's own step makes.
pub fn causes_of_earlier_nodes()
    ensures sound { (F : Functions) → IsSound F gathered_shape }
    ensures kept_by_the_stream { (F : Functions) → PhysicalBrokenBy F gathered_shape 8 (at_one fault.Gather) }
    ensures forgotten_by_the_plan { (F : Functions) → ¬ IsBrokenBy F first_gathered (at_one fault.Gather) }
    ensures made_by_the_select { (F : Functions) → IsBrokenBy F gathered (at_one fault.Gather) }
{}
