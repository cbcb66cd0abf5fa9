// Slices from the end and ordered joins on small plans, as theorems of functions that do nothing.
ghost use Rattle.std.specs.Prelude.{◌∷◌, [], negsuc};
ghost use Rattle.ps_frame.specs.Functions.{Functions};
ghost use Rattle.ps_frame.specs.Tables.{whole};
ghost use Rattle.ps_frame.specs.declared.value.DataFault.TheVariants as fault;
ghost use Rattle.ps_meaning.specs.Meaning.{IsBrokenBy, IsWholeMeaning};
ghost use Rattle.ps_meaning.specs.declared.options.JoinType.TheVariants as how;
ghost use Rattle.plan_laws.specs.Examples.{a_table, at_one};
ghost use Rattle.plan_laws.specs.Ordered.{at_two, cut_three, faulty_left, first_of_faulty, first_pair, full_ordered, last_cast, least_plan, left_ordered, ordered_plan};

/// Slices whose offset counts from the end.
pub fn slices_from_the_end()
    ensures last_but_one { (F : Functions) → IsWholeMeaning F (cut_three (negsuc 1) 1) (a_table (2 ∷ [])) }
    ensures begins_before_the_first { (F : Functions) → IsWholeMeaning F (cut_three (negsuc 4) 3) (a_table (1 ∷ [])) }
    ensures ends_before_the_first { (F : Functions) → IsWholeMeaning F (cut_three (negsuc 4) 1) (a_table []) }
    ensures of_no_rows { (F : Functions) → IsWholeMeaning F (cut_three (negsuc 0) 0) (a_table []) }
    ensures of_a_sort { (F : Functions) → IsWholeMeaning F least_plan (a_table (1 ∷ [])) }
    ensures keeps_the_fault { (F : Functions) → IsBrokenBy F last_cast (at_one fault.StrictCast) }
{}

/// Joins by the left row, then the right row.
pub fn ordered_joins()
    ensures left { (F : Functions) → IsWholeMeaning F (ordered_plan how.Left) (whole left_ordered) }
    ensures full { (F : Functions) → IsWholeMeaning F (ordered_plan how.Full) (whole full_ordered) }
    ensures before_a_fault { (F : Functions) → IsWholeMeaning F first_of_faulty (whole first_pair) }
    ensures the_fault { (F : Functions) → IsBrokenBy F (faulty_left how.Inner) (at_two fault.StrictCast) }
{}
