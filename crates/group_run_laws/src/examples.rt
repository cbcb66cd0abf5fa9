//! Small worlds in which a node that keeps its input keeps what its family keeps, and others, different in one place, to which no run leads, whatever their journal, as theorems of functions that do nothing.
ghost use Rattle.std.specs.Prelude.{List, [], ◌∷◌};
ghost use Rattle.ps_frame.specs.Functions.{Functions};
ghost use Rattle.ps_meaning.specs.Shape.{Shape};
ghost use Rattle.ps_meaning.specs.Sound.{IsSound};
ghost use Rattle.ps_options.specs.declared.options.Options.{Options};
ghost use Rattle.ps_world.specs.Opening.{Reaches};
ghost use Rattle.ps_world.specs.Updates.{FaultFound};
ghost use Rattle.ps_world.specs.World.{Record};
ghost use Rattle.world_families.specs.Examples.{row};
ghost use Rattle.world_families.specs.Keepers.{HoldsGroups, HoldsMade, HoldsReduce};
ghost use Rattle.group_run_laws.specs.Worlds.{a_count, a_split, a_tail, below_zero, count_world, made_numbers, made_world, no_number, number, split_world, stored_both, tail_world};

/// A slice from the end, of one row, let go of the first of two morsels. It never lets go of the last one.
pub fn slices_let_go()
    ensures lets_go { (F : Functions) (journal : List Record) → HoldsMade F (tail_world journal ((row 2 ∷ []) ∷ [])) 1 (a_tail ((row 2 ∷ []) ∷ [])) }
    ensures never_of_the_last { (F : Functions) (journal : List Record) (shape : Shape) (o : Options) → IsSound F shape → ¬ Reaches F shape o (tail_world journal ((row 1 ∷ []) ∷ [])) }
{}

/// A map over a whole table, of numbers to row numbers, faults at the Open where one of them is below 0. Where none is it makes its table; and it never makes that one where one is.
pub fn maps_fault_at_an_open()
    ensures faults { (F : Functions) (journal : List Record) → FaultFound F (stored_both journal below_zero) 1 no_number }
    ensures makes { (F : Functions) (journal : List Record) → HoldsMade F (made_world journal (row 2)) 1 (made_numbers (row 2)) }
    ensures never_makes { (F : Functions) (journal : List Record) (shape : Shape) (o : Options) → IsSound F shape → ¬ Reaches F shape o (made_world journal below_zero) }
{}

/// A reduce that kept two morsels of one row each gave the row that counts two. It never gives one that counts one.
pub fn reduces_give_one_row()
    ensures gives { (F : Functions) (journal : List Record) → HoldsReduce F (count_world journal (number 2)) 1 a_count }
    ensures never_of_one_morsel { (F : Functions) (journal : List Record) (shape : Shape) (o : Options) → IsSound F shape → ¬ Reaches F shape o (count_world journal (number 1)) }
{}

/// Of a group-by with two lists of keys, the rows of the second list may be handed in while the first is out. Under the number of the second list never stand the rows of the first.
pub fn group_bys_give_lists_out_of_order()
    ensures second_first { (F : Functions) (journal : List Record) → HoldsGroups F (split_world journal (row 2)) 1 a_split }
    ensures never_the_other { (F : Functions) (journal : List Record) (shape : Shape) (o : Options) → IsSound F shape → ¬ Reaches F shape o (split_world journal (row 1)) }
{}
