// Small worlds in which a node keeps what its family keeps, and others, different in one place, in which it doesn't, as theorems of functions that do nothing.
ghost use Rattle.std.specs.Prelude.{◌≡◌, None, Some, [], ◌∷◌, true, false};
ghost use Rattle.ps_frame.specs.Functions.{Functions};
ghost use Rattle.ps_ports.specs.declared.port_state.PortState.TheVariants as port;
ghost use Rattle.ps_turns.specs.Keys.{IsSplit};
ghost use Rattle.ps_meaning.specs.Cases.{rows_table};
ghost use Rattle.world_families.specs.Examples.{a_group_by, a_join, a_reduce, a_schema, a_source, a_spent_join, a_union, a_zip, a_zip_of, all_read, an_end, an_index, both_cuts, by_a, came, end_world, group_world, grouped_rows, handing, index_world, indexing, join_world, join_world_of, keeping, long_input, on_a, overlapping, ports_world, probing, reduce_world, row, single_input, source_world, spent_world, three_rows, union_world, zip_world, zip_world_of};
ghost use Rattle.world_families.specs.Joins.{HoldsJoin};
ghost use Rattle.world_families.specs.Keepers.{HoldsGroups, HoldsMade, KeepsMorsels};
ghost use Rattle.world_families.specs.Onward.{HoldsPassing, HoldsPorts};
ghost use Rattle.world_families.specs.Sources.{HoldsSource};
ghost use Rattle.world_families.specs.Unions.{HoldsUnion};
ghost use Rattle.world_families.specs.Work.{PipesHold};
ghost use Rattle.world_families.specs.Zips.{HoldsZip, rows_in_cut};

/// A source may have its second cut handed in before the first, which is out. Under a number stands its own cut and no other, and its pipe isn't complete before the last.
pub fn sources_give_their_cuts()
    ensures out_of_order { (F : Functions) → HoldsSource F (source_world port.Ready (None ∷ came (row 2) ∷ []) (handing 0 (row 1 ∷ []) ∷ [])) 0 a_source three_rows }
    ensures no_other_cut { (F : Functions) → ¬ HoldsSource F (source_world port.Ready (came (row 2) ∷ None ∷ []) []) 0 a_source three_rows }
    ensures no_other_piece { (F : Functions) → ¬ HoldsSource F (source_world port.Ready (None ∷ None ∷ []) (handing 1 (row 1 ∷ []) ∷ [])) 0 a_source three_rows }
    ensures not_complete_yet { (F : Functions) → ¬ HoldsSource F (source_world port.Done (came (row 1) ∷ came (row 2) ∷ []) []) 0 a_source three_rows }
{}

/// A union numbers the morsels of its second input behind those of the first, and reads it only once the first is complete.
pub fn unions_go_input_by_input()
    ensures behind_the_first { (F : Functions) → HoldsUnion F (union_world port.Done (None ∷ came (row 2) ∷ [])) 2 a_union }
    ensures not_before_it_ends { (F : Functions) → ¬ HoldsUnion F (union_world port.Ready (None ∷ came (row 2) ∷ [])) 2 a_union }
    ensures not_the_other_way { (F : Functions) → ¬ HoldsUnion F (union_world port.Done (came (row 2) ∷ None ∷ [])) 2 a_union }
{}

/// Cuts of a zip lie side by side, and an input with one row gives it to each. An input that isn't complete yet broadcasts nothing. A zip whose output is dropped stores nothing any more.
pub fn zips_cut_side_by_side()
    ensures side_by_side { (F : Functions) → HoldsZip F (zip_world port.Done both_cuts) 2 a_zip false }
    ensures not_overlapping { (F : Functions) → ¬ HoldsZip F (zip_world port.Done overlapping) 2 a_zip false }
    ensures lets_go { (F : Functions) → HoldsZip F (zip_world_of ([] ∷ [] ∷ []) true port.Done both_cuts) 2 (a_zip_of ([] ∷ [] ∷ [])) false }
    ensures not_once_dropped { (F : Functions) → ¬ HoldsZip F (zip_world_of all_read true port.Done both_cuts) 2 (a_zip_of all_read) false }
    ensures not_before_it_is_complete { (F : Functions) → ¬ HoldsZip F (zip_world port.Ready both_cuts) 2 a_zip false }
    ensures single_row { rows_in_cut false 2 3 (single_input port.Done) ≡ row 7 ∷ [] }
    ensures not_with_extension { rows_in_cut true 2 3 (single_input port.Done) ≡ [] }
    ensures own_rows { rows_in_cut false 2 3 long_input ≡ row 3 ∷ [] }
{}

/// A slice from the end may let go of what it can't give: of three rows it keeps two. One isn't enough.
pub fn slices_keep_their_end()
    ensures two_rows { (F : Functions) → HoldsMade F (end_world ((row 2 ∷ row 3 ∷ []) ∷ [])) 1 (an_end ((row 2 ∷ row 3 ∷ []) ∷ [])) }
    ensures not_one_row { (F : Functions) → ¬ HoldsMade F (end_world ((row 3 ∷ []) ∷ [])) 1 (an_end ((row 3 ∷ []) ∷ [])) }
{}

/// What a reduce took is out, morsel by morsel. A slot keeps no other morsel than that of its number, and waits for a piece.
pub fn reduces_keep_morsels()
    ensures both_out { (F : Functions) → KeepsMorsels F (reduce_world (None ∷ None ∷ []) (keeping 1 (row 2 ∷ []) ∷ keeping 0 (row 1 ∷ []) ∷ [])) 1 (a_reduce (None ∷ None ∷ [])) 0 }
    ensures no_other_morsel { (F : Functions) → ¬ KeepsMorsels F (reduce_world (came (row 2) ∷ None ∷ []) (keeping 1 (row 2 ∷ []) ∷ [])) 1 (a_reduce (came (row 2) ∷ None ∷ [])) 0 }
    ensures not_forgotten { (F : Functions) → ¬ KeepsMorsels F (reduce_world (None ∷ None ∷ []) (keeping 1 (row 2 ∷ []) ∷ [])) 1 (a_reduce (None ∷ None ∷ [])) 0 }
{}

/// The keys 1 and 2 of three rows are split where each stands in one list, and not where one stands in two.
pub fn lists_split_keys()
    ensures one_list_each { IsSplit by_a (rows_table a_schema grouped_rows ∷ []) 2 ((row 1 ∷ []) ∷ (row 2 ∷ []) ∷ []) }
    ensures not_in_two { ¬ IsSplit by_a (rows_table a_schema grouped_rows ∷ []) 2 ((row 1 ∷ []) ∷ (row 1 ∷ row 2 ∷ []) ∷ []) }
{}

/// A group-by that gave the rows of its two lists still has all that it kept. Without that nothing would tell that the rows behind a fault in its keys weren't left out.
pub fn group_bys_keep_what_they_gave()
    ensures all_kept { (F : Functions) → HoldsGroups F (group_world (Some grouped_rows ∷ [])) 1 (a_group_by (Some grouped_rows ∷ [])) }
    ensures not_forgotten { (F : Functions) → ¬ HoldsGroups F (group_world []) 1 (a_group_by []) }
{}

/// While a join probes, each left morsel that it took goes over all right rows, and not over a part of them.
pub fn joins_probe_all_right_rows()
    ensures all_rows { (F : Functions) → HoldsJoin F (join_world (probing 1 (row 2 ∷ []) (row 2 ∷ row 3 ∷ []) ∷ probing 0 (row 1 ∷ []) (row 2 ∷ row 3 ∷ []) ∷ [])) 2 a_join on_a }
    ensures not_a_part { (F : Functions) → ¬ HoldsJoin F (join_world (probing 1 (row 2 ∷ []) (row 2 ∷ []) ∷ [])) 2 a_join on_a }
    ensures not_before_it_is_taken { (F : Functions) → ¬ HoldsJoin F (join_world_of 1 (probing 1 (row 2 ∷ []) (row 2 ∷ row 3 ∷ []) ∷ [])) 2 a_join on_a }
{}

/// A join that is spent still has all right rows that it kept, also where no left row came.
pub fn joins_keep_what_they_built()
    ensures all_kept { (F : Functions) → HoldsJoin F (spent_world (came (row 2) ∷ came (row 3) ∷ [])) 2 (a_spent_join (came (row 2) ∷ came (row 3) ∷ [])) on_a }
    ensures not_forgotten { (F : Functions) → ¬ HoldsJoin F (spent_world []) 2 (a_spent_join []) on_a }
{}

/// A row index numbers each morsel behind the rows of those before, and has booked what it took.
pub fn indexes_count_on()
    ensures goes_on { (F : Functions) → HoldsPassing F (index_world 3 (indexing 1 2 (row 3 ∷ []) ∷ indexing 0 0 (row 1 ∷ row 2 ∷ []) ∷ [])) 1 (an_index 3) }
    ensures not_anew { (F : Functions) → ¬ HoldsPassing F (index_world 3 (indexing 1 0 (row 3 ∷ []) ∷ [])) 1 (an_index 3) }
    ensures not_short { (F : Functions) → ¬ HoldsPassing F (index_world 2 []) 1 (an_index 2) }
{}

/// An open port got all that its multiplexer read; one whose reader is done may have got less, and is then unread.
pub fn ports_get_what_came()
    ensures a_front { HoldsPorts (ports_world (came (row 1) ∷ came (row 2) ∷ []) (came (row 1) ∷ [])) 1 }
    ensures not_less_while_open { ¬ HoldsPorts (ports_world (came (row 1) ∷ []) (came (row 1) ∷ [])) 1 }
    ensures not_the_others { ¬ HoldsPorts (ports_world (came (row 1) ∷ came (row 2) ∷ []) (came (row 2) ∷ [])) 1 }
    ensures unread { ¬ PipesHold (ports_world (came (row 1) ∷ came (row 2) ∷ []) (came (row 1) ∷ [])) 1 }
{}
