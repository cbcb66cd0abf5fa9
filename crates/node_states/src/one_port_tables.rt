//! The table of answers of nodes with one input and one output, line by line: what they answer to each pair of states, the
//! reader's being blocked, ready and done, as theorems of functions that do nothing.
ghost use Rattle.std.specs.Prelude.{◌≡◌, ◌∷◌, [], map};
ghost use Rattle.ps_options.specs.declared.options.Options.{Options};
ghost use Rattle.ps_ports.specs.Examples.{sides};
ghost use Rattle.ps_turns.specs.Progress.{giving, spent, taking};
ghost use Rattle.node_states.specs.Samples.{a_filled_map, a_filter, a_full_slice, a_given_source, a_group_by, a_map, a_negative_slice, a_projection, a_reduce, a_row_index, a_select, a_sink, a_slice, a_source, a_stream_map, a_waiting_map, an_empty_slice, an_extending_select, an_in_memory_join, an_independent_select};
ghost use Rattle.node_states.specs.Lines.{answers, blocked, done, from_each, from_one, in_alone, into_one, out_alone, ready, to_one, updates};

/// A filter gives its input what its reader says, and its reader what its input says.
pub fn a_filter_passes()
    ensures blocked_in { (o : Options) → answers (a_filter o) (from_one blocked) ≡ sides blocked blocked ∷ sides ready blocked ∷ sides done done ∷ [] }
    ensures ready_in { (o : Options) → answers (a_filter o) (from_one ready) ≡ sides blocked ready ∷ sides ready ready ∷ sides done done ∷ [] }
    ensures done_in { (o : Options) → answers (a_filter o) (from_one done) ≡ sides done done ∷ sides done done ∷ sides done done ∷ [] }
{}

/// So do both selects, projections, row indexes and maps of streamable functions.
pub fn others_pass()
    ensures select { (o : Options) → map (answers (a_select o)) from_each ≡ map (answers (a_filter o)) from_each }
    ensures extending { (o : Options) → map (answers (an_extending_select o)) from_each ≡ map (answers (a_filter o)) from_each }
    ensures projection { (o : Options) → map (answers (a_projection o)) from_each ≡ map (answers (a_filter o)) from_each }
    ensures row_index { (o : Options) → map (answers (a_row_index o)) from_each ≡ map (answers (a_filter o)) from_each }
    ensures streamed { (o : Options) → map (answers (a_stream_map o)) from_each ≡ map (answers (a_filter o)) from_each }
{}

/// A source that has rows left, and a select without inputs whose one morsel wasn't claimed, are ready until their reader is done.
pub fn a_source_is_ready()
    ensures table { (o : Options) → answers (a_source o) to_one ≡ out_alone ready ∷ out_alone ready ∷ out_alone done ∷ [] }
    ensures select { (o : Options) → answers (an_independent_select 0 o) to_one ≡ answers (a_source o) to_one }
{}

/// A source that gave all, and a select without inputs whose one morsel was claimed, are done.
pub fn a_source_is_exhausted()
    ensures table { (o : Options) → answers a_given_source to_one ≡ out_alone done ∷ out_alone done ∷ out_alone done ∷ [] }
    ensures select { (o : Options) → answers (an_independent_select 1 o) to_one ≡ answers a_given_source to_one }
{}

/// A slice passes before it has booked its rows.
pub fn a_slice_passes()
    ensures blocked_in { (o : Options) → answers (a_slice o) (from_one blocked) ≡ sides blocked blocked ∷ sides ready blocked ∷ sides done done ∷ [] }
    ensures ready_in { (o : Options) → answers (a_slice o) (from_one ready) ≡ sides blocked ready ∷ sides ready ready ∷ sides done done ∷ [] }
    ensures done_in { (o : Options) → answers (a_slice o) (from_one done) ≡ sides done done ∷ sides done done ∷ sides done done ∷ [] }
{}

/// It is done once it has: also where it asks for no row.
pub fn a_slice_is_over()
    ensures blocked_in { (o : Options) → answers (a_full_slice o) (from_one blocked) ≡ sides done done ∷ sides done done ∷ sides done done ∷ [] }
    ensures ready_in { (o : Options) → answers (a_full_slice o) (from_one ready) ≡ sides done done ∷ sides done done ∷ sides done done ∷ [] }
    ensures done_in { (o : Options) → answers (a_full_slice o) (from_one done) ≡ sides done done ∷ sides done done ∷ sides done done ∷ [] }
    ensures no_row { (o : Options) → map (answers (an_empty_slice o)) from_each ≡ map (answers (a_full_slice o)) from_each }
{}

/// A sink is ready until its input is done.
pub fn a_sink_takes()
    ensures table { (o : Options) → answers (a_sink o) into_one ≡ in_alone ready ∷ in_alone ready ∷ in_alone done ∷ [] }
{}

/// What keeps its input takes it until it is done; then it gives. Once its reader is done it is done before its input is looked at.
pub fn a_keeper_takes()
    ensures blocked_in { (o : Options) → updates (a_reduce taking 0 o) (from_one blocked) ≡ sides ready blocked ∷ sides ready blocked ∷ sides done done ∷ [] }
    ensures ready_in { (o : Options) → updates (a_reduce taking 0 o) (from_one ready) ≡ sides ready blocked ∷ sides ready blocked ∷ sides done done ∷ [] }
    ensures done_in { (o : Options) → updates (a_reduce taking 0 o) (from_one done) ≡ sides done ready ∷ sides done ready ∷ sides done done ∷ [] }
{}

/// It gives until its reader is done.
pub fn a_keeper_gives()
    ensures blocked_in { (o : Options) → updates (a_reduce giving 0 o) (from_one blocked) ≡ sides done ready ∷ sides done ready ∷ sides done done ∷ [] }
    ensures ready_in { (o : Options) → updates (a_reduce giving 0 o) (from_one ready) ≡ sides done ready ∷ sides done ready ∷ sides done done ∷ [] }
    ensures done_in { (o : Options) → updates (a_reduce giving 0 o) (from_one done) ≡ sides done ready ∷ sides done ready ∷ sides done done ∷ [] }
{}

/// Once it gave all it is done.
pub fn a_keeper_gave_all()
    ensures blocked_in { (o : Options) → updates (a_reduce giving 1 o) (from_one blocked) ≡ sides done done ∷ sides done done ∷ sides done done ∷ [] }
    ensures ready_in { (o : Options) → updates (a_reduce giving 1 o) (from_one ready) ≡ sides done done ∷ sides done done ∷ sides done done ∷ [] }
    ensures done_in { (o : Options) → updates (a_reduce giving 1 o) (from_one done) ≡ sides done done ∷ sides done done ∷ sides done done ∷ [] }
{}

/// Then it stays so.
pub fn a_keeper_is_spent()
    ensures blocked_in { (o : Options) → updates (a_reduce spent 1 o) (from_one blocked) ≡ sides done done ∷ sides done done ∷ sides done done ∷ [] }
    ensures ready_in { (o : Options) → updates (a_reduce spent 1 o) (from_one ready) ≡ sides done done ∷ sides done done ∷ sides done done ∷ [] }
    ensures done_in { (o : Options) → updates (a_reduce spent 1 o) (from_one done) ≡ sides done done ∷ sides done done ∷ sides done done ∷ [] }
{}

/// In-memory maps and joins, negative slices and group-bys keep their input as a reduce does.
pub fn others_keep()
    ensures maps { (o : Options) → map (updates (a_map taking o)) from_each ≡ map (updates (a_reduce taking 0 o)) from_each }
    ensures joins { (o : Options) → map (updates (an_in_memory_join taking o)) from_each ≡ map (updates (a_reduce taking 0 o)) from_each }
    ensures negative_slice { (o : Options) → map (updates (a_negative_slice taking o)) from_each ≡ map (updates (a_reduce taking 0 o)) from_each }
    ensures group_by { (o : Options) → map (updates (a_group_by taking o)) from_each ≡ map (updates (a_reduce taking 0 o)) from_each }
{}

/// A map of a handed-in function takes its input until its table was filled in.
pub fn a_waiting_map_takes()
    ensures blocked_in { (o : Options) → updates (a_waiting_map o) (from_one blocked) ≡ sides ready blocked ∷ sides ready blocked ∷ sides done done ∷ [] }
    ensures ready_in { (o : Options) → updates (a_waiting_map o) (from_one ready) ≡ sides ready blocked ∷ sides ready blocked ∷ sides done done ∷ [] }
    ensures done_in { (o : Options) → updates (a_waiting_map o) (from_one done) ≡ sides done blocked ∷ sides done blocked ∷ sides done done ∷ [] }
    ensures filled { (o : Options) → map (updates (a_filled_map o)) from_each ≡ map (updates (a_reduce taking 0 o)) from_each }
{}
