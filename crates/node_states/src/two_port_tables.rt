//! The table of answers of nodes with two ports on one side, line by line: what they answer to each three states, the last
//! one being blocked, ready and done, as theorems of functions that do nothing.
ghost use Rattle.std.specs.Prelude.{◌≡◌, ◌∷◌, [], false, true};
ghost use Rattle.ps_options.specs.declared.options.Options.{Options};
ghost use Rattle.ps_turns.specs.Progress.{giving, spent, taking};
ghost use Rattle.node_states.specs.Samples.{a_full_join, a_half_zip, a_multiplexer, a_single_zip, a_union, a_zip, an_empty_zip, an_in_memory_join, an_inner_join};
ghost use Rattle.node_states.specs.Lines.{answers, blocked, done, from_two, ready, to_two, two_in, two_out, updates};

/// A union passes its first input that isn't done; later ones are blocked, and without such an input its output is done.
pub fn a_union_passes()
    ensures blocked_blocked { (o : Options) → answers (a_union o) (from_two blocked blocked) ≡ two_in blocked blocked blocked ∷ two_in ready blocked blocked ∷ two_in done blocked done ∷ [] }
    ensures blocked_ready { (o : Options) → answers (a_union o) (from_two blocked ready) ≡ two_in blocked blocked blocked ∷ two_in ready blocked blocked ∷ two_in done blocked done ∷ [] }
    ensures blocked_done { (o : Options) → answers (a_union o) (from_two blocked done) ≡ two_in blocked done blocked ∷ two_in ready done blocked ∷ two_in done done done ∷ [] }
    ensures ready_blocked { (o : Options) → answers (a_union o) (from_two ready blocked) ≡ two_in blocked blocked ready ∷ two_in ready blocked ready ∷ two_in done blocked done ∷ [] }
    ensures ready_ready { (o : Options) → answers (a_union o) (from_two ready ready) ≡ two_in blocked blocked ready ∷ two_in ready blocked ready ∷ two_in done blocked done ∷ [] }
    ensures ready_done { (o : Options) → answers (a_union o) (from_two ready done) ≡ two_in blocked done ready ∷ two_in ready done ready ∷ two_in done done done ∷ [] }
    ensures done_blocked { (o : Options) → answers (a_union o) (from_two done blocked) ≡ two_in done blocked blocked ∷ two_in done ready blocked ∷ two_in done done done ∷ [] }
    ensures done_ready { (o : Options) → answers (a_union o) (from_two done ready) ≡ two_in done blocked ready ∷ two_in done ready ready ∷ two_in done done done ∷ [] }
    ensures done_done { (o : Options) → answers (a_union o) (from_two done done) ≡ two_in done done done ∷ two_in done done done ∷ two_in done done done ∷ [] }
{}

/// A zip whose heads have rows: done with its reader; blocked where an input is; else ready to its reader, and to its inputs unless its reader is blocked.
pub fn a_zip_stores()
    ensures blocked_blocked { (o : Options) → answers (a_zip o) (from_two blocked blocked) ≡ two_in blocked blocked blocked ∷ two_in blocked blocked blocked ∷ two_in done done done ∷ [] }
    ensures blocked_ready { (o : Options) → answers (a_zip o) (from_two blocked ready) ≡ two_in blocked blocked blocked ∷ two_in blocked blocked blocked ∷ two_in done done done ∷ [] }
    ensures blocked_done { (o : Options) → answers (a_zip o) (from_two blocked done) ≡ two_in blocked done blocked ∷ two_in blocked done blocked ∷ two_in done done done ∷ [] }
    ensures ready_blocked { (o : Options) → answers (a_zip o) (from_two ready blocked) ≡ two_in blocked blocked blocked ∷ two_in blocked blocked blocked ∷ two_in done done done ∷ [] }
    ensures ready_ready { (o : Options) → answers (a_zip o) (from_two ready ready) ≡ two_in blocked blocked ready ∷ two_in ready ready ready ∷ two_in done done done ∷ [] }
    ensures ready_done { (o : Options) → answers (a_zip o) (from_two ready done) ≡ two_in blocked done ready ∷ two_in ready done ready ∷ two_in done done done ∷ [] }
    ensures done_blocked { (o : Options) → answers (a_zip o) (from_two done blocked) ≡ two_in done blocked blocked ∷ two_in done blocked blocked ∷ two_in done done done ∷ [] }
    ensures done_ready { (o : Options) → answers (a_zip o) (from_two done ready) ≡ two_in done blocked ready ∷ two_in done ready ready ∷ two_in done done done ∷ [] }
    ensures done_done { (o : Options) → answers (a_zip o) (from_two done done) ≡ two_in done done ready ∷ two_in done done ready ∷ two_in done done done ∷ [] }
{}

/// A zip whose heads are empty is done once its inputs are.
pub fn a_zip_is_over()
    ensures blocked_blocked { (o : Options) → answers (an_empty_zip o) (from_two blocked blocked) ≡ two_in blocked blocked blocked ∷ two_in blocked blocked blocked ∷ two_in done done done ∷ [] }
    ensures blocked_ready { (o : Options) → answers (an_empty_zip o) (from_two blocked ready) ≡ two_in blocked blocked blocked ∷ two_in blocked blocked blocked ∷ two_in done done done ∷ [] }
    ensures blocked_done { (o : Options) → answers (an_empty_zip o) (from_two blocked done) ≡ two_in blocked done blocked ∷ two_in blocked done blocked ∷ two_in done done done ∷ [] }
    ensures ready_blocked { (o : Options) → answers (an_empty_zip o) (from_two ready blocked) ≡ two_in blocked blocked blocked ∷ two_in blocked blocked blocked ∷ two_in done done done ∷ [] }
    ensures ready_ready { (o : Options) → answers (an_empty_zip o) (from_two ready ready) ≡ two_in blocked blocked ready ∷ two_in ready ready ready ∷ two_in done done done ∷ [] }
    ensures ready_done { (o : Options) → answers (an_empty_zip o) (from_two ready done) ≡ two_in blocked done ready ∷ two_in ready done ready ∷ two_in done done done ∷ [] }
    ensures done_blocked { (o : Options) → answers (an_empty_zip o) (from_two done blocked) ≡ two_in done blocked blocked ∷ two_in done blocked blocked ∷ two_in done done done ∷ [] }
    ensures done_ready { (o : Options) → answers (an_empty_zip o) (from_two done ready) ≡ two_in done blocked ready ∷ two_in done ready ready ∷ two_in done done done ∷ [] }
    ensures done_done { (o : Options) → answers (an_empty_zip o) (from_two done done) ≡ two_in done done done ∷ two_in done done done ∷ two_in done done done ∷ [] }
{}

/// Beside a head that broadcasts, an empty one ends the zip; where all broadcast, their row is still to be given.
pub fn a_zip_broadcasts()
    ensures beside { (o : Options) → answers (a_half_zip o) (from_two done done) ≡ answers (an_empty_zip o) (from_two done done) }
    ensures all { (o : Options) → answers (a_single_zip o) (from_two done done) ≡ two_in done done ready ∷ two_in done done ready ∷ two_in done done done ∷ [] }
{}

/// A multiplexer whose pipes are empty gives its readers what its input says; its input is blocked where all readers are. It is done with its readers, or with its input.
pub fn a_multiplexer_offers()
    ensures blocked_blocked { (o : Options) → answers (a_multiplexer (true ∷ true ∷ []) o) (to_two blocked blocked) ≡ two_out blocked blocked blocked ∷ two_out blocked ready ready ∷ two_out done done done ∷ [] }
    ensures blocked_ready { (o : Options) → answers (a_multiplexer (true ∷ true ∷ []) o) (to_two blocked ready) ≡ two_out ready blocked blocked ∷ two_out ready ready ready ∷ two_out done done done ∷ [] }
    ensures blocked_done { (o : Options) → answers (a_multiplexer (true ∷ true ∷ []) o) (to_two blocked done) ≡ two_out ready blocked done ∷ two_out ready ready done ∷ two_out done done done ∷ [] }
    ensures ready_blocked { (o : Options) → answers (a_multiplexer (true ∷ true ∷ []) o) (to_two ready blocked) ≡ two_out ready blocked blocked ∷ two_out ready ready ready ∷ two_out done done done ∷ [] }
    ensures ready_ready { (o : Options) → answers (a_multiplexer (true ∷ true ∷ []) o) (to_two ready ready) ≡ two_out ready blocked blocked ∷ two_out ready ready ready ∷ two_out done done done ∷ [] }
    ensures ready_done { (o : Options) → answers (a_multiplexer (true ∷ true ∷ []) o) (to_two ready done) ≡ two_out ready blocked done ∷ two_out ready ready done ∷ two_out done done done ∷ [] }
    ensures done_blocked { (o : Options) → answers (a_multiplexer (true ∷ true ∷ []) o) (to_two done blocked) ≡ two_out ready done blocked ∷ two_out ready done ready ∷ two_out done done done ∷ [] }
    ensures done_ready { (o : Options) → answers (a_multiplexer (true ∷ true ∷ []) o) (to_two done ready) ≡ two_out ready done blocked ∷ two_out ready done ready ∷ two_out done done done ∷ [] }
    ensures done_done { (o : Options) → answers (a_multiplexer (true ∷ true ∷ []) o) (to_two done done) ≡ two_out done done done ∷ two_out done done done ∷ two_out done done done ∷ [] }
{}

/// Where something waits in the pipe to its first reader, that reader gets ready; and the input's end alone ends the multiplexer only once that reader is done.
pub fn a_multiplexer_holds()
    ensures blocked_blocked { (o : Options) → answers (a_multiplexer (false ∷ true ∷ []) o) (to_two blocked blocked) ≡ two_out blocked ready blocked ∷ two_out blocked ready ready ∷ two_out done ready done ∷ [] }
    ensures blocked_ready { (o : Options) → answers (a_multiplexer (false ∷ true ∷ []) o) (to_two blocked ready) ≡ two_out ready ready blocked ∷ two_out ready ready ready ∷ two_out done ready done ∷ [] }
    ensures blocked_done { (o : Options) → answers (a_multiplexer (false ∷ true ∷ []) o) (to_two blocked done) ≡ two_out ready ready done ∷ two_out ready ready done ∷ two_out done ready done ∷ [] }
    ensures ready_blocked { (o : Options) → answers (a_multiplexer (false ∷ true ∷ []) o) (to_two ready blocked) ≡ two_out ready ready blocked ∷ two_out ready ready ready ∷ two_out done ready done ∷ [] }
    ensures ready_ready { (o : Options) → answers (a_multiplexer (false ∷ true ∷ []) o) (to_two ready ready) ≡ two_out ready ready blocked ∷ two_out ready ready ready ∷ two_out done ready done ∷ [] }
    ensures ready_done { (o : Options) → answers (a_multiplexer (false ∷ true ∷ []) o) (to_two ready done) ≡ two_out ready ready done ∷ two_out ready ready done ∷ two_out done ready done ∷ [] }
    ensures done_blocked { (o : Options) → answers (a_multiplexer (false ∷ true ∷ []) o) (to_two done blocked) ≡ two_out ready done blocked ∷ two_out ready done ready ∷ two_out done done done ∷ [] }
    ensures done_ready { (o : Options) → answers (a_multiplexer (false ∷ true ∷ []) o) (to_two done ready) ≡ two_out ready done blocked ∷ two_out ready done ready ∷ two_out done done done ∷ [] }
    ensures done_done { (o : Options) → answers (a_multiplexer (false ∷ true ∷ []) o) (to_two done done) ≡ two_out done done done ∷ two_out done done done ∷ two_out done done done ∷ [] }
{}

/// The same where something waits for both.
pub fn a_full_multiplexer_holds()
    ensures blocked_blocked { (o : Options) → answers (a_multiplexer (false ∷ false ∷ []) o) (to_two blocked blocked) ≡ two_out blocked ready ready ∷ two_out blocked ready ready ∷ two_out done ready ready ∷ [] }
    ensures blocked_ready { (o : Options) → answers (a_multiplexer (false ∷ false ∷ []) o) (to_two blocked ready) ≡ two_out ready ready ready ∷ two_out ready ready ready ∷ two_out done ready ready ∷ [] }
    ensures blocked_done { (o : Options) → answers (a_multiplexer (false ∷ false ∷ []) o) (to_two blocked done) ≡ two_out ready ready done ∷ two_out ready ready done ∷ two_out done ready done ∷ [] }
    ensures ready_blocked { (o : Options) → answers (a_multiplexer (false ∷ false ∷ []) o) (to_two ready blocked) ≡ two_out ready ready ready ∷ two_out ready ready ready ∷ two_out done ready ready ∷ [] }
    ensures ready_ready { (o : Options) → answers (a_multiplexer (false ∷ false ∷ []) o) (to_two ready ready) ≡ two_out ready ready ready ∷ two_out ready ready ready ∷ two_out done ready ready ∷ [] }
    ensures ready_done { (o : Options) → answers (a_multiplexer (false ∷ false ∷ []) o) (to_two ready done) ≡ two_out ready ready done ∷ two_out ready ready done ∷ two_out done ready done ∷ [] }
    ensures done_blocked { (o : Options) → answers (a_multiplexer (false ∷ false ∷ []) o) (to_two done blocked) ≡ two_out ready done ready ∷ two_out ready done ready ∷ two_out done done ready ∷ [] }
    ensures done_ready { (o : Options) → answers (a_multiplexer (false ∷ false ∷ []) o) (to_two done ready) ≡ two_out ready done ready ∷ two_out ready done ready ∷ two_out done done ready ∷ [] }
    ensures done_done { (o : Options) → answers (a_multiplexer (false ∷ false ∷ []) o) (to_two done done) ≡ two_out done done done ∷ two_out done done done ∷ two_out done done done ∷ [] }
{}

/// An equi join builds until its right input is done; then it passes its left one.
pub fn a_join_builds()
    ensures blocked_blocked { (o : Options) → updates (an_inner_join taking o) (from_two blocked blocked) ≡ two_in blocked ready blocked ∷ two_in blocked ready blocked ∷ two_in done done done ∷ [] }
    ensures blocked_ready { (o : Options) → updates (an_inner_join taking o) (from_two blocked ready) ≡ two_in blocked ready blocked ∷ two_in blocked ready blocked ∷ two_in done done done ∷ [] }
    ensures blocked_done { (o : Options) → updates (an_inner_join taking o) (from_two blocked done) ≡ two_in blocked done blocked ∷ two_in ready done blocked ∷ two_in done done done ∷ [] }
    ensures ready_blocked { (o : Options) → updates (an_inner_join taking o) (from_two ready blocked) ≡ two_in blocked ready blocked ∷ two_in blocked ready blocked ∷ two_in done done done ∷ [] }
    ensures ready_ready { (o : Options) → updates (an_inner_join taking o) (from_two ready ready) ≡ two_in blocked ready blocked ∷ two_in blocked ready blocked ∷ two_in done done done ∷ [] }
    ensures ready_done { (o : Options) → updates (an_inner_join taking o) (from_two ready done) ≡ two_in blocked done ready ∷ two_in ready done ready ∷ two_in done done done ∷ [] }
    ensures done_blocked { (o : Options) → updates (an_inner_join taking o) (from_two done blocked) ≡ two_in done ready blocked ∷ two_in done ready blocked ∷ two_in done done done ∷ [] }
    ensures done_ready { (o : Options) → updates (an_inner_join taking o) (from_two done ready) ≡ two_in done ready blocked ∷ two_in done ready blocked ∷ two_in done done done ∷ [] }
    ensures done_done { (o : Options) → updates (an_inner_join taking o) (from_two done done) ≡ two_in done done done ∷ two_in done done done ∷ two_in done done done ∷ [] }
{}

/// While it probes it passes its left input, and is done with it.
pub fn a_join_probes()
    ensures blocked_blocked { (o : Options) → updates (an_inner_join giving o) (from_two blocked blocked) ≡ two_in blocked done blocked ∷ two_in ready done blocked ∷ two_in done done done ∷ [] }
    ensures blocked_ready { (o : Options) → updates (an_inner_join giving o) (from_two blocked ready) ≡ two_in blocked done blocked ∷ two_in ready done blocked ∷ two_in done done done ∷ [] }
    ensures blocked_done { (o : Options) → updates (an_inner_join giving o) (from_two blocked done) ≡ two_in blocked done blocked ∷ two_in ready done blocked ∷ two_in done done done ∷ [] }
    ensures ready_blocked { (o : Options) → updates (an_inner_join giving o) (from_two ready blocked) ≡ two_in blocked done ready ∷ two_in ready done ready ∷ two_in done done done ∷ [] }
    ensures ready_ready { (o : Options) → updates (an_inner_join giving o) (from_two ready ready) ≡ two_in blocked done ready ∷ two_in ready done ready ∷ two_in done done done ∷ [] }
    ensures ready_done { (o : Options) → updates (an_inner_join giving o) (from_two ready done) ≡ two_in blocked done ready ∷ two_in ready done ready ∷ two_in done done done ∷ [] }
    ensures done_blocked { (o : Options) → updates (an_inner_join giving o) (from_two done blocked) ≡ two_in done done done ∷ two_in done done done ∷ two_in done done done ∷ [] }
    ensures done_ready { (o : Options) → updates (an_inner_join giving o) (from_two done ready) ≡ two_in done done done ∷ two_in done done done ∷ two_in done done done ∷ [] }
    ensures done_done { (o : Options) → updates (an_inner_join giving o) (from_two done done) ≡ two_in done done done ∷ two_in done done done ∷ two_in done done done ∷ [] }
{}

/// A full join builds likewise; where its left input is done too it has right rows to give.
pub fn a_full_join_builds()
    ensures blocked_blocked { (o : Options) → updates (a_full_join taking 0 o) (from_two blocked blocked) ≡ two_in blocked ready blocked ∷ two_in blocked ready blocked ∷ two_in done done done ∷ [] }
    ensures blocked_ready { (o : Options) → updates (a_full_join taking 0 o) (from_two blocked ready) ≡ two_in blocked ready blocked ∷ two_in blocked ready blocked ∷ two_in done done done ∷ [] }
    ensures blocked_done { (o : Options) → updates (a_full_join taking 0 o) (from_two blocked done) ≡ two_in blocked done blocked ∷ two_in ready done blocked ∷ two_in done done done ∷ [] }
    ensures ready_blocked { (o : Options) → updates (a_full_join taking 0 o) (from_two ready blocked) ≡ two_in blocked ready blocked ∷ two_in blocked ready blocked ∷ two_in done done done ∷ [] }
    ensures ready_ready { (o : Options) → updates (a_full_join taking 0 o) (from_two ready ready) ≡ two_in blocked ready blocked ∷ two_in blocked ready blocked ∷ two_in done done done ∷ [] }
    ensures ready_done { (o : Options) → updates (a_full_join taking 0 o) (from_two ready done) ≡ two_in blocked done ready ∷ two_in ready done ready ∷ two_in done done done ∷ [] }
    ensures done_blocked { (o : Options) → updates (a_full_join taking 0 o) (from_two done blocked) ≡ two_in done ready blocked ∷ two_in done ready blocked ∷ two_in done done done ∷ [] }
    ensures done_ready { (o : Options) → updates (a_full_join taking 0 o) (from_two done ready) ≡ two_in done ready blocked ∷ two_in done ready blocked ∷ two_in done done done ∷ [] }
    ensures done_done { (o : Options) → updates (a_full_join taking 0 o) (from_two done done) ≡ two_in done done ready ∷ two_in done done ready ∷ two_in done done done ∷ [] }
{}

/// While right rows are owed, a full join is ready to its reader although its left input is done.
pub fn a_full_join_probes()
    ensures blocked_blocked { (o : Options) → updates (a_full_join giving 0 o) (from_two blocked blocked) ≡ two_in blocked done blocked ∷ two_in ready done blocked ∷ two_in done done done ∷ [] }
    ensures blocked_ready { (o : Options) → updates (a_full_join giving 0 o) (from_two blocked ready) ≡ two_in blocked done blocked ∷ two_in ready done blocked ∷ two_in done done done ∷ [] }
    ensures blocked_done { (o : Options) → updates (a_full_join giving 0 o) (from_two blocked done) ≡ two_in blocked done blocked ∷ two_in ready done blocked ∷ two_in done done done ∷ [] }
    ensures ready_blocked { (o : Options) → updates (a_full_join giving 0 o) (from_two ready blocked) ≡ two_in blocked done ready ∷ two_in ready done ready ∷ two_in done done done ∷ [] }
    ensures ready_ready { (o : Options) → updates (a_full_join giving 0 o) (from_two ready ready) ≡ two_in blocked done ready ∷ two_in ready done ready ∷ two_in done done done ∷ [] }
    ensures ready_done { (o : Options) → updates (a_full_join giving 0 o) (from_two ready done) ≡ two_in blocked done ready ∷ two_in ready done ready ∷ two_in done done done ∷ [] }
    ensures done_blocked { (o : Options) → updates (a_full_join giving 0 o) (from_two done blocked) ≡ two_in done done ready ∷ two_in done done ready ∷ two_in done done done ∷ [] }
    ensures done_ready { (o : Options) → updates (a_full_join giving 0 o) (from_two done ready) ≡ two_in done done ready ∷ two_in done done ready ∷ two_in done done done ∷ [] }
    ensures done_done { (o : Options) → updates (a_full_join giving 0 o) (from_two done done) ≡ two_in done done ready ∷ two_in done done ready ∷ two_in done done done ∷ [] }
{}

/// Once its last piece was claimed, it is done with its left input.
pub fn a_full_join_gave_all()
    ensures blocked_blocked { (o : Options) → updates (a_full_join giving 1 o) (from_two blocked blocked) ≡ two_in blocked done blocked ∷ two_in ready done blocked ∷ two_in done done done ∷ [] }
    ensures blocked_ready { (o : Options) → updates (a_full_join giving 1 o) (from_two blocked ready) ≡ two_in blocked done blocked ∷ two_in ready done blocked ∷ two_in done done done ∷ [] }
    ensures blocked_done { (o : Options) → updates (a_full_join giving 1 o) (from_two blocked done) ≡ two_in blocked done blocked ∷ two_in ready done blocked ∷ two_in done done done ∷ [] }
    ensures ready_blocked { (o : Options) → updates (a_full_join giving 1 o) (from_two ready blocked) ≡ two_in blocked done ready ∷ two_in ready done ready ∷ two_in done done done ∷ [] }
    ensures ready_ready { (o : Options) → updates (a_full_join giving 1 o) (from_two ready ready) ≡ two_in blocked done ready ∷ two_in ready done ready ∷ two_in done done done ∷ [] }
    ensures ready_done { (o : Options) → updates (a_full_join giving 1 o) (from_two ready done) ≡ two_in blocked done ready ∷ two_in ready done ready ∷ two_in done done done ∷ [] }
    ensures done_blocked { (o : Options) → updates (a_full_join giving 1 o) (from_two done blocked) ≡ two_in done done done ∷ two_in done done done ∷ two_in done done done ∷ [] }
    ensures done_ready { (o : Options) → updates (a_full_join giving 1 o) (from_two done ready) ≡ two_in done done done ∷ two_in done done done ∷ two_in done done done ∷ [] }
    ensures done_done { (o : Options) → updates (a_full_join giving 1 o) (from_two done done) ≡ two_in done done done ∷ two_in done done done ∷ two_in done done done ∷ [] }
{}

/// Then it stays so.
pub fn a_join_is_spent()
    ensures blocked_blocked { (o : Options) → updates (an_inner_join spent o) (from_two blocked blocked) ≡ two_in done done done ∷ two_in done done done ∷ two_in done done done ∷ [] }
    ensures blocked_ready { (o : Options) → updates (an_inner_join spent o) (from_two blocked ready) ≡ two_in done done done ∷ two_in done done done ∷ two_in done done done ∷ [] }
    ensures blocked_done { (o : Options) → updates (an_inner_join spent o) (from_two blocked done) ≡ two_in done done done ∷ two_in done done done ∷ two_in done done done ∷ [] }
    ensures ready_blocked { (o : Options) → updates (an_inner_join spent o) (from_two ready blocked) ≡ two_in done done done ∷ two_in done done done ∷ two_in done done done ∷ [] }
    ensures ready_ready { (o : Options) → updates (an_inner_join spent o) (from_two ready ready) ≡ two_in done done done ∷ two_in done done done ∷ two_in done done done ∷ [] }
    ensures ready_done { (o : Options) → updates (an_inner_join spent o) (from_two ready done) ≡ two_in done done done ∷ two_in done done done ∷ two_in done done done ∷ [] }
    ensures done_blocked { (o : Options) → updates (an_inner_join spent o) (from_two done blocked) ≡ two_in done done done ∷ two_in done done done ∷ two_in done done done ∷ [] }
    ensures done_ready { (o : Options) → updates (an_inner_join spent o) (from_two done ready) ≡ two_in done done done ∷ two_in done done done ∷ two_in done done done ∷ [] }
    ensures done_done { (o : Options) → updates (an_inner_join spent o) (from_two done done) ≡ two_in done done done ∷ two_in done done done ∷ two_in done done done ∷ [] }
{}

/// An in-memory join takes both inputs, each until it is done.
pub fn an_in_memory_join_takes()
    ensures blocked_blocked { (o : Options) → updates (an_in_memory_join taking o) (from_two blocked blocked) ≡ two_in ready ready blocked ∷ two_in ready ready blocked ∷ two_in done done done ∷ [] }
    ensures blocked_ready { (o : Options) → updates (an_in_memory_join taking o) (from_two blocked ready) ≡ two_in ready ready blocked ∷ two_in ready ready blocked ∷ two_in done done done ∷ [] }
    ensures blocked_done { (o : Options) → updates (an_in_memory_join taking o) (from_two blocked done) ≡ two_in ready done blocked ∷ two_in ready done blocked ∷ two_in done done done ∷ [] }
    ensures ready_blocked { (o : Options) → updates (an_in_memory_join taking o) (from_two ready blocked) ≡ two_in ready ready blocked ∷ two_in ready ready blocked ∷ two_in done done done ∷ [] }
    ensures ready_ready { (o : Options) → updates (an_in_memory_join taking o) (from_two ready ready) ≡ two_in ready ready blocked ∷ two_in ready ready blocked ∷ two_in done done done ∷ [] }
    ensures ready_done { (o : Options) → updates (an_in_memory_join taking o) (from_two ready done) ≡ two_in ready done blocked ∷ two_in ready done blocked ∷ two_in done done done ∷ [] }
    ensures done_blocked { (o : Options) → updates (an_in_memory_join taking o) (from_two done blocked) ≡ two_in done ready blocked ∷ two_in done ready blocked ∷ two_in done done done ∷ [] }
    ensures done_ready { (o : Options) → updates (an_in_memory_join taking o) (from_two done ready) ≡ two_in done ready blocked ∷ two_in done ready blocked ∷ two_in done done done ∷ [] }
    ensures done_done { (o : Options) → updates (an_in_memory_join taking o) (from_two done done) ≡ two_in done done ready ∷ two_in done done ready ∷ two_in done done done ∷ [] }
{}
