//! Worked examples, as theorems of functions that do nothing.
ghost use Rattle.std.specs.Prelude.{◌≡◌, ◌∷◌, [], false, true, List};
ghost use Rattle.ps_frame.specs.Functions.{Functions};
ghost use Rattle.ps_frame.specs.Tables.{Row};
ghost use Rattle.ps_options.specs.declared.options.Options.{Options};
ghost use Rattle.ps_ports.specs.Examples.{sides};
ghost use Rattle.ps_ports.specs.declared.port_state.PortState.TheVariants as port;
ghost use Rattle.ps_turns.specs.Results.{IsMade};
ghost use Rattle.ps_meaning.specs.Cases.{rows_table};
ghost use Rattle.turn_laws.specs.Examples.{a_filled_map, a_map, a_projection, a_schema, a_zip, row, shape_cause, two_inputs};
ghost use Rattle.turn_laws.specs.Updating.{FillsAndUpdates, FindsFault, HasPorts, SeenNode, UpdatesTo, heads_seen, stages_behind};

/// A projection passes the states of its other ends, and can answer nothing else. It has one input, and an update of it is given one state of each side.
pub fn a_projection_passes()
    ensures passes { (F : Functions) (o : Options) → UpdatesTo F o a_projection (sides port.Ready port.Blocked) a_projection (sides port.Blocked port.Ready) }
    ensures nothing_else { (F : Functions) (o : Options) (b : SeenNode) → ¬ UpdatesTo F o a_projection (sides port.Ready port.Blocked) b (sides port.Ready port.Ready) }
    ensures one_input { ¬ HasPorts a_projection (two_inputs port.Ready port.Ready port.Ready) }
{}

/// Two inputs that are done: one row of the second broadcasts, three rows of it differ from the two of the first, which is a fault. While one input isn't done they don't.
pub fn a_zip_sees_its_heads()
    ensures broadcasts { heads_seen (a_zip (row 3 ∷ [])) (two_inputs port.Done port.Done port.Ready) ≡ record { rest = row 1 ∷ row 2 ∷ []; broadcasts = false; is_known = true; input_done = true } ∷ record { rest = row 3 ∷ []; broadcasts = true; is_known = true; input_done = true } ∷ [] }
    ensures differs { (F : Functions) (o : Options) → FindsFault F o (a_zip (row 3 ∷ row 4 ∷ row 5 ∷ [])) (two_inputs port.Done port.Done port.Ready) shape_cause }
    ensures not_yet { (F : Functions) (o : Options) → ¬ FindsFault F o (a_zip (row 3 ∷ row 4 ∷ row 5 ∷ [])) (two_inputs port.Done port.Ready port.Ready) shape_cause }
{}

/// A map of a handed-in function, whose input is done: filled with its table it gives, and has one stage behind it. Without, it goes on taking.
pub fn a_map_is_filled()
    ensures filled { (F : Functions) (o : Options) (rs : List Row) → IsMade F a_map.node (rows_table a_schema (row 1 ∷ []) ∷ []) rs → FillsAndUpdates F o a_map (sides port.Done port.Ready) (a_filled_map rs) (sides port.Done port.Ready) }
    ensures stages { (stages_behind a_map ≡ 0) × ((rs : List Row) → stages_behind (a_filled_map rs) ≡ 1) }
    ensures waits { (F : Functions) (o : Options) → UpdatesTo F o a_map (sides port.Done port.Ready) a_map (sides port.Done port.Blocked) }
{}
