//! The table that a map makes of all rows of its input.
ghost use Rattle.std.specs.Prelude.{◌≡◌, ◌∷◌, [], IfErr, IfOk, false};
ghost use Rattle.bare_nodes.specs.Bare.{bare_node};
ghost use Rattle.made_tables.specs.Made.{MayBreak};
ghost use Rattle.bare_nodes.specs.Uncalled.{no_functions};
ghost use Rattle.ps_frame.specs.Tables.{Fields, whole};
ghost use Rattle.ps_meaning.specs.Shape.{in_memory_map};
ghost use Rattle.ready_steps.specs.Ready.{IsReady, IsReadyFor};
ghost use Rattle.ps_owned_maps.specs.Owned.{is_function, step_of};
ghost use Rattle.ps_turns.specs.Results.{IsMade};

use crate::no_functions::NoFunctions;
use ps_frame::frame::DataFrame;
use ps_frame::functions::Functions;
use ps_frame::refusal::PolarsResult;
use ps_owned_maps::owned::OwnedMap;
use pu_base::Node;
use std::alloc::Global;

/// What the map gives over a table for which it is fit.
///
/// Fails, at no node in particular, by a fault that breaks it there, by `Rows` where a column has too many rows, or for
/// want of memory.
pub fn mapped<F: Functions>(
    alloc: Global,
    map: &OwnedMap,
    functions: &F,
    input: DataFrame,
) -> PolarsResult<DataFrame>
    requires fit { (s : Fields) × IsReadyFor (F.told functions.now) (step_of map.now) (input ∷ []) s }
    ensures table { IfOk result (λ f. IsMade (F.told functions.now) (bare_node (in_memory_map (step_of map.now)) []) (whole input ∷ []) f.rows) }
    ensures fault { IfErr result (λ e. MayBreak (F.told functions.now) (bare_node (in_memory_map (step_of map.now)) []) (whole input ∷ []) e) }
{
    // What is given has few enough rows: its height says so.
    match map.call(alloc, Node::default(), functions, input) {
        Ok(table) => {
            let _height = table.height();
            Ok(table)
        }
        Err(error) => Err(error),
    }
}

/// What a map gives over a table for which it is fit, where it is no function that the caller handed in.
///
/// Fails, at no node in particular, by a fault that breaks it there, by `Rows` where a column has too many rows, or for
/// want of memory.
pub fn mapped_alone(alloc: Global, map: &OwnedMap, input: DataFrame) -> PolarsResult<DataFrame>
    requires alone { is_function (step_of map.now) ≡ false }
    requires fit { (s : Fields) × IsReady (step_of map.now) (input ∷ []) s }
    ensures table { IfOk result (λ f. IsMade no_functions (bare_node (in_memory_map (step_of map.now)) []) (whole input ∷ []) f.rows) }
    ensures fault { IfErr result (λ e. MayBreak no_functions (bare_node (in_memory_map (step_of map.now)) []) (whole input ∷ []) e) }
{
    mapped(alloc, map, &NoFunctions { count: 0 }, input)
}
