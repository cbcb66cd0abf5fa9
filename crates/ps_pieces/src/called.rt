// The answer of a function that was handed in, to a part of its rows.
ghost use Rattle.std.specs.Prelude.{◌≡◌, ◌<◌, ◌∷◌, [], IfErr, IfOk, IsSome};
ghost use Rattle.ps_meaning.specs.Nodes.{GivesFrame};
ghost use Rattle.ps_meaning.specs.Steps.{user};
ghost use Rattle.ps_pieces.specs.Computed.{MayFail};

use ps_frame::frame::DataFrame;
use ps_frame::functions::{CallError, Functions};
use ps_frame::refusal::{Compute, PolarsError, PolarsResult};
use pu_base::Node;
use std::alloc::Global;

/// What function n answers, at the node `at`, to a table for whose schema it declares one.
///
/// Fails where the function gives no answer, and for want of memory. It never fails by `Rows`: a table that a function
/// answers has few enough.
pub(crate) fn called<F: Functions>(
    alloc: Global,
    at: Node,
    functions: &F,
    n: usize,
    table: &DataFrame,
) -> PolarsResult<DataFrame>
    requires counted { n < (F.told functions.now).count }
    requires declared { IsSome ((F.told functions.now).declared n table.now.schema) }
    ensures table { IfOk result (λ f. GivesFrame (F.told functions.now) at.0 (user n) (table.now ∷ []) f) }
    ensures fault { IfErr result (λ e. MayFail (F.told functions.now) at.0 (user n) table.now e) }
{
    let Ok(given) = table.share(alloc) else {
        return Err(PolarsError::OutOfMemory);
    };
    match functions.call(alloc, n, given) {
        Ok(answer) => Ok(answer),
        Err(CallError::Fault) => Err(PolarsError::ComputeError {
            node: at,
            why: Compute::Function,
        }),
        Err(CallError::OutOfMemory) => Err(PolarsError::OutOfMemory),
    }
}
