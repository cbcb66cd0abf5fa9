// The answer of a function that was handed in.
ghost use Rattle.std.specs.Prelude.{◌≡◌, ◌<◌, ◌∷◌, [], IfErr, IfOk, IsSome};
ghost use Rattle.ps_meaning.specs.Nodes.{GivesFrame, MayFault};
ghost use Rattle.ps_meaning.specs.Steps.{user as user_step};

use ps_frame::frame::DataFrame;
use ps_frame::functions::{CallError, Functions};
use ps_frame::refusal::{Compute, PolarsError, PolarsResult};
use pu_base::Node;
use std::alloc::Global;

/// What function n answers, at the node `at`, to a table for whose schema it declares one. A function that may be given
/// its rows in parts is asked once as well.
///
/// Fails where the function gives no answer, and for want of memory.
pub fn user<F: Functions>(
    alloc: Global,
    at: Node,
    functions: &F,
    n: usize,
    df: DataFrame,
) -> PolarsResult<DataFrame>
    requires counted { n < (F.told functions.now).count }
    requires declared { IsSome ((F.told functions.now).declared n df.schema) }
    ensures table { IfOk result (λ f. GivesFrame (F.told functions.now) at.0 (user_step n) (df ∷ []) f) }
    ensures fault { IfErr result (λ e. MayFault (F.told functions.now) at.0 (user_step n) (df ∷ []) e) }
{
    match functions.call(alloc, n, df) {
        Ok(table) => Ok(table),
        Err(CallError::Fault) => Err(PolarsError::ComputeError {
            node: at,
            why: Compute::Function,
        }),
        Err(CallError::OutOfMemory) => Err(PolarsError::OutOfMemory),
    }
}
