// The schema of a user's function over a table.
ghost use Rattle.std.specs.Prelude.{◌≡◌, ◌<◌, ◌∷◌, IfErr, IfOk, OnOk, Some, []};
ghost use Rattle.ps_meaning.specs.Steps.{user as user_step};
ghost use Rattle.ps_validate.specs.Nodes.{GivesSchema, IsNodeError};

use crate::columns::some_columns;
use ps_frame::functions::{CallError, Functions};
use ps_frame::refusal::{PolarsError, PolarsResult};
use ps_frame::schema::Schema;
use pu_base::Node;
use std::alloc::Global;

/// The schema of a function: the one that it declares. The function isn't called.
pub fn function_schema<F: Functions>(
    alloc: Global,
    at: Node,
    n: usize,
    functions: &F,
    input: &Schema,
) -> PolarsResult<Schema>
    requires { n < (F.told functions.now).count }
    ensures given { IfOk result (λ s. GivesSchema (F.told functions.now) (user_step n) (input.now ∷ []) s) }
    ensures refused { IfErr result (λ e. IsNodeError (F.told functions.now) at (user_step n) (input.now ∷ []) e) }
{
    match functions.schema(alloc, n, input) {
        Ok(schema) => {
            // A law: no name stands twice in it, so no rule on names refuses the step.
            schema.names_differ();
            some_columns(at, schema)
        }
        Err(CallError::Fault) => Err(PolarsError::SchemaMismatch { node: at }),
        Err(CallError::OutOfMemory) => Err(PolarsError::OutOfMemory),
    }
}
