//! The functions of the tests.
use ps_frame::frame::DataFrame;
use ps_frame::functions::{CallError, Functions};
use ps_frame::schema::Schema;
use std::alloc::Global;

/// Function 0 answers the first row of a table; function 1 answers none.
#[derive(Clone, Copy, Debug)]
pub struct FirstRowOrNone;

impl Functions for FirstRowOrNone {
    ghost use Rattle.std.specs.Prelude.{Option, Some, refl};
    ghost use Rattle.map_flow_trials.specs.Answers.{first_row_or_none, lawful_answers};

    ghost told = { λ _. first_row_or_none };

    fn count(&self) -> usize {
        2
    }

    fn streamable(&self, _n: usize) -> bool {
        false
    }

    fn schema(&self, alloc: Global, _n: usize, given: &Schema) -> Result<Schema, CallError> {
        // By hand, since the error is another.
        match given.try_clone(alloc) {
            Ok(schema) => Ok(schema),
            Err(_) => Err(CallError::OutOfMemory),
        }
    }

    fn call(&self, alloc: Global, n: usize, df: DataFrame) -> Result<DataFrame, CallError> {
        if n > 0 {
            return Err(CallError::Fault);
        }
        // By hand, as above.
        match df.slice(alloc, 0, 1) {
            Ok(row) => Ok(row),
            Err(_) => Err(CallError::OutOfMemory),
        }
    }

    ghost lawful = { λ _. lawful_answers };

    ghost fixed = { λ _ _. record { streams = refl; answer = refl; declared = refl } };
}
