// The functions of the tests.
use ps_frame::frame::DataFrame;
use ps_frame::functions::{CallError, Functions};
use ps_frame::schema::Schema;
use std::alloc::Global;

/// Function 0 streams, and answers each table by itself; function 1 answers none.
#[derive(Clone, Copy, Debug)]
pub struct SameOrNone;

impl Functions for SameOrNone {
    ghost use Rattle.std.specs.Prelude.{Option, Some, refl, ◌==◌};
    ghost use Rattle.run_part_trials.specs.Answers.{same_or_none, lawful_answers};

    ghost told = { λ _. same_or_none };

    fn count(&self) -> usize {
        2
    }

    fn streamable(&self, n: usize) -> bool {
        n == 0
    }

    fn schema(&self, alloc: Global, _n: usize, given: &Schema) -> Result<Schema, CallError> {
        // By hand, since the error is another.
        match given.try_clone(alloc) {
            Ok(schema) => Ok(schema),
            Err(_) => Err(CallError::OutOfMemory),
        }
    }

    fn call(&self, _alloc: Global, n: usize, df: DataFrame) -> Result<DataFrame, CallError> {
        if n == 0 {
            Ok(df)
        } else {
            Err(CallError::Fault)
        }
    }

    ghost lawful = { λ _. lawful_answers };

    ghost fixed = { λ _ _. record { streams = refl; answer = refl; declared = refl } };
}
