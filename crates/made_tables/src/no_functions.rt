//! An update has none of the functions at hand that the caller handed in.
use ps_frame::frame::DataFrame;
use ps_frame::functions::{CallError, Functions};
use ps_frame::schema::Schema;
use std::alloc::Global;

/// Functions none of which answers anything: as many as the count says. With the count 0 there is none.
#[derive(Clone, Copy, Debug)]
pub struct NoFunctions {
    // A count, and not a type without functions: a method that nobody could call would meet any contract.
    pub(crate) count: usize,
}

impl Functions for NoFunctions {
    ghost use Rattle.std.specs.Prelude.{refl};
    ghost use Rattle.bare_nodes.specs.Uncalled.{unanswered};
    ghost use Rattle.made_tables.specs.Uncalling.{none_lawful};

    ghost told = { λ functions. unanswered functions.count };

    fn count(&self) -> usize {
        self.count
    }

    fn streamable(&self, _n: usize) -> bool {
        false
    }

    fn schema(&self, _alloc: Global, _n: usize, _given: &Schema) -> Result<Schema, CallError> {
        Err(CallError::Fault)
    }

    fn call(&self, _alloc: Global, _n: usize, _df: DataFrame) -> Result<DataFrame, CallError> {
        Err(CallError::Fault)
    }

    ghost lawful = { λ functions. none_lawful functions.count };

    ghost fixed = { λ _ _. record { streams = refl; answer = refl; declared = refl } };
}
