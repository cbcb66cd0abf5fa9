//! Functions over tables, for trials.

use ps_frame::frame::DataFrame;
use ps_frame::functions::{CallError, Functions};
use ps_frame::schema::Schema;
use std::alloc::Global;

/// Two functions, which answer a table by itself; the first of them streams.
#[derive(Clone, Copy, Debug)]
pub struct TwoSame;

impl Functions for TwoSame {
    ghost use Rattle.std.specs.Prelude.{◌==◌, Option, Some, option_map, refl};
    ghost use Rattle.std.proofs.Common.{ap, subst};
    ghost use Rattle.std.proofs.lemmas.Option.{same_Some};
    ghost use Rattle.ps_frame.specs.Lawful.{FitsFrame};
    ghost use Rattle.ps_frame.specs.Tables.{Frame};

    ghost told = { λ _. record { count = 2; streams = λ n. n == 0; answer = λ n f. Some f; declared = λ n s. Some s } };

    fn count(&self) -> usize {
        2
    }

    fn streamable(&self, n: usize) -> bool {
        n == 0
    }

    fn schema(&self, alloc: Global, _n: usize, given: &Schema) -> Result<Schema, CallError> {
        match given.try_clone(alloc) {
            Ok(schema) => Ok(schema),
            Err(_) => Err(CallError::OutOfMemory),
        }
    }

    fn call(&self, _alloc: Global, _n: usize, df: DataFrame) -> Result<DataFrame, CallError> {
        Ok(df)
    }

    ghost lawful = { λ _. record {
      keeps_schema = λ n f g e. ap (λ (o : Option Frame). option_map (λ (t : Frame). t.schema) o) e;
      keeps_rows = λ n f g fits e. subst (λ (t : Frame). FitsFrame t) (same_Some f g e) fits;
      streams_empty = λ n s streams declared. refl;
      streams_parts = λ n f g streams same. refl;
    } };

    ghost fixed = { λ _ _. record { streams = refl; answer = refl; declared = refl } };
}

/// The same two functions, of which no more is told than their number and whether they stream: there is never memory for
/// the rest. What answers by it has asked for nothing else.
#[derive(Clone, Copy, Debug)]
pub struct StreamsAlone;

impl Functions for StreamsAlone {
    ghost use Rattle.std.specs.Prelude.{◌==◌, Option, Some, option_map, refl};
    ghost use Rattle.std.proofs.Common.{ap, subst};
    ghost use Rattle.std.proofs.lemmas.Option.{same_Some};
    ghost use Rattle.ps_frame.specs.Lawful.{FitsFrame};
    ghost use Rattle.ps_frame.specs.Tables.{Frame};

    ghost told = { λ _. record { count = 2; streams = λ n. n == 0; answer = λ n f. Some f; declared = λ n s. Some s } };

    fn count(&self) -> usize {
        2
    }

    fn streamable(&self, n: usize) -> bool {
        n == 0
    }

    fn schema(&self, _alloc: Global, _n: usize, _given: &Schema) -> Result<Schema, CallError> {
        Err(CallError::OutOfMemory)
    }

    fn call(&self, _alloc: Global, _n: usize, _df: DataFrame) -> Result<DataFrame, CallError> {
        Err(CallError::OutOfMemory)
    }

    ghost lawful = { λ _. record {
      keeps_schema = λ n f g e. ap (λ (o : Option Frame). option_map (λ (t : Frame). t.schema) o) e;
      keeps_rows = λ n f g fits e. subst (λ (t : Frame). FitsFrame t) (same_Some f g e) fits;
      streams_empty = λ n s streams declared. refl;
      streams_parts = λ n f g streams same. refl;
    } };

    ghost fixed = { λ _ _. record { streams = refl; answer = refl; declared = refl } };
}
