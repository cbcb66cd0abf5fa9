//! The journal of a run.
ghost use Rattle.std.specs.Prelude.{◌≡◌, ◌+◌, ◌≤◌, ◌∷◌, ◌++◌, [], Err, OnErr, OnOk};
ghost use Rattle.ps_frame.specs.declared.refusal.PolarsError.{PolarsError};
ghost use Rattle.world_records.specs.Journals.{claims_of};

use crate::records::Record;
use ps_frame::refusal::{PolarsError, PolarsResult};
use std::alloc::Global;
use std::marker::Model;

/// All records of a run so far, in order. Memory is taken before a step, so that a record is never missing for want of it.
#[derive(Drop)]
pub struct Journal {
    records: Vec<Record>,
    // How many of these are claims.
    claims: u64,
}

impl Model for Journal {
    ghost use Rattle.std.specs.Prelude.{◌≡◌, ◌-◌, vec_len, vec_capacity};
    ghost use Rattle.world_records.specs.Journals.{Written, claims_of};

    ghost Value = { Written };

    ghost view = { λ j. record { records = j.records.items; spare = vec_capacity j.records - vec_len j.records } };

    ghost invariant = { λ j. j.claims ≡ claims_of j.records.items };
}

impl Journal {
    /// A journal without records. It takes no memory.
    pub fn new(alloc: Global) -> Journal
        ensures { result.records ≡ [] }
    {
        Journal {
            records: Vec::new(alloc),
            claims: 0,
        }
    }

    /// Takes memory for so many more records.
    ///
    /// Fails only for want of memory; all is then as before.
    pub fn reserve(&mut self, records: usize) -> PolarsResult<()>
        ensures same { self.new.records ≡ self.old.records }
        ensures spare { OnOk result (records ≤ self.new.spare) }
        ensures kept { self.old.spare ≤ self.new.spare }
        ensures memory { OnErr result ((self.new ≡ self.old) × (result ≡ Err PolarsError.OutOfMemory)) }
    {
        let Ok(()) = self.records.reserve(records) else {
            return Err(PolarsError::OutOfMemory);
        };
        Ok(())
    }

    /// Puts a record last, for which memory was taken.
    pub fn append(&mut self, step: Record)
        requires { 1 ≤ self.old.spare }
        ensures records { self.new.records ≡ self.old.records ++ step ∷ [] }
        ensures spare { self.new.spare + 1 ≡ self.old.spare }
    {
        if step.is_claim() {
            self.claims += 1;
        }
        self.records.push_reserved(step);
    }

    /// The records, in order.
    pub fn records(&self) -> &[Record]
        ensures { result.now ≡ self.now.records }
    {
        self.records.as_slice()
    }

    /// How many claims there are among them.
    pub fn claims(&self) -> u64
        ensures { result ≡ claims_of self.now.records }
    {
        self.claims
    }
}
