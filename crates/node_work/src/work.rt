//! What nodes of a run do with morsels.
ghost use Rattle.std.specs.Prelude.{◌≡◌, Err, IfOk, OnErr};
ghost use Rattle.node_work.specs.Working.{table_stored, without_table};
ghost use Rattle.ps_frame.specs.declared.refusal.PolarsError.{PolarsError};

use crate::stored_morsels::StoredMorsels;
use ps_frame::frame::DataFrame;
use ps_frame::refusal::PolarsResult;
use ps_pieces::parameters::Parameters;
use std::alloc::Global;
use std::sync::Arc;

/// What a node does with morsels.
#[derive(Drop)]
pub enum Work {
    /// It hands rows on: a source cuts of its table, a slice what it keeps of its input.
    HandsOn,
    /// A union hands its inputs' morsels on, under numbers of its own, of which it has given so many.
    Unites { sent: u64 },
    /// It computes these parameters over each morsel; a select that reads no input over none.
    Computes(Arc<Parameters>),
    /// A sink stores them.
    Stores(StoredMorsels),
}

impl Work {
    /// Gives the table of the morsels that a sink stored. It then has none, also where the table can't be made; another node
    /// has none.
    ///
    /// Fails only for want of memory.
    pub fn give_table(&mut self, alloc: Global) -> PolarsResult<Option<DataFrame>>
        ensures table { IfOk result (λ table. table ≡ table_stored self.old) }
        ensures memory { OnErr result (result ≡ Err PolarsError.OutOfMemory) }
        ensures given { self.new ≡ without_table self.old }
    {
        match self {
            Work::Stores(stored) => match stored.give(alloc) {
                Ok(table) => Ok(Some(table)),
                Err(error) => Err(error),
            },
            _ => Ok(None),
        }
    }
}
