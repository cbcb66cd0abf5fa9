//! A table that a node made of its input, and gives as a source gives its own.
ghost use Rattle.std.specs.Prelude.{◌≡◌, ◌+◌, ◌<◌, ◌^◌, None};
ghost use Rattle.plain_nodes.specs.Cutting.{IsCutFor, IsFirstCut};
ghost use Rattle.plain_nodes.specs.Kept.{rows_made};
ghost use Rattle.ps_turns.specs.Updates.{exhausted_rows};

use crate::cutting::{first_options, for_workers};
use node_states::cuts;
use ps_frame::frame::DataFrame;
use ps_options::options::Options;

/// The table, once it was made; how it is cut, and how many of its morsels were claimed.
#[derive(Drop)]
pub struct MadeTable {
    pub table: Option<DataFrame>,
    pub options: Options,
    pub sent: usize,
}

impl MadeTable {
    /// None was made yet.
    pub fn new() -> MadeTable
        ensures table { result.table ≡ None }
        ensures sent { result.sent ≡ 0 }
        ensures cut { IsFirstCut result.options }
    {
        MadeTable {
            table: None,
            options: first_options(),
            sent: 0,
        }
    }

    /// Whether one was made, and all of its rows were given.
    pub fn gave_all(&self) -> bool
        ensures { result ≡ exhausted_rows self.now.options self.now.sent (rows_made self.now.table) }
    {
        match &self.table {
            Some(table) => cuts::gave_all(&self.options, table.height(), self.sent),
            None => false,
        }
    }

    /// One morsel more is claimed.
    pub fn claim(&mut self)
        requires { self.old.sent + 1 < 2 ^ 64 }
        ensures { self.new ≡ record self.old { sent = self.old.sent + 1 } }
    {
        self.sent += 1;
    }

    /// It is cut for so many workers from now on, if options may have so many.
    pub fn cut_for(&mut self, workers: usize)
        ensures cut { IsCutFor workers self.old.options self.new.options }
        ensures others { self.new ≡ record self.old { options = self.new.options } }
    {
        self.options = for_workers(&self.options, workers);
    }
}
