//! The source of a table in memory.
ghost use Rattle.std.specs.Prelude.{◌≡◌, ◌+◌, ◌<◌, ◌^◌, [], length};
ghost use Rattle.node_states.specs.Views.{sides_of};
ghost use Rattle.ps_meaning.specs.Shape.{in_memory_source};
ghost use Rattle.plain_nodes.specs.Cutting.{IsCutFor, IsFirstCut};
ghost use Rattle.plain_nodes.specs.Seen.{IsNew, Updates};
ghost use Rattle.plain_nodes.specs.Plain as plain;

use crate::cutting::{first_options, for_workers};
use crate::sequence::MorselSeq;
use node_states::{cuts, source};
use ps_frame::frame::DataFrame;
use ps_options::options::Options;
use ps_ports::port_state::PortState;

/// Gives the rows of a table, cut into morsels by the options of its query.
#[derive(Drop)]
pub struct InMemorySourceNode {
    pub(crate) source: DataFrame,
    pub(crate) seq_offset: MorselSeq,
    pub(crate) options: Options,
    pub(crate) sent: usize,
}

impl InMemorySourceNode {
    /// The source of this table, whose morsels are numbered from this number on.
    pub fn new(source: DataFrame, seq_offset: MorselSeq) -> InMemorySourceNode
        ensures new { IsNew (in_memory_source source) (plain.in_memory_source result) }
        ensures seq_offset { result.seq_offset ≡ seq_offset }
        ensures cut { IsFirstCut result.options }
    {
        InMemorySourceNode {
            source,
            seq_offset,
            options: first_options(),
            sent: 0,
        }
    }

    /// The table whose rows it gives.
    pub fn source(&self) -> &DataFrame
        ensures { result.now ≡ self.now.source }
    {
        &self.source
    }

    /// By what its table is cut.
    pub fn options(&self) -> &Options
        ensures { result.now ≡ self.now.options }
    {
        &self.options
    }

    /// How many of its morsels were claimed.
    pub fn sent(&self) -> usize
        ensures { result ≡ self.now.sent }
    {
        self.sent
    }

    /// It is cut by these options from now on.
    pub fn cut_by(&mut self, options: Options)
        ensures { self.new ≡ record self.old { options = options } }
    {
        self.options = options;
    }

    /// It is cut for so many workers from now on, if options may have so many.
    pub fn cut_for(&mut self, workers: usize)
        ensures cut { IsCutFor workers self.old.options self.new.options }
        ensures others { self.new ≡ record self.old { options = self.new.options } }
    {
        self.options = for_workers(&self.options, workers);
    }

    /// One morsel more is claimed.
    pub fn claim(&mut self)
        requires { self.old.sent + 1 < 2 ^ 64 }
        ensures { self.new ≡ record self.old { sent = self.old.sent + 1 } }
    {
        self.sent += 1;
    }

    /// Done once its output is, or all rows were given.
    pub fn update(&self, send: &mut [PortState])
        requires { length send.old ≡ 1 }
        ensures { Updates (plain.in_memory_source self.now) (sides_of [] send.old) (plain.in_memory_source self.now) (sides_of [] send.new) }
    {
        let gave_all = cuts::gave_all(&self.options, self.source.height(), self.sent);
        source::answer(gave_all, send);
    }
}
