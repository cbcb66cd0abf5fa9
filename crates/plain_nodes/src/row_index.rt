//! The row index.
ghost use Rattle.std.specs.Prelude.{◌≡◌, ◌+◌, ◌<◌, ◌^◌};
ghost use Rattle.ps_meaning.specs.Shape.{with_row_index};
ghost use Rattle.plain_nodes.specs.Seen.{IsNew};
ghost use Rattle.plain_nodes.specs.Plain as plain;

use pu_base::PlSmallStr;

/// Puts the numbers of rows in front of its input.
#[derive(Drop)]
pub struct WithRowIndexNode {
    pub(crate) name: PlSmallStr,
    pub(crate) offset: Option<u32>,
    pub(crate) booked: usize,
}

impl WithRowIndexNode {
    /// The row index of this name, from the offset on, and from 0 where none is given.
    pub fn new(name: PlSmallStr, offset: Option<u32>) -> WithRowIndexNode
        ensures { IsNew (with_row_index name offset) (plain.with_row_index result) }
    {
        WithRowIndexNode {
            name,
            offset,
            booked: 0,
        }
    }

    /// The name of its column of numbers.
    pub fn name(&self) -> &PlSmallStr
        ensures { result.now ≡ self.now.name }
    {
        &self.name
    }

    /// The number of the first row, where one is given.
    pub fn offset(&self) -> Option<u32>
        ensures { result ≡ self.now.offset }
    {
        self.offset
    }

    /// How many rows were claimed.
    pub fn booked(&self) -> usize
        ensures { result ≡ self.now.booked }
    {
        self.booked
    }

    /// So many rows more are claimed.
    pub fn book(&mut self, rows: usize)
        requires { self.old.booked + rows < 2 ^ 64 }
        ensures { self.new ≡ record self.old { booked = self.old.booked + rows } }
    {
        self.booked += rows;
    }
}
