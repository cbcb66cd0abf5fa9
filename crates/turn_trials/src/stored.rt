//! Slices from the end to which tables of their input came.
ghost use Rattle.std.specs.Prelude.{◌≡◌};

use plain_nodes::negative_slice::NegativeSliceNode;
use ps_frame::frame::DataFrame;
use ps_options::options::Options;
use std::alloc::Global;
use std::test::Fail;

/// A slice of which nothing was claimed, and how many rows came to it.
#[derive(Drop)]
pub struct Stored {
    slice: NegativeSliceNode,
    rows: u64,
    ghost counted: { slice.booked ≡ rows },
    ghost unclaimed: { slice.made.sent ≡ 0 },
}

impl Stored {
    /// Of so many rows, from so many before the end on, cut by these options; nothing came yet.
    pub fn new(back: u64, length: usize, options: Options) -> Stored {
        let mut slice = NegativeSliceNode::new(back, length);
        slice.cut_by(options);
        Stored { slice, rows: 0 }
    }

    /// It is told of so many workers.
    pub fn cut_for(self, workers: usize) -> Stored {
        let mut slice = self.slice;
        slice.cut_for(workers);
        Stored {
            slice,
            rows: self.rows,
        }
    }

    /// One table more comes.
    pub fn store(self, alloc: Global, table: DataFrame) -> Result<Stored, Fail> {
        let Some(rows) = self.rows.checked_add(table.height() as u64) else {
            return Err(Fail::from("too many rows for a test"));
        };
        let mut slice = self.slice;
        match slice.store(alloc, table) {
            Ok(()) => Ok(Stored { slice, rows }),
            Err(error) => Err(Fail::from(error)),
        }
    }

    /// The same table so many times.
    pub fn store_many(self, alloc: Global, table: &DataFrame, times: u32) -> Result<Stored, Fail> {
        let mut stored = self;
        for _ in 0..times {
            stored = stored.store(alloc, table.share(alloc)?)?;
        }
        Ok(stored)
    }

    /// One table more is refused, for this reason.
    pub fn refuses(self, alloc: Global, table: &DataFrame, wanted: &str) -> Result<Stored, Fail> {
        let table = table.share(alloc)?;
        let rows = self.rows;
        let Some(_more) = rows.checked_add(table.height() as u64) else {
            return Err(Fail::from("too many rows for a test"));
        };
        let mut slice = self.slice;
        match slice.store(alloc, table) {
            Err(error) => {
                let reason = format!(in alloc; "{error}")?;
                if reason.as_str() != wanted {
                    return Err(Fail::from(error));
                }
                Ok(Stored { slice, rows })
            }
            Ok(()) => Err(Fail::from("no refusal")),
        }
    }

    /// The slice itself.
    pub fn into_slice(self) -> NegativeSliceNode
        ensures { result.made.sent ≡ 0 }
    {
        self.slice
    }
}
