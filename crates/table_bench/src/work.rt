// The kinds of work.
use crate::table::mask;
use ps_frame::error::FrameError;
use ps_frame::frame::DataFrame;
use std::alloc::Global;

// How many rows go to one part.
const MORSEL: usize = 100_000;

/// What is done with a table, once it is made.
#[derive(Clone, Copy, Debug, PartialEq, Eq)]
pub enum Work {
    /// Nothing.
    Build,
    /// It is shared.
    Share,
    /// It is cut into parts of 100,000 rows.
    Slice,
    /// Every second row is kept.
    Filter,
    /// Each row is kept.
    FilterAll,
    /// It is put below itself.
    Vstack,
    /// No rows are put below it.
    VstackEmpty,
}

impl Work {
    /// The work of a word, as a caller gives it.
    pub fn of_word(word: &str) -> Option<Work> {
        match word {
            "build" => Some(Work::Build),
            "share" => Some(Work::Share),
            "slice" => Some(Work::Slice),
            "filter" => Some(Work::Filter),
            "filter_all" => Some(Work::FilterAll),
            "vstack" => Some(Work::Vstack),
            "vstack_empty" => Some(Work::VstackEmpty),
            _ => None,
        }
    }
}

// The last of the parts.
fn cut(alloc: Global, df: &DataFrame) -> Result<DataFrame, FrameError> {
    let mut part = df.slice(alloc, 0, MORSEL)?;
    for i in 1..df.height().div_ceil(MORSEL) {
        part = df.slice(alloc, i * MORSEL, MORSEL)?;
    }
    Ok(part)
}

fn filtered(alloc: Global, df: &DataFrame, each: bool) -> Result<DataFrame, FrameError> {
    let mask = mask(alloc, df.height(), each)?;
    df.filter(alloc, &mask)
}

fn once(alloc: Global, work: Work, df: &DataFrame) -> Result<DataFrame, FrameError> {
    match work {
        Work::Build | Work::Share => df.share(alloc),
        Work::Slice => cut(alloc, df),
        Work::Filter => filtered(alloc, df, false),
        Work::FilterAll => filtered(alloc, df, true),
        Work::Vstack => df.vstack(alloc, df),
        Work::VstackEmpty => df.vstack(alloc, &DataFrame::empty_with_schema(alloc, df.schema())?),
    }
}

/// Does the work so many times, and gives the table that came of it last.
pub fn repeat(
    alloc: Global,
    work: Work,
    df: &DataFrame,
    times: u32,
) -> Result<DataFrame, FrameError> {
    let mut last = df.share(alloc)?;
    for _ in 0..times {
        last = once(alloc, work, df)?;
    }
    Ok(last)
}
