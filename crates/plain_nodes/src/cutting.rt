//! How a node that gives a table of its own cuts it into morsels.
ghost use Rattle.plain_nodes.specs.Cutting.{IsCutFor, IsFirstCut};

use ps_options::options::Options;

/// One worker, and 100,000 rows a morsel: how a table is cut before its node is told otherwise.
pub(crate) fn first_options() -> Options
    ensures { IsFirstCut result }
{
    match Options::new(1, 100_000, 1, 0) {
        Some(options) => options,
        // each of these numbers is in its range
        None => unreachable!(),
    }
}

/// How a table is cut for so many workers. Options that can't have so many stay as they were.
pub(crate) fn for_workers(options: &Options, workers: usize) -> Options
    ensures { IsCutFor workers options.now result }
{
    match Options::new(
        workers,
        options.morsel_rows(),
        options.partitions(),
        options.seed(),
    ) {
        Some(options) => options,
        None => *options,
    }
}
