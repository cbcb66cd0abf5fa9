//! How a source, and what acts as one, cuts its rows into morsels: into a multiple of the workers' number, so that no
//! morsel has many more rows than the options ask for.
ghost use Rattle.std.specs.Prelude.{◌≡◌, ◌+◌, ◌≤◌, ◌*◌, ◌<◌, ℕ, List, length, min, map};
ghost use Rattle.ps_frame.specs.Aggregates.{max_rows};
ghost use Rattle.ps_frame.specs.Tables.{Row};
ghost use Rattle.ps_turns.specs.Cuts.{cuts_of, is_exhausted, morsel_size, round_up};

use ps_options::options::Options;

/// The least multiple of a number that isn't below another one.
fn rounded_up(n: usize, unit: usize) -> usize
    requires some { 1 ≤ unit }
    requires few { unit ≤ 256 }
    requires counted { n ≤ max_rows }
    ensures rounded { result ≡ round_up n unit }
    ensures counted { result ≤ n + 255 }
    ensures above { n ≤ result }
{
    n.div_ceil(unit) * unit
}

/// Into how many morsels so many rows are cut.
fn cuts(options: &Options, rows: usize) -> usize
    requires counted { rows ≤ max_rows }
    ensures cuts { result ≡ cuts_of options.now rows }
    ensures counted { result ≤ max_rows + 255 }
    ensures some { 1 ≤ result }
{
    let most = (rows / options.morsel_rows()).max(1);
    rounded_up(most, options.workers())
}

/// How many rows a morsel of so many rows has, but for the last one: one at least.
pub fn rows_per_morsel(options: &Options, rows: usize) -> usize
    requires counted { rows ≤ max_rows }
    ensures { result ≡ morsel_size options.now rows }
{
    rows.div_ceil(cuts(options, rows)).max(1)
}

/// Whether a source of so many rows has given all of them once it gave so many morsels. It gives one even of no rows.
pub fn gave_all(options: &Options, rows: usize, sent: usize) -> bool
    requires counted { rows ≤ max_rows }
    ensures { (rs : List Row) → length rs ≡ rows → result ≡ is_exhausted options.now rs sent }
{
    sent > 0 && rows <= sent.saturating_mul(rows_per_morsel(options, rows))
}
