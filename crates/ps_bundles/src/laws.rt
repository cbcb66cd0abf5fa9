//! Laws of bundles, as theorems of functions that do nothing.
ghost use Rattle.ps_bundles.specs.Endings.{AggregatesEnd, ExpressionsEnd, FiltersEnd, InputsEnd, SelectsEnd, SortBysEnd, SortsEnd, ZipsEnd};
ghost use Rattle.ps_bundles.specs.Lowers.{ExprsKeep, SelectsKeep};

/// Selects, tables and zips of tables end as the zips of the columns that they show.
pub fn tables_end_as_their_columns()
    ensures inputs { InputsEnd }
    ensures selects { SelectsEnd }
    ensures zips { ZipsEnd }
{}

/// Over a table that ends as the zip of columns, elementwise expressions end as over these columns.
pub fn expressions_end_as_over_columns()
    ensures { ExpressionsEnd }
{}

/// Sorts, filters and aggregates of what ends as expressions end as the sorts, filters and aggregates of these.
pub fn steps_end_as_expressions()
    ensures sorts { SortsEnd }
    ensures filters { FiltersEnd }
    ensures key_sorts { SortBysEnd }
    ensures aggregates { AggregatesEnd }
{}

/// The answered expressions of a call over its stream end as what was asked over the input, and no new node shows another cause. So does the stream of a select.
pub fn calls_keep_what_was_asked()
    ensures exprs { ExprsKeep }
    ensures selects { SelectsKeep }
{}
