//! Laws of lowering, as theorems of functions that do nothing.
ghost use Rattle.ps_shares.specs.Ends.{ChoicesRestrict, InputsShare, KindsFound, KindsGoBack, LeavesShow, NamesFound, NewCausesJoin, SelectsKeep, SelectsKeepCauses, SelectsShare, ShownKeep, StreamsKeep, ZipsShowCauses};
ghost use Rattle.ps_shares.specs.Leaves.{GoByLeaves, PutsBack, ReadsColumns, ReadsTheSame, StayWithinByLeaves};
ghost use Rattle.ps_shares.specs.CallLaws.{AggregatesShow, CallsAdd, CallsKeepCauses, CallsKeepRows, CausesByLeaves, FiltersShow, MembersDecide, NamesShow, ReadsProjected, ShapeShows, SortBysShow, SortsShow, StandForAsked};
ghost use Rattle.ps_shares.specs.Shares.{ColumnsShowAll, InputsShow, SelectsShow, ShowsLess, ZipsReach, ZipsShow};

/// An elementwise expression goes by what stands at its leaves: the operators in it are one zip of these.
pub fn expressions_go_by_leaves()
    ensures { GoByLeaves }
{}

/// Over a table an elementwise expression is what it is over the columns that the fresh names in it stand for.
pub fn fresh_names_stand_for_expressions()
    ensures back { PutsBack }
    ensures columns { ReadsColumns }
{}

/// Expressions over leaves that are within others are within the same expressions over those.
pub fn expressions_stay_within()
    ensures { StayWithinByLeaves }
{}

/// A table shows its columns, a select those of its expressions, and a zip what its inputs show.
pub fn tables_show_columns()
    ensures inputs { InputsShow }
    ensures selects { SelectsShow }
    ensures zips { ZipsShow }
    ensures less { ShowsLess }
{}

/// Tables that show all of their columns, as the zip of columns does, have a zip that reaches as far as that of all their columns.
pub fn zips_reach_as_far()
    ensures columns { ColumnsShowAll }
    ensures zips { ZipsReach }
{}

/// Only which extents occur decides how long a zip is, and whether it ends early.
pub fn members_decide()
    ensures { MembersDecide }
{}

/// The columns of a table that shows columns are within these, name by name.
pub fn names_show_columns()
    ensures { NamesShow }
{}

/// The rows of a call: expressions over a zip of tables are within what they stand for over the input.
pub fn calls_keep_rows()
    ensures { CallsKeepRows }
{}

/// A reduce of a column that is within another shows the aggregate of that.
pub fn aggregates_show()
    ensures { AggregatesShow }
{}

/// Lengths that can't agree show, whichever operator meets them.
pub fn misfits_show()
    ensures { ShapeShows }
{}

/// Over tables of one height that are broken alike, an expression has one column where what it reads is the same.
pub fn agreeing_tables()
    ensures { ReadsTheSame }
{}

/// Over a table whose columns are within others, expressions show no other causes than over those: what the operators in them made of the others shows too.
pub fn no_other_causes()
    ensures { CausesByLeaves }
{}

/// The causes of a call: over a zip of tables that shows no others, expressions show none but those of what they stand for over the input.
pub fn calls_keep_causes()
    ensures { CallsKeepCauses }
{}

/// Over fewer columns of a table an expression has the column that it has over the table, where those that it reads are kept.
pub fn projections_keep_columns()
    ensures { ReadsProjected }
{}

/// A sort, or a filter, of a select shows the sort, or the filter, of its expressions.
pub fn steps_show()
    ensures sorts { SortsShow }
    ensures filters { FiltersShow }
{}

/// What a call answers is elementwise, and with what its fresh names stand for put back it is what was asked.
pub fn names_stand_for_asked()
    ensures { StandForAsked }
{}

/// A call only adds: nodes that read earlier ones, and names.
pub fn calls_only_add()
    ensures { CallsAdd }
{}

/// A sort by keys of a select, of which the values alone are kept, shows the values sorted by the keys.
pub fn key_sorts_show()
    ensures { SortBysShow }
{}

/// Nodes that are added leave the tables of those before them, and the causes of both parts are those of all.
pub fn added_nodes_leave_others()
    ensures choices { ChoicesRestrict }
    ensures causes { NewCausesJoin }
{}

/// A name that is read is found at the column that it is known by, and what it is known by shows its causes and its kind in the expression.
pub fn read_names_show()
    ensures found { NamesFound }
    ensures leaves { LeavesShow }
    ensures kinds { KindsFound }
    ensures back { KindsGoBack }
{}

/// The end of a call: over any table that shows columns, expressions are within what they are over these.
pub fn shown_columns_keep()
    ensures { ShownKeep }
{}

/// A select of expressions that are within others is within the select of these, and shows no other causes.
pub fn selects_keep_answers()
    ensures rows { SelectsKeep }
    ensures causes { SelectsKeepCauses }
{}

/// A zip of tables has no other causes than expressions over the columns that they show.
pub fn zips_show_causes()
    ensures { ZipsShowCauses }
{}

/// Expressions over the one stream that is made of several are within what they are over the columns that all of these show.
pub fn streams_keep()
    ensures { StreamsKeep }
{}

/// A table shows its columns, and what a select makes of it shows its expressions, each under its name.
pub fn selects_share()
    ensures selects { SelectsShare }
    ensures inputs { InputsShare }
{}
