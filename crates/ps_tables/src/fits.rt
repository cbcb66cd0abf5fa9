// The values of a table fit its schema: laws for proofs, which go once over the columns.
ghost use Rattle.std.specs.List.{AllByRecursion};
ghost use Rattle.ps_frame.specs.Lawful.{FitsFrame};
ghost use Rattle.ps_tables.specs.Columns.{AllFit};

use ps_frame::column::Column;
use ps_frame::frame::DataFrame;

/// Each row of a table has a value for each field, which is null or of the field's kind.
pub fn table_fits(df: &DataFrame)
    ensures { FitsFrame df.now }
{
    // Its rows are made of its columns, so they fit where these do.
    columns_fit(df.get_columns());
}

/// The same of each of these tables.
pub(crate) fn tables_fit(inputs: &[DataFrame])
    ensures { AllByRecursion FitsFrame inputs.now }
{
    for df in inputs {
        // The law of one table: what holds of each then holds of all.
        table_fits(df);
    }
}

fn columns_fit(columns: &[Column])
    ensures { AllFit columns.now }
{
    for column in columns {
        // The law of one column, which its type keeps.
        column.values_fit();
    }
}
