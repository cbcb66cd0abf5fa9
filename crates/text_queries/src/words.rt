// The words of the language that stand for functions.

/// What is done with a column by its word: aggregates, and then functions of each cell.
#[derive(Clone, Copy, Debug, PartialEq, Eq)]
pub enum TextFn {
    Min,
    Max,
    First,
    Last,
    Sum,
    NUnique,
    Count,
    Not,
    IsNull,
    IsNotNull,
}
