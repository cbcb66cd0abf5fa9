//! What becomes of a column's values.

/// What a reduce or a group-by makes of the values of a column: the least, the greatest, the first, the last, their sum,
/// or how many rows there are.
#[derive(Clone, Copy, Debug, PartialEq, Eq)]
pub enum Reduction {
    Min,
    Max,
    First,
    Last,
    Sum,
    Len,
}
