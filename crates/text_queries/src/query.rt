// Queries of the pipeline language.
use crate::words::TextFn;
use ps_frame::expr::Operator;
use ps_frame::items::Items;
use ps_frame::value::DataType;
use ps_meaning::options::JoinType;
use pu_base::PlSmallStr;

/// An expression: the column of a name, a value, a null of a kind, a function of an expression, the number of rows, or an
/// operator with its two operands.
#[derive(Drop)]
pub enum TextExpr {
    Name(PlSmallStr),
    Int(i64),
    Text(PlSmallStr),
    Bool(bool),
    Null(DataType),
    Call {
        name: TextFn,
        of: Box<TextExpr>,
    },
    Len,
    Binary {
        op: Operator,
        left: Box<TextExpr>,
        right: Box<TextExpr>,
    },
}

/// An expression with the name of its column.
#[derive(Drop)]
pub struct Item {
    pub name: PlSmallStr,
    pub expr: TextExpr,
}

/// An expression to sort by, and whether the greatest comes first.
#[derive(Drop)]
pub struct Key {
    pub expr: TextExpr,
    pub desc: bool,
}

/// What is done with a table.
#[derive(Drop)]
pub enum Stage {
    Filter(TextExpr),
    Select(Items<Item>),
    With(Items<Item>),
    Group {
        keys: Items<Item>,
        aggs: Items<Item>,
    },
    Sort(Items<Key>),
    Slice {
        offset: i64,
        length: u64,
    },
    Distinct,
    Join {
        how: JoinType,
        table: PlSmallStr,
        on: Items<PlSmallStr>,
    },
}

/// A table, by its name, and what is done with it, stage after stage.
#[derive(Drop)]
pub struct Query {
    pub source: PlSmallStr,
    pub stages: Items<Stage>,
}
