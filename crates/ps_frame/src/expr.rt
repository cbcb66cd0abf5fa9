// Expressions as entries of an arena.
use crate::items::Items;
use crate::value::DataType;
use pu_base::{Node, PlSmallStr};

/// A value that an expression states. A null is of a kind too.
#[derive(Drop)]
pub enum LiteralValue {
    Null(DataType),
    Boolean(bool),
    Int64(i64),
    IdxSize(u32),
    String(PlSmallStr),
}

/// What is done with two operands: comparisons, arithmetic that wraps, division that rounds down with its remainder, and
/// logic of three values.
#[derive(Clone, Copy, Debug, PartialEq, Eq)]
pub enum Operator {
    Eq,
    NotEq,
    Lt,
    LtEq,
    Gt,
    GtEq,
    Plus,
    Minus,
    Multiply,
    FloorDivide,
    Modulus,
    And,
    Or,
}

/// One cell from a column. A count also counts nulls where its flag says so.
#[derive(Clone, Copy, Debug)]
pub enum IRAggExpr {
    Min(Node),
    Max(Node),
    First(Node),
    Last(Node),
    Sum(Node),
    NUnique(Node),
    Count(Node, bool),
}

/// What is done with a column by itself.
#[derive(Clone, Copy, Debug, PartialEq, Eq)]
pub enum FunctionExpr {
    Not,
    IsNull,
    IsNotNull,
    Reverse,
}

/// What isn't supported: by structure, and then by kinds that are left out.
#[derive(Clone, Copy, Debug, PartialEq, Eq)]
pub enum What {
    Validation,
    NoColumns,
    LiteralAggregate,
    RootNotSink,
    FileSink,
    Alias,
    Explode,
    Implode,
    AggGroups,
    Window,
    AnonymousFunction,
    SeriesLiteral,
    FloatLiteral,
    Mean,
    Var,
    Std,
    Median,
    Quantile,
    TrueDivide,
    Scan,
    PythonScan,
    ExtContext,
    Invalid,
    MergeSorted,
    OtherFunction,
    AsOfJoin,
    InequalityJoin,
    GroupByApply,
    DynamicGroupBy,
    RollingGroupBy,
}

impl What {
    ghost use Rattle.std.specs.Prelude.{◌≡◌};
    ghost use Rattle.ps_frame.specs.Lines.{what_name};

    /// The variant's name.
    pub fn name(self) -> &'static str
        ensures { result.now ≡ what_name self }
    {
        match self {
            What::Validation => "Validation",
            What::NoColumns => "NoColumns",
            What::LiteralAggregate => "LiteralAggregate",
            What::RootNotSink => "RootNotSink",
            What::FileSink => "FileSink",
            What::Alias => "Alias",
            What::Explode => "Explode",
            What::Implode => "Implode",
            What::AggGroups => "AggGroups",
            What::Window => "Window",
            What::AnonymousFunction => "AnonymousFunction",
            What::SeriesLiteral => "SeriesLiteral",
            What::FloatLiteral => "FloatLiteral",
            What::Mean => "Mean",
            What::Var => "Var",
            What::Std => "Std",
            What::Median => "Median",
            What::Quantile => "Quantile",
            What::TrueDivide => "TrueDivide",
            What::Scan => "Scan",
            What::PythonScan => "PythonScan",
            What::ExtContext => "ExtContext",
            What::Invalid => "Invalid",
            What::MergeSorted => "MergeSorted",
            What::OtherFunction => "OtherFunction",
            What::AsOfJoin => "AsOfJoin",
            What::InequalityJoin => "InequalityJoin",
            What::GroupByApply => "GroupByApply",
            What::DynamicGroupBy => "DynamicGroupBy",
            What::RollingGroupBy => "RollingGroupBy",
        }
    }
}

/// An expression. It names those that it stands on by their numbers in the arena.
#[derive(Drop)]
pub enum AExpr {
    Column(PlSmallStr),
    Literal(LiteralValue),
    BinaryExpr {
        left: Node,
        op: Operator,
        right: Node,
    },
    Cast {
        expr: Node,
        dtype: DataType,
        strict: bool,
    },
    Sort {
        expr: Node,
        descending: bool,
        nulls_last: bool,
    },
    SortBy {
        expr: Node,
        by: Items<Node>,
        descending: Items<bool>,
        nulls_last: Items<bool>,
    },
    Gather {
        expr: Node,
        idx: Node,
        returns_scalar: bool,
    },
    Filter {
        input: Node,
        by: Node,
    },
    Agg(IRAggExpr),
    Ternary {
        predicate: Node,
        truthy: Node,
        falsy: Node,
    },
    Function {
        input: Node,
        function: FunctionExpr,
    },
    Slice {
        input: Node,
        offset: Node,
        length: Node,
    },
    Len,
    LeftOut(What),
}

ghost use Rattle.std.specs.Prelude.{◌≡◌, Some};
ghost use Rattle.ps_frame.specs.Trees.{IsComplete, IsExpression, entry_tree, tree_at, tree_size};
ghost use Rattle.ps_frame.specs.Typing.{is_elementwise as is_elementwise_tree};

use pu_base::Arena;

/// The entry of an expression, over the trees of whose numbers its tree stands.
pub fn entry(expr: Node, arena: &Arena<AExpr>) -> &AExpr
    requires { IsExpression arena.now.items expr }
    ensures tree { tree_at arena.now.items expr ≡ entry_tree (tree_at arena.now.items) (Some result.now) }
    ensures complete { IsComplete (entry_tree (tree_at arena.now.items) (Some result.now)) }
    ensures size { tree_size (tree_at arena.now.items expr) ≡ tree_size (entry_tree (tree_at arena.now.items) (Some result.now)) }
{
    arena.get(expr)
}

/// Whether each cell of an expression's answer comes from the cells of its row.
pub fn is_elementwise(expr: Node, arena: &Arena<AExpr>) -> bool
    requires { IsExpression arena.now.items expr }
    ensures { result ≡ is_elementwise_tree (tree_at arena.now.items expr) }
{
    match entry(expr, arena) {
        AExpr::Column(_) => true,
        AExpr::Literal(_) => true,
        AExpr::BinaryExpr { left, op: _, right } => {
            is_elementwise(*left, arena) && is_elementwise(*right, arena)
        }
        AExpr::Cast {
            expr,
            dtype: _,
            strict: _,
        } => is_elementwise(*expr, arena),
        AExpr::Ternary {
            predicate,
            truthy,
            falsy,
        } => {
            is_elementwise(*predicate, arena)
                && is_elementwise(*truthy, arena)
                && is_elementwise(*falsy, arena)
        }
        AExpr::Function { input, function } => {
            *function != FunctionExpr::Reverse && is_elementwise(*input, arena)
        }
        AExpr::Sort { .. }
        | AExpr::SortBy { .. }
        | AExpr::Gather { .. }
        | AExpr::Filter { .. }
        | AExpr::Agg(_)
        | AExpr::Slice { .. }
        | AExpr::Len
        | AExpr::LeftOut(_) => false,
    }
}
