// The columns of a table that an expression reads.
ghost use Rattle.std.specs.Prelude.{◌≡◌, ◌≢◌, ◌<◌, ◌+◌, ◌++◌, ◌∷◌, [], Bool, ℕ, List, IfOk, IsTrue, OnOk, Some, not, suc, slice_get, true};
ghost use Rattle.std.specs.BTreeSet.{contains};
ghost use Rattle.std.specs.Ordering.{nat_cmp};
ghost use Rattle.expression_reads.specs.Reads.{HasOnlyRead, HasWhatIsRead};
ghost use Rattle.expression_reads.specs.Walks.{AllNamesPass, AreColumnsOf, Walks};
ghost use Rattle.ps_expr_eval.specs.Evaluations.{operands_of};
ghost use Rattle.ps_frame.specs.Frames.{has_name};
ghost use Rattle.ps_frame.specs.Trees.{AreComplete, IsExpression, entry_tree, tree_at, tree_size, trees_of, trees_size};
ghost use Rattle.ps_frame.specs.declared.expr.AExpr.TheVariants as variant;
ghost use Rattle.pu_base.specs.declared.arena.Node.{Node as ANode};

use ps_expr_eval::aggregate::aggregated;
use ps_frame::column::Column;
use ps_frame::expr::AExpr;
use ps_frame::frame::DataFrame;
use ps_frame::schema::Schema;
use pu_base::{Arena, Node, PlSmallStr};
use std::alloc::{AllocError, Global};
use std::collections::BTreeSet;

/// The columns of a table that an expression reads, each once and under its name, as a table of the same height; their
/// values are not copied. An expression that reads no column gives a table without columns.
///
/// Each entry below the expression is looked at once, however often it is read. Fails only for want of memory.
pub fn read_columns(
    alloc: Global,
    expr: Node,
    arena: &Arena<AExpr>,
    df: &DataFrame,
) -> Result<DataFrame, AllocError>
    requires { IsExpression arena.now.items expr }
    ensures read { IfOk result (λ f. HasWhatIsRead df.now f (tree_at arena.now.items expr)) }
    ensures only { IfOk result (λ f. HasOnlyRead f.schema (tree_at arena.now.items expr)) }
{
    let mut found = ReadColumns::new(alloc);
    let mut seen = BTreeSet::new(alloc);
    let mut left = Vec::new(alloc);
    left.push(expr)?;
    while let Some(next) = left.pop() {
        look_at(alloc, next, arena, df, &mut seen, &mut left, &mut found)?;
    }
    let ReadColumns { fields, columns } = found;
    Ok(DataFrame::new_with_height(alloc, fields, columns, df.height()))
}

// The fields and the columns that were found so far.
#[derive(Drop)]
struct ReadColumns {
    fields: Schema,
    columns: Vec<Column>,
}

impl ReadColumns {
    fn new(alloc: Global) -> ReadColumns
        ensures fields { result.fields ≡ [] }
        ensures columns { result.columns.items ≡ [] }
    {
        ReadColumns {
            fields: Schema::new(alloc),
            columns: Vec::new(alloc),
        }
    }
}

// Looks at an entry, unless that was done before: adds the column that it is, and what it takes to what is left.
fn look_at(
    alloc: Global,
    expr: Node,
    arena: &Arena<AExpr>,
    df: &DataFrame,
    seen: &mut BTreeSet<usize>,
    left: &mut Vec<Node>,
    found: &mut ReadColumns,
) -> Result<(), AllocError>
    requires expression { IsExpression arena.now.items expr }
    requires complete { AreComplete (trees_of (tree_at arena.now.items) left.old.items) }
    requires found { AreColumnsOf df.now found.old.fields found.old.columns.items }
    ensures complete { OnOk result (AreComplete (trees_of (tree_at arena.now.items) left.new.items)) }
    ensures smaller { OnOk result (trees_size (trees_of (tree_at arena.now.items) left.new.items) < trees_size (trees_of (tree_at arena.now.items) left.old.items) + tree_size (tree_at arena.now.items expr)) }
    ensures found { OnOk result (AreColumnsOf df.now found.new.fields found.new.columns.items) }
    ensures walks { (start : ANode) → Walks arena.now.items df.now.schema start seen.old (left.old.items ++ expr ∷ []) found.old.fields → OnOk result (Walks arena.now.items df.now.schema start seen.new left.new.items found.new.fields) }
{
    let entry = entry_of(expr, arena);
    let first = see(seen, expr.0)?;
    if !first {
        return Ok(());
    }
    add_column_of(alloc, entry, df, found)?;
    push_operands(entry, left)?;
    Ok(())
}

// Adds the entries that an entry takes to those that are left.
fn push_operands(entry: &AExpr, waiting: &mut Vec<Node>) -> Result<(), AllocError>
    ensures { OnOk result (waiting.new.items ≡ waiting.old.items ++ operands_of entry.now) }
{
    match entry {
        AExpr::Column(_) | AExpr::Literal(_) | AExpr::Len | AExpr::LeftOut(_) => Ok(()),
        AExpr::BinaryExpr { left, right, .. } => push_all(&[*left, *right], waiting),
        AExpr::Cast { expr, .. } => push_all(&[*expr], waiting),
        AExpr::Sort { expr, .. } => push_all(&[*expr], waiting),
        AExpr::SortBy { expr, by, .. } => {
            waiting.push(*expr)?;
            push_all(by.as_slice(), waiting)
        }
        AExpr::Gather { expr, idx, .. } => push_all(&[*expr, *idx], waiting),
        AExpr::Filter { input, by } => push_all(&[*input, *by], waiting),
        AExpr::Agg(aggregate) => push_all(&[aggregated(*aggregate)], waiting),
        AExpr::Ternary {
            predicate,
            truthy,
            falsy,
        } => push_all(&[*predicate, *truthy, *falsy], waiting),
        AExpr::Function { input, .. } => push_all(&[*input], waiting),
        AExpr::Slice {
            input,
            offset,
            length,
        } => push_all(&[*input, *offset, *length], waiting),
    }
}

fn push_all(nodes: &[Node], waiting: &mut Vec<Node>) -> Result<(), AllocError>
    ensures { OnOk result (waiting.new.items ≡ waiting.old.items ++ nodes.now) }
{
    waiting.extend_from_slice(nodes)?;
    Ok(())
}

// The entry of an expression, and what is known of the entries that it takes.
fn entry_of(expr: Node, arena: &Arena<AExpr>) -> &AExpr
    requires { IsExpression arena.now.items expr }
    ensures entry { slice_get arena.now.items expr.0 ≡ Some result.now }
    ensures tree { tree_at arena.now.items expr ≡ entry_tree (tree_at arena.now.items) (Some result.now) }
    ensures complete { AreComplete (trees_of (tree_at arena.now.items) (operands_of result.now)) }
    ensures size { tree_size (tree_at arena.now.items expr) ≡ suc (trees_size (trees_of (tree_at arena.now.items) (operands_of result.now))) }
{
    arena.get(expr)
}

// Notes that an entry was looked at; whether this is the first time.
fn see(seen: &mut BTreeSet<usize>, number: usize) -> Result<bool, AllocError>
    ensures first { IfOk result (λ first. first ≡ not (contains nat_cmp seen.old number)) }
    ensures noted { OnOk result (contains nat_cmp seen.new number ≡ true) }
    ensures others { OnOk result ((q : ℕ) → q ≢ number → contains nat_cmp seen.new q ≡ contains nat_cmp seen.old q) }
{
    Ok(seen.insert(number)?)
}

// Adds the column that an entry is, if it is one.
fn add_column_of(
    alloc: Global,
    entry: &AExpr,
    df: &DataFrame,
    found: &mut ReadColumns,
) -> Result<(), AllocError>
    requires { AreColumnsOf df.now found.old.fields found.old.columns.items }
    ensures found { OnOk result (AreColumnsOf df.now found.new.fields found.new.columns.items) }
    ensures kept { OnOk result ((other : List ℕ) → IsTrue (has_name other found.old.fields) → IsTrue (has_name other found.new.fields)) }
    ensures only { (p : List ℕ → Bool) → ((name : List ℕ) → entry.now ≡ variant.Column name → IsTrue (p name)) → AllNamesPass p found.old.fields → OnOk result (AllNamesPass p found.new.fields) }
    ensures added { (name : List ℕ) → entry.now ≡ variant.Column name → OnOk result (IsTrue (has_name name df.now.schema) → IsTrue (has_name name found.new.fields)) }
{
    match entry {
        AExpr::Column(name) => add_named(alloc, name, df, found),
        _ => Ok(()),
    }
}

// Adds the column of a name, if the table has one and it isn't there yet.
fn add_named(
    alloc: Global,
    name: &PlSmallStr,
    df: &DataFrame,
    found: &mut ReadColumns,
) -> Result<(), AllocError>
    requires { AreColumnsOf df.now found.old.fields found.old.columns.items }
    ensures found { OnOk result (AreColumnsOf df.now found.new.fields found.new.columns.items) }
    ensures kept { OnOk result ((other : List ℕ) → IsTrue (has_name other found.old.fields) → IsTrue (has_name other found.new.fields)) }
    ensures only { (p : List ℕ → Bool) → IsTrue (p name.now) → AllNamesPass p found.old.fields → OnOk result (AllNamesPass p found.new.fields) }
    ensures added { OnOk result (IsTrue (has_name name.now df.now.schema) → IsTrue (has_name name.now found.new.fields)) }
{
    if found.fields.contains(name.as_str()) {
        return Ok(());
    }
    let Some(place) = df.schema().index_of(name.as_str()) else {
        return Ok(());
    };
    add_column(alloc, name, df.column(place), found)?;
    Ok(())
}

// Adds a column under a name that isn't there yet.
fn add_column(
    alloc: Global,
    name: &PlSmallStr,
    column: &Column,
    found: &mut ReadColumns,
) -> Result<(), AllocError>
    ensures fields { OnOk result (found.new.fields ≡ found.old.fields ++ (name.now, column.now.kind) ∷ []) }
    ensures columns { OnOk result (found.new.columns.items ≡ found.old.columns.items ++ column.now ∷ []) }
{
    // By hand, here and below: these errors don't convert by `?`. Each is want of memory, since the name is new.
    let Ok(shared) = column.share(alloc) else {
        return Err(AllocError);
    };
    let Ok(name) = name.try_clone(alloc) else {
        return Err(AllocError);
    };
    let Ok(()) = found.fields.push(alloc, name, column.dtype()) else {
        return Err(AllocError);
    };
    found.columns.push(shared)?;
    Ok(())
}
