//! What a call does at an expression: the rules, by the kind of the expression.
ghost use Rattle.std.specs.Prelude.{◌≡◌, ◌-◌, ◌<◌, ◌∷◌, [], Err, IfOk, IsFalse, None, OnErr, OnOk, length, map};
ghost use Rattle.std.specs.List.{AllByRecursion};
ghost use Rattle.ps_frame.specs.Trees.{IsComplete, IsExpression, Tree, aggregate_tree, tree_at};
ghost use Rattle.ps_frame.specs.Typing.{is_elementwise as is_elementwise_tree};
ghost use Rattle.ps_frame.specs.declared.refusal.PolarsError.{PolarsError};
ghost use Rattle.ps_fresh.specs.Known.{Remembers};
ghost use Rattle.ps_meaning.specs.Shape.{in_memory_map};
ghost use Rattle.ps_copies.specs.Copies.{KeepsTrees};
ghost use Rattle.ps_meaning.specs.Steps.{key_trees, name_in, sort};
ghost use Rattle.ps_phys.specs.Shown.{inputs_of, kind_of, stream_of};
ghost use Rattle.ps_rules.specs.Calls.{all_independent, each};
ghost use Rattle.ps_rules.specs.Lowered.{lower as lowered};
ghost use Rattle.ps_rules.specs.Names.{after_fresh, fresh_name};
ghost use Rattle.ps_rules.specs.Rules.{apart_from_input, filtered_column, first_name, first_tree, is_own_column as is_own_column_of, other_names, over_operands as operator_over, reduced_column, selected, sorted_by, sorted_column, together as gathered_together};
ghost use Rattle.ps_rules.specs.Slots.{Stream, columns_named, under};
ghost use Rattle.lowering_parts.specs.Gathered.{AreWhole, Begins, Follows, Gathers, GoesOn, Makes, trees_at};
ghost use Rattle.lowering_parts.specs.Operations.{aggregation_of, are_own, operation_tree};
ghost use Rattle.expr_lowering.specs.Operands.{is_reduced as is_reduced_one, operand_at, operands_at};
ghost use Rattle.lowering_parts.specs.Reads.{aggregate_operand};
ghost use Rattle.pu_base.specs.declared.arena.Node.{Node as ANode};

use lowering_parts::bundles::{finish, gather, is_input_alone};
use lowering_parts::gathered::Gathered;
use lowering_parts::leaves::{count_rows, leave_to_map, stay};
use lowering_parts::names::{
    add_column, add_columns, add_expr, copied, fresh, fresh_names, under_name, under_names,
};
use lowering_parts::nodes::{
    Selection, columns_of, independent, over_same_columns, over_selection,
};
use lowering_parts::operation::Operation;
use lowering_parts::reads::aggregated;
use ps_copies::try_clone::TryClone;
use ps_frame::expr::{AExpr, IRAggExpr, entry};
use ps_frame::items::Items;
use ps_frame::refusal::{PolarsError, PolarsResult};
use ps_fresh::expr_cache::{is_elementwise, is_input_independent};
use ps_fresh::lowering::Lowering;
use ps_meaning::options::{ExprIR, SortMultipleOptions};
use ps_phys::phys::{PhysNodeKind, PhysStream};
use pu_base::{Arena, Node, PlSmallStr};
use std::alloc::Global;

// One expression of a call.
#[cycle(lowering)]
fn lower(
    alloc: Global,
    arena: &mut Arena<AExpr>,
    low: &mut Lowering,
    input: PhysStream,
    expr: Node,
    call: &mut Gathered,
) -> PolarsResult<()>
    requires expr { IsExpression arena.old.items expr }
    requires cache { Remembers arena.old.items low.old.cache }
    requires whole { AreWhole arena.old.items call.old }
    ensures follows { OnOk result (Follows (lowered low.old.origin.0 (stream_of input) (tree_at arena.old.items expr)) arena.old.items arena.new.items low.old low.new call.old call.new) }
    ensures goes_on { GoesOn arena.old.items arena.new.items low.old low.new }
    ensures memory { OnErr result (result ≡ Err PolarsError.OutOfMemory) }
{
    let elementwise = is_elementwise(alloc, expr, arena, &mut low.cache)?;
    if elementwise {
        return stay(alloc, arena, low, input, expr, call);
    }
    lower_entry(alloc, arena, low, input, expr, call)
}

// The same of one that isn't elementwise.
#[cycle(lowering)]
fn lower_entry(
    alloc: Global,
    arena: &mut Arena<AExpr>,
    low: &mut Lowering,
    input: PhysStream,
    expr: Node,
    call: &mut Gathered,
) -> PolarsResult<()>
    requires expr { IsExpression arena.old.items expr }
    requires apart { IsFalse (is_elementwise_tree (tree_at arena.old.items expr)) }
    requires cache { Remembers arena.old.items low.old.cache }
    requires whole { AreWhole arena.old.items call.old }
    ensures follows { OnOk result (Follows (lowered low.old.origin.0 (stream_of input) (tree_at arena.old.items expr)) arena.old.items arena.new.items low.old low.new call.old call.new) }
    ensures goes_on { GoesOn arena.old.items arena.new.items low.old low.new }
    ensures memory { OnErr result (result ≡ Err PolarsError.OutOfMemory) }
{
    match entry(expr, arena) {
        AExpr::BinaryExpr { left, op, right } => {
            let (operands, operation) = ([*left, *right], Operation::Binary(*op));
            lower_operands(alloc, arena, low, input, operation, &operands, call)
        }
        AExpr::Cast {
            expr,
            dtype,
            strict,
        } => {
            let (operands, operation) = ([*expr], Operation::Cast(*dtype, *strict));
            lower_operands(alloc, arena, low, input, operation, &operands, call)
        }
        AExpr::Ternary {
            predicate,
            truthy,
            falsy,
        } => {
            let operands = [*predicate, *truthy, *falsy];
            lower_operands(
                alloc,
                arena,
                low,
                input,
                Operation::Ternary,
                &operands,
                call,
            )
        }
        AExpr::Sort {
            expr,
            descending,
            nulls_last,
        } => {
            let (expr, descending, nulls_last) = (*expr, *descending, *nulls_last);
            lower_sort(alloc, arena, low, input, expr, descending, nulls_last, call)
        }
        AExpr::SortBy {
            expr,
            by,
            descending,
            nulls_last,
        } => {
            let values = *expr;
            let copied = nodes_copied(alloc, by)?;
            let keys = copied.as_slice();
            let options = sort_options(alloc, descending, nulls_last)?;
            lower_sort_by(alloc, arena, low, input, values, keys, options, call)
        }
        AExpr::Filter { input: values, by } => {
            let (values, by) = (*values, *by);
            lower_filter(alloc, arena, low, input, values, by, call)
        }
        AExpr::Agg(aggregate) => {
            let aggregate = *aggregate;
            lower_aggregate(alloc, arena, low, input, expr, aggregate, call)
        }
        AExpr::Len => count_rows(alloc, arena, low, call),
        AExpr::Column(_) | AExpr::Literal(_) => Ok(()),
        AExpr::Gather { .. } | AExpr::Function { .. } | AExpr::Slice { .. } | AExpr::LeftOut(_) =>
            leave_to_map(alloc, arena, low, expr, call),
    }
}

fn nodes_copied(alloc: Global, nodes: &Items<Node>) -> PolarsResult<Vec<Node>>
    ensures same { IfOk result (λ v. v.items ≡ nodes.now) }
    ensures memory { OnErr result (result ≡ Err PolarsError.OutOfMemory) }
{
    let mut copies = Vec::new(alloc);
    copies.extend_from_slice(nodes.as_slice())?;
    Ok(copies)
}

// Equal copies of the flags of a sort.
fn sort_options(
    alloc: Global,
    descending: &Items<bool>,
    nulls_last: &Items<bool>,
) -> PolarsResult<SortMultipleOptions>
    ensures descending { IfOk result (λ o. o.descending ≡ descending.now) }
    ensures nulls_last { IfOk result (λ o. o.nulls_last ≡ nulls_last.now) }
    ensures memory { OnErr result (result ≡ Err PolarsError.OutOfMemory) }
{
    let (Ok(descending), Ok(nulls_last)) = (
        descending.try_clone(alloc),
        nulls_last.try_clone(alloc),
    ) else {
        return Err(PolarsError::OutOfMemory);
    };
    Ok(SortMultipleOptions {
        descending,
        nulls_last,
    })
}

// An operator stays, over operands that are lowered together.
#[cycle(lowering)]
fn lower_operands(
    alloc: Global,
    arena: &mut Arena<AExpr>,
    low: &mut Lowering,
    input: PhysStream,
    operation: Operation,
    operands: &[Node],
    call: &mut Gathered,
) -> PolarsResult<()>
    requires operands { AllByRecursion IsComplete (trees_at (tree_at arena.old.items) operands.now) }
    requires cache { Remembers arena.old.items low.old.cache }
    requires whole { AreWhole arena.old.items call.old }
    ensures follows { OnOk result (Follows (operator_over low.old.origin.0 (stream_of input) (operation_tree operation) (operands_at low.old input arena.old.items operands.now)) arena.old.items arena.new.items low.old low.new call.old call.new) }
    ensures goes_on { GoesOn arena.old.items arena.new.items low.old low.new }
    ensures memory { OnErr result (result ≡ Err PolarsError.OutOfMemory) }
{
    let bundle = together(alloc, arena, low, input, operands)?;
    // As many operands come back as were handed in.
    let Some(entry) = operation.over(bundle.exprs.as_slice()) else {
        return Err(PolarsError::OutOfMemory);
    };
    let expr = add_expr(arena, entry)?;
    call.give_bundle(expr, bundle)
}

// The values are selected under a fresh name, and sorted by it.
#[cycle(lowering)]
fn lower_sort(
    alloc: Global,
    arena: &mut Arena<AExpr>,
    low: &mut Lowering,
    input: PhysStream,
    expr: Node,
    descending: bool,
    nulls_last: bool,
    call: &mut Gathered,
) -> PolarsResult<()>
    requires expr { IsExpression arena.old.items expr }
    requires cache { Remembers arena.old.items low.old.cache }
    requires whole { AreWhole arena.old.items call.old }
    ensures follows { OnOk result (Follows (sorted_column low.old.origin.0 (stream_of input) descending nulls_last (operand_at low.old input arena.old.items expr)) arena.old.items arena.new.items low.old low.new call.old call.new) }
    ensures goes_on { GoesOn arena.old.items arena.new.items low.old low.new }
    ensures memory { OnErr result (result ≡ Err PolarsError.OutOfMemory) }
{
    let name = fresh(alloc, low)?;
    let names = one_of(alloc, copied(alloc, &name)?)?;
    let stream = select(alloc, arena, low, input, names, &[expr])?;
    let column = add_column(alloc, &name, arena)?;
    let keys = one_of(alloc, under_name(name, column))?;
    let options = SortMultipleOptions {
        descending: Items::new(one_of(alloc, descending)?),
        nulls_last: Items::new(one_of(alloc, nulls_last)?),
    };
    let sorted = over_same_columns(alloc, low, stream, sort_of(stream, keys, options))?;
    call.give(column, sorted)
}

// A list of one item.
fn one_of<T: Drop>(alloc: Global, item: T) -> PolarsResult<Vec<T>>
    ensures one { IfOk result (λ v. v.items ≡ item ∷ []) }
    ensures memory { OnErr result (result ≡ Err PolarsError.OutOfMemory) }
{
    let mut items = Vec::with_capacity(alloc, 1)?;
    items.push(item)?;
    Ok(items)
}

fn sort_of(input: PhysStream, keys: Vec<ExprIR>, options: SortMultipleOptions) -> PhysNodeKind
    ensures kind { (f : ANode → Tree) → kind_of f result ≡ in_memory_map (sort (record { keys = key_trees f keys.items; descending = options.descending; nulls_last = options.nulls_last; cut = None })) }
    ensures inputs { inputs_of result ≡ stream_of input ∷ [] }
{
    PhysNodeKind::Sort {
        input,
        by_column: Items::new(keys),
        slice: None,
        sort_options: options,
    }
}

// Values and keys are selected, sorted by the keys, and the values alone are kept.
#[cycle(lowering)]
fn lower_sort_by(
    alloc: Global,
    arena: &mut Arena<AExpr>,
    low: &mut Lowering,
    input: PhysStream,
    values: Node,
    by: &[Node],
    options: SortMultipleOptions,
    call: &mut Gathered,
) -> PolarsResult<()>
    requires values { IsExpression arena.old.items values }
    requires by { AllByRecursion IsComplete (trees_at (tree_at arena.old.items) by.now) }
    requires cache { Remembers arena.old.items low.old.cache }
    requires whole { AreWhole arena.old.items call.old }
    ensures follows { OnOk result (Follows (sorted_by low.old.origin.0 (stream_of input) options.descending options.nulls_last (operand_at low.old input arena.old.items values) (operands_at low.old input arena.old.items by.now)) arena.old.items arena.new.items low.old low.new call.old call.new) }
    ensures goes_on { GoesOn arena.old.items arena.new.items low.old low.new }
    ensures memory { OnErr result (result ≡ Err PolarsError.OutOfMemory) }
{
    let listed = behind(alloc, values, by)?;
    let operands = listed.as_slice();
    let given = fresh_names(alloc, low, operands)?;
    let names = given.as_slice();
    let asked = copied_all(alloc, names)?;
    let stream = select(alloc, arena, low, input, asked, operands)?;
    let (column, keys) = value_and_keys(alloc, arena, names)?;
    let sorted = over_same_columns(alloc, low, stream, sort_of(stream, keys, options))?;
    let alone = first_alone(alloc, names)?;
    let kept = columns_of(alloc, low, sorted, alone)?;
    call.give(column, kept)
}

// The column of the first name, and those of the others under these.
fn value_and_keys(
    alloc: Global,
    arena: &mut Arena<AExpr>,
    names: &[PlSmallStr],
) -> PolarsResult<(Node, Vec<ExprIR>)>
    ensures value { IfOk result (λ r. tree_at arena.new.items r.0 ≡ Tree.column (first_name names.now)) }
    ensures keys { IfOk result (λ r. key_trees (tree_at arena.new.items) r.1.items ≡ columns_named (other_names names.now)) }
    ensures entries { Begins arena.old.items arena.new.items }
    ensures kept { KeepsTrees arena.old.items arena.new.items }
    ensures memory { OnErr result (result ≡ Err PolarsError.OutOfMemory) }
{
    let Some((_, others)) = names.split_first() else {
        return Err(PolarsError::OutOfMemory);
    };
    let columns = add_columns(alloc, names, arena)?;
    let Some((value, keyed)) = columns.as_slice().split_first() else {
        return Err(PolarsError::OutOfMemory);
    };
    let keys = under_names(alloc, others, keyed)?;
    Ok((*value, keys))
}

// A copy of the first of some names, alone.
fn first_alone(alloc: Global, names: &[PlSmallStr]) -> PolarsResult<Vec<PlSmallStr>>
    ensures first { IfOk result (λ v. v.items ≡ first_name names.now ∷ []) }
    ensures memory { OnErr result (result ≡ Err PolarsError.OutOfMemory) }
{
    let Some(name) = names.first() else {
        return Err(PolarsError::OutOfMemory);
    };
    let name = copied(alloc, name)?;
    one_of(alloc, name)
}

// One expression, and others behind it.
fn behind(alloc: Global, first: Node, others: &[Node]) -> PolarsResult<Vec<Node>>
    ensures all { IfOk result (λ v. v.items ≡ first ∷ others.now) }
    ensures memory { OnErr result (result ≡ Err PolarsError.OutOfMemory) }
{
    let mut all = one_of(alloc, first)?;
    all.extend_from_slice(others)?;
    Ok(all)
}

fn copied_all(alloc: Global, names: &[PlSmallStr]) -> PolarsResult<Vec<PlSmallStr>>
    ensures same { IfOk result (λ copies. copies.items ≡ names.now) }
    ensures memory { OnErr result (result ≡ Err PolarsError.OutOfMemory) }
{
    let mut copies = Vec::with_capacity(alloc, names.len())?;
    for name in names {
        copies.push(copied(alloc, name)?)?;
    }
    Ok(copies)
}

// Values and predicate are selected, and filtered by the predicate.
#[cycle(lowering)]
fn lower_filter(
    alloc: Global,
    arena: &mut Arena<AExpr>,
    low: &mut Lowering,
    input: PhysStream,
    values: Node,
    by: Node,
    call: &mut Gathered,
) -> PolarsResult<()>
    requires values { IsExpression arena.old.items values }
    requires by { IsExpression arena.old.items by }
    requires cache { Remembers arena.old.items low.old.cache }
    requires whole { AreWhole arena.old.items call.old }
    ensures follows { OnOk result (Follows (filtered_column low.old.origin.0 (stream_of input) (operand_at low.old input arena.old.items values) (operand_at low.old input arena.old.items by)) arena.old.items arena.new.items low.old low.new call.old call.new) }
    ensures goes_on { GoesOn arena.old.items arena.new.items low.old low.new }
    ensures memory { OnErr result (result ≡ Err PolarsError.OutOfMemory) }
{
    let operands = [values, by];
    let value_name = fresh(alloc, low)?;
    let by_name = fresh(alloc, low)?;
    let mut names = one_of(alloc, copied(alloc, &value_name)?)?;
    names.push(copied(alloc, &by_name)?)?;
    let stream = select(alloc, arena, low, input, names, &operands)?;
    let value = add_column(alloc, &value_name, arena)?;
    let predicate = under_name(
        copied(alloc, &by_name)?,
        add_column(alloc, &by_name, arena)?,
    );
    let filtered = over_same_columns(
        alloc,
        low,
        stream,
        PhysNodeKind::Filter {
            input: stream,
            predicate,
        },
    )?;
    call.give(value, filtered)
}

// An aggregate that a reduce computes; the others are left to a map.
#[cycle(lowering)]
fn lower_aggregate(
    alloc: Global,
    arena: &mut Arena<AExpr>,
    low: &mut Lowering,
    input: PhysStream,
    expr: Node,
    aggregate: IRAggExpr,
    call: &mut Gathered,
) -> PolarsResult<()>
    requires expr { IsExpression arena.old.items expr }
    requires aggregate { IsComplete (aggregate_tree (tree_at arena.old.items) aggregate) }
    requires tree { tree_at arena.old.items expr ≡ aggregate_tree (tree_at arena.old.items) aggregate }
    requires cache { Remembers arena.old.items low.old.cache }
    requires whole { AreWhole arena.old.items call.old }
    ensures follows { OnOk result (Follows (lowered low.old.origin.0 (stream_of input) (tree_at arena.old.items expr)) arena.old.items arena.new.items low.old low.new call.old call.new) }
    ensures goes_on { GoesOn arena.old.items arena.new.items low.old low.new }
    ensures memory { OnErr result (result ≡ Err PolarsError.OutOfMemory) }
{
    let reduced = is_reduced(aggregate);
    if reduced {
        return reduce(alloc, arena, low, input, aggregate, call);
    }
    leave_to_map(alloc, arena, low, expr, call)
}

// Whether a reduce computes an aggregate.
fn is_reduced(aggregate: IRAggExpr) -> bool
    ensures { result ≡ is_reduced_one (aggregation_of aggregate) }
{
    match aggregate {
        IRAggExpr::NUnique(_) | IRAggExpr::Count(..) => false,
        IRAggExpr::Min(_)
        | IRAggExpr::Max(_)
        | IRAggExpr::First(_)
        | IRAggExpr::Last(_)
        | IRAggExpr::Sum(_) => true,
    }
}

// The values are lowered, and reduced: over the input itself by the call's one reduce, else by one of their own.
#[cycle(lowering)]
fn reduce(
    alloc: Global,
    arena: &mut Arena<AExpr>,
    low: &mut Lowering,
    input: PhysStream,
    aggregate: IRAggExpr,
    call: &mut Gathered,
) -> PolarsResult<()>
    requires aggregate { IsComplete (aggregate_tree (tree_at arena.old.items) aggregate) }
    requires cache { Remembers arena.old.items low.old.cache }
    requires whole { AreWhole arena.old.items call.old }
    ensures follows { OnOk result (Follows (reduced_column low.old.origin.0 (stream_of input) (aggregation_of aggregate) (operand_at low.old input arena.old.items (aggregate_operand aggregate))) arena.old.items arena.new.items low.old low.new call.old call.new) }
    ensures goes_on { GoesOn arena.old.items arena.new.items low.old low.new }
    ensures memory { OnErr result (result ≡ Err PolarsError.OutOfMemory) }
{
    let bundle = together(alloc, arena, low, input, &[aggregated(aggregate)])?;
    if is_input_alone(input, &bundle) {
        let (column, reduction) = reduction_of(
            alloc,
            arena,
            low,
            aggregate,
            bundle.exprs.as_slice(),
        )?;
        return call.give_reduction(column, reduction);
    }
    let (stream, values) = finish(alloc, arena, low, input, bundle)?;
    let (name, reduction) = reduction_of(alloc, arena, low, aggregate, values.as_slice())?;
    let exprs = one_of(alloc, reduction)?;
    let reduced = over_selection(alloc, low, arena, stream, Selection::Reduce, exprs)?;
    call.give(name, reduced)
}

// The reduction of values under a fresh name, behind the column of that name.
fn reduction_of(
    alloc: Global,
    arena: &mut Arena<AExpr>,
    low: &mut Lowering,
    aggregate: IRAggExpr,
    values: &[Node],
) -> PolarsResult<(Node, ExprIR)>
    requires values { AllByRecursion IsComplete (trees_at (tree_at arena.old.items) values.now) }
    requires cache { Remembers arena.old.items low.old.cache }
    ensures column { IfOk result (λ r. tree_at arena.new.items r.0 ≡ Tree.column (fresh_name low.old.names)) }
    ensures tree { IfOk result (λ r. tree_at arena.new.items r.1.node ≡ Tree.aggregate (aggregation_of aggregate) (first_tree (trees_at (tree_at arena.old.items) values.now))) }
    ensures name { IfOk result (λ r. name_in r.1.output_name ≡ fresh_name low.old.names) }
    ensures whole { IfOk result (λ r. IsExpression arena.new.items r.1.node) }
    ensures goes_on { GoesOn arena.old.items arena.new.items low.old low.new }
    ensures next { OnOk result (low.new ≡ record low.old { names = after_fresh low.old.names }) }
    ensures memory { OnErr result (result ≡ Err PolarsError.OutOfMemory) }
{
    let entry = over_values(aggregate, values)?;
    let reduction = add_expr(arena, AExpr::Agg(entry))?;
    let name = fresh(alloc, low)?;
    let column = add_column(alloc, &name, arena)?;
    Ok((column, under_name(name, reduction)))
}

// An aggregate over the one expression that its values were lowered to.
fn over_values(aggregate: IRAggExpr, values: &[Node]) -> PolarsResult<IRAggExpr>
    ensures over { (f : ANode → Tree) → IfOk result (λ a. aggregate_tree f a ≡ Tree.aggregate (aggregation_of aggregate) (first_tree (trees_at f values.now))) }
    ensures complete { (f : ANode → Tree) → AllByRecursion IsComplete (trees_at f values.now) → IfOk result (λ a. IsComplete (aggregate_tree f a)) }
    ensures memory { OnErr result (result ≡ Err PolarsError.OutOfMemory) }
{
    let [value] = values else {
        return Err(PolarsError::OutOfMemory);
    };
    match aggregate {
        IRAggExpr::Min(_) => Ok(IRAggExpr::Min(*value)),
        IRAggExpr::Max(_) => Ok(IRAggExpr::Max(*value)),
        IRAggExpr::First(_) => Ok(IRAggExpr::First(*value)),
        IRAggExpr::Last(_) => Ok(IRAggExpr::Last(*value)),
        IRAggExpr::Sum(_) => Ok(IRAggExpr::Sum(*value)),
        IRAggExpr::NUnique(_) => Ok(IRAggExpr::NUnique(*value)),
        IRAggExpr::Count(_, all) => Ok(IRAggExpr::Count(*value, all)),
    }
}

/// What one call for these expressions gathers.
#[cycle(lowering)]
pub fn together(
    alloc: Global,
    arena: &mut Arena<AExpr>,
    low: &mut Lowering,
    input: PhysStream,
    exprs: &[Node],
) -> PolarsResult<Gathered>
    requires exprs { AllByRecursion IsComplete (trees_at (tree_at arena.old.items) exprs.now) }
    requires cache { Remembers arena.old.items low.old.cache }
    ensures gathers { IfOk result (Gathers (gathered_together low.old.origin.0 (stream_of input) (operands_at low.old input arena.old.items exprs.now)) arena.old.items arena.new.items low.old low.new) }
    ensures goes_on { GoesOn arena.old.items arena.new.items low.old low.new }
    ensures memory { OnErr result (result ≡ Err PolarsError.OutOfMemory) }
{
    let all_apart = are_independent(alloc, arena, low, exprs)?;
    if all_apart {
        return apart(alloc, arena, low, exprs);
    }
    let mut call = Gathered::new(alloc);
    lower_each(alloc, arena, low, input, exprs, &mut call)?;
    gather(alloc, arena, low, input, call)
}

// The expressions of a call, one after the other.
#[cycle(lowering)]
fn lower_each(
    alloc: Global,
    arena: &mut Arena<AExpr>,
    low: &mut Lowering,
    input: PhysStream,
    exprs: &[Node],
    call: &mut Gathered,
) -> PolarsResult<()>
    requires exprs { AllByRecursion IsComplete (trees_at (tree_at arena.old.items) exprs.now) }
    requires cache { Remembers arena.old.items low.old.cache }
    requires whole { AreWhole arena.old.items call.old }
    ensures follows { OnOk result (Follows (each (operands_at low.old input arena.old.items exprs.now)) arena.old.items arena.new.items low.old low.new call.old call.new) }
    ensures goes_on { GoesOn arena.old.items arena.new.items low.old low.new }
    ensures memory { OnErr result (result ≡ Err PolarsError.OutOfMemory) }
{
    for expr in exprs {
        lower(alloc, arena, low, input, *expr, call)?;
    }
    Ok(())
}

/// Whether none of some expressions reads its input.
pub fn are_independent(
    alloc: Global,
    arena: &Arena<AExpr>,
    low: &mut Lowering,
    exprs: &[Node],
) -> PolarsResult<bool>
    requires exprs { AllByRecursion IsComplete (trees_at (tree_at arena.now.items) exprs.now) }
    requires cache { Remembers arena.now.items low.old.cache }
    ensures are { IfOk result (λ are. are ≡ all_independent (trees_at (tree_at arena.now.items) exprs.now)) }
    ensures cache { Remembers arena.now.items low.new.cache }
    ensures others { low.new ≡ record low.old { cache = low.new.cache } }
    ensures memory { OnErr result (result ≡ Err PolarsError.OutOfMemory) }
{
    for expr in exprs {
        if !is_input_independent(alloc, *expr, arena, &mut low.cache)? {
            return Ok(false);
        }
    }
    Ok(true)
}

// What is independent of the input, computed without it, each under a fresh name.
fn apart(
    alloc: Global,
    arena: &mut Arena<AExpr>,
    low: &mut Lowering,
    exprs: &[Node],
) -> PolarsResult<Gathered>
    requires exprs { AllByRecursion IsComplete (trees_at (tree_at arena.old.items) exprs.now) }
    requires cache { Remembers arena.old.items low.old.cache }
    ensures gathers { (input : Stream) → IfOk result (Gathers (apart_from_input low.old.origin.0 input (trees_at (tree_at arena.old.items) exprs.now)) arena.old.items arena.new.items low.old low.new) }
    ensures goes_on { GoesOn arena.old.items arena.new.items low.old low.new }
    ensures memory { OnErr result (result ≡ Err PolarsError.OutOfMemory) }
{
    let names = fresh_names(alloc, low, exprs)?;
    let named = under_names(alloc, names.as_slice(), exprs)?;
    let stream = independent(alloc, low, arena, named)?;
    let mut bundle = Gathered::new(alloc);
    bundle.streams.add(stream)?;
    bundle.exprs = add_columns(alloc, names.as_slice(), arena)?;
    Ok(bundle)
}

/// The stream of a select of expressions under as many names, which differ.
#[cycle(lowering)]
pub fn select(
    alloc: Global,
    arena: &mut Arena<AExpr>,
    low: &mut Lowering,
    input: PhysStream,
    names: Vec<PlSmallStr>,
    exprs: &[Node],
) -> PolarsResult<PhysStream>
    requires exprs { AllByRecursion IsComplete (trees_at (tree_at arena.old.items) exprs.now) }
    requires cache { Remembers arena.old.items low.old.cache }
    requires names { length names.items ≡ length exprs.now }
    ensures makes { IfOk result (Makes (selected low.old.origin.0 (stream_of input) (under names.items (operands_at low.old input arena.old.items exprs.now))) arena.old.items arena.new.items low.old low.new) }
    ensures goes_on { GoesOn arena.old.items arena.new.items low.old low.new }
    ensures memory { OnErr result (result ≡ Err PolarsError.OutOfMemory) }
{
    let all_apart = are_independent(alloc, arena, low, exprs)?;
    if all_apart {
        let named = under_names(alloc, names.as_slice(), exprs)?;
        return independent(alloc, low, arena, named);
    }
    if are_own_columns(names.as_slice(), exprs, arena) {
        return columns_of(alloc, low, input, names);
    }
    let bundle = together(alloc, arena, low, input, exprs)?;
    let (stream, answered) = finish(alloc, arena, low, input, bundle)?;
    let selected = under_names(alloc, names.as_slice(), answered.as_slice())?;
    over_selection(alloc, low, arena, stream, Selection::Select, selected)
}

// Whether each expression is the column of its own name.
fn are_own_columns(names: &[PlSmallStr], exprs: &[Node], arena: &Arena<AExpr>) -> bool
    requires { AllByRecursion IsComplete (trees_at (tree_at arena.now.items) exprs.now) }
    ensures { result ≡ are_own names.now (trees_at (tree_at arena.now.items) exprs.now) }
{
    let count = names.len().min(exprs.len());
    for i in 0..count {
        if !is_own_column(&names[i], exprs[i], arena) {
            return false;
        }
    }
    true
}

fn is_own_column(name: &PlSmallStr, expr: Node, arena: &Arena<AExpr>) -> bool
    requires { IsExpression arena.now.items expr }
    ensures { result ≡ is_own_column_of name.now (tree_at arena.now.items expr) }
{
    match entry(expr, arena) {
        AExpr::Column(other) => name.eq_str(other.as_str()),
        _ => false,
    }
}
