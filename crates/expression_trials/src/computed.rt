// Aggregates and orders of 1, null and 3, and columns that are shared.
use crate::words::{parts, push_value};
use ps_expr_eval::aggregate::aggregated_part;
use ps_expr_eval::computed::{Cells, ComputedColumn, Values, computed_whole};
use ps_expr_eval::elementwise::{Unary, unary_part};
use ps_expr_eval::filter::kept_part;
use ps_expr_eval::sort_by::sorted_by_part;
use ps_expr_eval::whole::reversed_part;
use ps_frame::expr::IRAggExpr;
use ps_frame::value::{DataType, Value};
use pu_base::Node;
use std::alloc::{AllocError, Global};
use std::test::Fail;

// 1, null and 3.
fn numbers(alloc: Global) -> Result<ComputedColumn, AllocError> {
    let values = vec![in alloc; Value::Int64(1), Value::Null, Value::Int64(3)]?;
    Ok(computed_whole(DataType::Int64, values))
}

fn aggregate(alloc: Global, aggregate: IRAggExpr) -> Result<ComputedColumn, AllocError> {
    aggregated_part(alloc, aggregate, numbers(alloc)?)
}

// Which of them are not null.
fn known(alloc: Global) -> Result<ComputedColumn, AllocError> {
    unary_part(alloc, Unary::IsNotNull, &numbers(alloc)?)
}

fn kept(alloc: Global) -> Result<ComputedColumn, AllocError> {
    let known = known(alloc)?;
    kept_part(alloc, &known, &known)
}

// Them by themselves, the greatest first and null last.
fn sorted(alloc: Global) -> Result<ComputedColumn, AllocError> {
    let keys = vec![in alloc; numbers(alloc)?]?;
    sorted_by_part(alloc, &[true], &[true], numbers(alloc)?, keys)
}

fn computed(alloc: Global, name: &str) -> Result<ComputedColumn, AllocError> {
    let n = Node(0);
    match name {
        "sum" => aggregate(alloc, IRAggExpr::Sum(n)),
        "n_unique" => aggregate(alloc, IRAggExpr::NUnique(n)),
        "count" => aggregate(alloc, IRAggExpr::Count(n, false)),
        "count of all" => aggregate(alloc, IRAggExpr::Count(n, true)),
        "reverse" => reversed_part(alloc, numbers(alloc)?),
        "known" => known(alloc),
        "kept" => kept(alloc),
        _ => sorted(alloc),
    }
}

fn told(alloc: Global, part: &ComputedColumn) -> Result<String, AllocError> {
    let mut text = String::new(alloc);
    for i in 0..part.cells.len() {
        match part.cells.cell(i) {
            Ok(value) => push_value(&mut text, value)?,
            Err(fault) => write!(text, " {fault:?}")?,
        }
    }
    Ok(text)
}

const COMPUTED: &str = "sum is 4
n_unique is 3i
count is 2i
count of all is 3i
reverse is 3 null 1
known is true false true
kept is true true
sorted is 3 1 null";

#[test]
fn what_is_computed_of_one_null_and_three(rt: HostRuntime) -> Result<(), Fail> {
    for line in COMPUTED.lines() {
        let (name, wanted) = parts(line)?;
        let part = computed(rt.alloc(), name)?;
        assert_eq!(rt; told(rt.alloc(), &part)?.as_str(), wanted, "of {name}");
    }
    Ok(())
}

fn is_shared(part: &ComputedColumn) -> bool {
    matches!(&part.cells, Cells::Whole(Values::Shared(_)))
}

#[test]
fn what_is_computed_and_kept_is_shared(rt: HostRuntime) -> Result<(), Fail> {
    assert!(rt; is_shared(&known(rt.alloc())?));
    assert!(rt; is_shared(&kept(rt.alloc())?));
    Ok(())
}
