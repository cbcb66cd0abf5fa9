// The functions over tables that the program hands in.
use ps_frame::column::Column;
use ps_frame::frame::DataFrame;
use ps_frame::functions::Functions;
use ps_frame::schema::Schema;
use ps_frame::value::{DataType, Value};
use pu_base::PlSmallStr;
use std::test::Fail;
use tool_run::functions::ToolFunctions;

fn first(df: &DataFrame) -> Option<i64> {
    let column = df.get_columns().first()?;
    if column.is_empty() {
        return None;
    }
    match column.value(0) {
        Value::Int64(z) => Some(*z),
        _ => None,
    }
}

#[test]
fn numbers_are_negated_and_rows_reversed(rt: HostRuntime) -> Result<(), Fail> {
    let alloc = rt.alloc();
    let mut schema = Schema::new(alloc);
    // By hand, for a message of its own.
    let Ok(name) = PlSmallStr::from_str(alloc, "a") else {
        return Err(Fail::from("out of memory"));
    };
    schema.push(alloc, name, DataType::Int64)?;
    let numbers = vec![in alloc; Value::Int64(i64::MIN), Value::Int64(3)]?;
    let column = Column::new(alloc, DataType::Int64, numbers)?;
    let df = DataFrame::new(alloc, schema, vec![in alloc; column]?)?;
    assert_eq!(rt; ToolFunctions.count(), 2);
    assert!(rt; ToolFunctions.streamable(0) && !ToolFunctions.streamable(1));
    assert!(rt; ToolFunctions.schema(alloc, 1, df.schema()).is_ok());
    let least = ToolFunctions.call(alloc, 0, df.share(alloc)?)?;
    assert_eq!(rt; first(&least), Some(i64::MIN));
    let turned = ToolFunctions.call(alloc, 1, df)?;
    assert_eq!(rt; first(&turned), Some(3));
    let minus = ToolFunctions.call(alloc, 0, turned)?;
    assert_eq!(rt; first(&minus), Some(-3));
    Ok(())
}
