// Plans of many nodes, and expressions that name others.
use crate::checks::{EXPRS, told};
use physical_scripts::words::arena;
use std::alloc::Global;
use std::test::Fail;

// The names of so many columns, behind a first one.
fn columns(alloc: Global, count: u32) -> Result<String, Fail> {
    let mut text = String::new(alloc);
    text.push_str("a,b")?;
    for column in 0..count {
        write!(text, ",c{column}")?;
    }
    Ok(text)
}

// So many filters by one expression over a table of many columns.
fn filters(alloc: Global, count: u32, width: u32) -> Result<String, Fail> {
    let columns = columns(alloc, width)?;
    let fields = columns.as_str();
    let mut text = String::new(alloc);
    write!(text, "source - {fields} {fields}")?;
    for below in 0..count {
        write!(text, "; filter {below}.0 3 {fields}")?;
    }
    write!(text, "; sink {count}.0 - {fields}")?;
    Ok(text)
}

#[test]
fn filters_over_many_columns(rt: HostRuntime) -> Result<(), Fail> {
    let alloc = rt.alloc();
    let exprs = arena(alloc, EXPRS)?;
    let nodes = filters(alloc, 500, 100)?;
    let given = told(alloc, nodes.as_str(), &exprs)?;
    assert_eq!(rt; given.as_str(), "yes 502 501");
    Ok(())
}

// Expressions, and what is told of a plan that filters by the third of them. Entries of an arena may name earlier ones alone.
const EXPRESSIONS: &str = "
col a; int 1; gt 0 1; col a -> yes 3 2
col a; int 1; gt 0 3; col a -> no 3 2
col a; int 1; gt 0 2; col a -> no 3 2
col a; int 1; gt 0 4; col a -> no 3 2
";

#[test]
fn expressions_stand_behind_what_they_name(rt: HostRuntime) -> Result<(), Fail> {
    let alloc = rt.alloc();
    for line in EXPRESSIONS.trim().lines() {
        let Some((exprs, wanted)) = line.split_once(" -> ") else {
            return Err(Fail::from("expressions without an answer"));
        };
        let exprs = arena(alloc, exprs)?;
        let given = told(alloc, "source - a a; filter 0.0 2 a; sink 1.0 - a", &exprs)?;
        assert_eq!(rt; given.as_str(), wanted, "at {line}");
    }
    Ok(())
}
