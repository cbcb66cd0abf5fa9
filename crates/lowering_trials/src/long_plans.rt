// Long plans: what the rules say of any number of inputs and expressions, at some hundreds of them.

use crate::cases::{EXPRS, TABLES};
use crate::lowered::lowered_plan;
use lowering_scripts::documents::spelled;
use std::alloc::Global;
use std::test::Fail;

// A text for each number below a count, with commas between them.
fn push_listed(text: &mut String, count: usize, before: &str, behind: &str) -> Result<(), Fail> {
    for number in 0..count {
        let lead = if number > 0 { "," } else { "" };
        write!(text, "{lead}{before}{number}{behind}")?;
    }
    Ok(())
}

// A union of so many readers of one scan.
fn wide_union(alloc: Global, count: usize) -> Result<String, Fail> {
    let mut nodes = String::from_str(alloc, "[\"scan\",0,null] [\"union\",[0")?;
    for _ in 1..count {
        nodes.push_str(",0")?;
    }
    nodes.push_str("],[3,7]]")?;
    lowered_plan(alloc, TABLES, EXPRS, nodes.as_str())
}

// What it is lowered to: a source for each reader, the union and its slice.
fn wide_union_nodes(alloc: Global, count: usize) -> Result<String, Fail> {
    let mut text = String::new(alloc);
    for number in 0..count {
        write!(text, "{number} in-memory-source 0 -/")?;
    }
    let (slice, sink) = (count.saturating_add(1), count.saturating_add(2));
    write!(text, "{count} ordered-union 1 ")?;
    push_listed(&mut text, count, "", ".0")?;
    write!(
        text,
        "/{slice} slice 1 {count}.0/{sink} in-memory-sink 2 {slice}.0/ |"
    )?;
    for number in 0..count {
        write!(text, " {number}:-")?;
    }
    write!(text, " {count}:- {slice}:3,7 {sink}:-")?;
    Ok(text)
}

#[test]
fn a_union_of_300_inputs_is_one_node(rt: HostRuntime) -> Result<(), Fail> {
    let alloc = rt.alloc();
    let given = wide_union(alloc, 300)?;
    assert_eq!(rt; given.as_str(), wide_union_nodes(alloc, 300)?.as_str());
    Ok(())
}

// A group-by of so many keys `a` and aggregates `sum(a) + min(b)`.
fn wide_groups(alloc: Global, count: usize) -> Result<String, Fail> {
    let mut nodes = String::from_str(alloc, "[\"scan\",0,null] [\"group_by\",0,[")?;
    push_listed(&mut nodes, count, "[\"k", "\",0]")?;
    nodes.push_str("],[")?;
    push_listed(&mut nodes, count, "[\"x", "\",17]")?;
    nodes.push_str("],false,null]")?;
    lowered_plan(alloc, TABLES, EXPRS, nodes.as_str())
}

// What it is lowered to: groups with two reductions for each aggregate, and a select that puts these together.
fn wide_groups_nodes(alloc: Global, count: usize) -> Result<String, Fail> {
    let mut text = String::from_str(
        alloc,
        "0 in-memory-source 0 -/1 group-by 1 0.0/2 select 1 1.0/3 in-memory-sink 2 2.0/ | 0:- 1:",
    )?;
    push_listed(&mut text, count, "k", "=a")?;
    text.push_str(";")?;
    for number in 0..count {
        let lead = if number > 0 { "," } else { "" };
        let (first, second) = pair(number);
        write!(text, "{lead}@{first}=sum(a),@{second}=min(b)")?;
    }
    text.push_str(" 2:")?;
    for number in 0..count {
        write!(text, "k{number}=k{number},")?;
    }
    for number in 0..count {
        let lead = if number > 0 { "," } else { "" };
        let (first, second) = pair(number);
        write!(text, "{lead}x{number}=Plus(@{first},@{second})")?;
    }
    text.push_str(" 3:-")?;
    spelled(alloc, text.as_str())
}

// The numbers of the two fresh names of an aggregate.
fn pair(number: usize) -> (usize, usize) {
    let first = number.saturating_mul(2);
    (first, first.saturating_add(1))
}

#[test]
fn a_group_by_of_200_keys_and_aggregates_streams(rt: HostRuntime) -> Result<(), Fail> {
    let alloc = rt.alloc();
    let given = wide_groups(alloc, 200)?;
    assert_eq!(rt; given.as_str(), wide_groups_nodes(alloc, 200)?.as_str());
    Ok(())
}

// A table of so many columns.
fn wide_table(alloc: Global, count: usize) -> Result<String, Fail> {
    let mut table = String::from_str(alloc, "[")?;
    push_listed(&mut table, count, "[\"c", "\",\"int\",[1,2]]")?;
    table.push_str("]")?;
    Ok(table)
}

// A distinct by the last column, which keeps rows that come once.
fn wide_distinct(alloc: Global, count: usize) -> Result<String, Fail> {
    let table = wide_table(alloc, count)?;
    let last = count.saturating_sub(1);
    let nodes = format!(in alloc;
        "[\"scan\",0,null] [\"distinct\",0,[\"c{last}\"],false,\"none\",null]"
    )?;
    lowered_plan(alloc, table.as_str(), EXPRS, nodes.as_str())
}

// What it is lowered to: groups with the first value of each other column and their height, a filter, and the columns in
// their order.
fn wide_distinct_nodes(alloc: Global, count: usize) -> Result<String, Fail> {
    let mut text = String::from_str(
        alloc,
        "0 in-memory-source 0 -/1 group-by 1 0.0/2 filter 1 1.0/3 simple-projection 1 2.0/4 in-memory-sink 2 3.0/ | 0:- 1:",
    )?;
    let last = count.saturating_sub(1);
    write!(text, "c{last}=c{last};")?;
    for number in 0..last {
        write!(text, "c{number}=first(c{number}),")?;
    }
    text.push_str("@0=len 2:Eq(@0,1u) 3:")?;
    push_listed(&mut text, count, "c", "")?;
    text.push_str(" 4:-")?;
    spelled(alloc, text.as_str())
}

#[test]
fn a_distinct_over_250_columns_streams(rt: HostRuntime) -> Result<(), Fail> {
    let alloc = rt.alloc();
    let given = wide_distinct(alloc, 250)?;
    assert_eq!(rt; given.as_str(), wide_distinct_nodes(alloc, 250)?.as_str());
    Ok(())
}

// A join by so many keys, of which each reads an aggregate on the left.
fn wide_join(alloc: Global, count: usize) -> Result<String, Fail> {
    let mut nodes = String::from_str(
        alloc,
        "[\"scan\",0,null] [\"scan\",1,null] [\"join\",0,1,\"inner\",[8",
    )?;
    for _ in 1..count {
        nodes.push_str(",8")?;
    }
    nodes.push_str("],[2")?;
    for _ in 1..count {
        nodes.push_str(",2")?;
    }
    nodes.push_str("],null,false,\"m:m\",null]")?;
    lowered_plan(alloc, TABLES, EXPRS, nodes.as_str())
}

// What it is lowered to: one reduce for all keys.
fn wide_join_nodes(alloc: Global, count: usize) -> Result<String, Fail> {
    let mut text = String::from_str(
        alloc,
        "0 in-memory-source 0 -/1 reduce 2 0.0/2 zip 2 0.0,1.0/3 in-memory-source 1 -/4 equi-join 2 2.0,3.0/5 in-memory-sink 3 4.0/ | 0:- 1:- 2:",
    )?;
    push_listed(&mut text, count, "@", "=sum(a)")?;
    text.push_str(" 3:- 4:Inner;")?;
    push_listed(&mut text, count, "Plus(b,@", ")")?;
    text.push_str(";c")?;
    for _ in 1..count {
        text.push_str(",c")?;
    }
    text.push_str(" 5:-")?;
    spelled(alloc, text.as_str())
}

#[test]
fn a_join_by_200_keys_has_one_reduce(rt: HostRuntime) -> Result<(), Fail> {
    let alloc = rt.alloc();
    let given = wide_join(alloc, 200)?;
    assert_eq!(rt; given.as_str(), wide_join_nodes(alloc, 200)?.as_str());
    Ok(())
}
