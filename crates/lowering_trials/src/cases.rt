// Cases as text: nodes, and behind ` -> ` what they are lowered to.

use crate::lowered::lowered_plan;
use lowering_scripts::documents::spelled;
use std::alloc::Global;
use std::test::Fail;

/// Three tables: of the columns a and b, of a and c, and of d and e.
pub const TABLES: &str =
    r#"[["a","int",[1,2]],["b","int",[1,2]]],[["a","int",[1,2]],["c","int",[1,2]]],[["d","int",[1,2]],["e","int",[1,2]]]"#;

/// Expressions over the columns of these tables.
pub const EXPRS: &str =
    r#"["col","a"],["col","b"],["col","c"],["int",1],["int",2],["sum",0],["len"],["gt",0,3],["add",1,5],["add",0,3],["gt",0,5],["min",1],["max",1],["last",1],["first",1],["n_unique",0],["count",1,false],["add",5,11],["add",5,5],["cast",5,"str",true],["gt",5,3],["ternary",20,11,12],["sum",9],["is_null",5],["reverse",1],["sum",24],["add",5,3],["cast",6,"int",true],["add",5,27],["gt",24,3],["min",5],["reverse",5],["bool",true],["max",2],["add",2,33],["not",20],["sort",1,true,false],["filter",0,7],["sum",37],["gt",0,38],["is_null",15]"#;

// What a case gives, and what it should.
fn both(alloc: Global, case: &str) -> Result<(String, String), Fail> {
    let Some((nodes, wanted)) = case.split_once(" -> ") else {
        return Err(Fail::from("a case without an answer"));
    };
    let given = lowered_plan(alloc, TABLES, EXPRS, nodes)?;
    Ok((given, spelled(alloc, wanted)?))
}

/// The first case, if any, that gives something else than it should, and what it gives.
pub fn first_unlike(alloc: Global, cases: &str) -> Result<String, Fail> {
    let mut told = String::new(alloc);
    for case in cases.trim().lines() {
        let (given, wanted) = both(alloc, case)?;
        if given != wanted {
            write!(told, "{given} at {case}")?;
            return Ok(told);
        }
    }
    Ok(told)
}
