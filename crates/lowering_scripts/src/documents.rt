//! Documents of small plans, and the valid plans that they have.
ghost use Rattle.std.specs.Prelude.{◌≡◌, ◌<◌, IfOk};
ghost use Rattle.ps_frame.specs.Functions.{Functions};
ghost use Rattle.valid_plans.specs.Valid.{IsValidWith};

use plan_scripts::functions::TwoSame;
use ps_document::document::{Document, read_document};
use ps_frame::expr::AExpr;
use ps_frame::functions::Functions;
use ps_plan::ir::IR;
use ps_validate::validate::validate;
use pu_base::{Arena, Node, Steps};
use std::alloc::Global;
use std::marker::Brand;
use std::sync::ledger::{Blank, Ledger};
use std::test::Fail;
use valid_plans::valid::Valid;

/// The text with `__POLARS_STMP_` for each `@`.
pub fn spelled(alloc: Global, text: &str) -> Result<String, Fail> {
    let mut spelled = String::new(alloc);
    for c in text.chars() {
        if c == '@' {
            spelled.push_str("__POLARS_STMP_")?;
        } else {
            spelled.push(c)?;
        }
    }
    Ok(spelled)
}

/// A table of columns with these names, as a document has it, each of two numbers.
pub fn table(alloc: Global, columns: &str) -> Result<String, Fail> {
    let mut table = String::from_str(alloc, "[")?;
    for (i, name) in columns.split(",").enumerate() {
        let lead = if i > 0 { "," } else { "" };
        write!(table, "{lead}[\"{name}\",\"int\",[1,2]]")?;
    }
    table.push_str("]")?;
    Ok(table)
}

/// The document of these nodes, with spaces between them, of which the last stands under a sink. `@` stands for
/// `__POLARS_STMP_` in it.
pub fn document(alloc: Global, tables: &str, exprs: &str, nodes: &str) -> Result<Document, Fail> {
    let mut list = String::new(alloc);
    let mut count = 0usize;
    for (i, node) in nodes.split(" ").enumerate() {
        list.push_str(node)?;
        list.push_str(",")?;
        count = i;
    }
    let root = count.saturating_add(1);
    let text = format!(in alloc;
        "{{\"tables\":[{tables}],\"exprs\":[{exprs}],\"nodes\":[{list}[\"sink\",{count}]],\"root\":{root}}}"
    )?;
    let text = spelled(alloc, text.as_str())?;
    let Ok(document) = read_document(alloc, text.into_bytes()) else {
        return Err(Fail::from("no document"));
    };
    Ok(document)
}

fn counted_plan<F: Functions, L: Ledger>(
    blank: Blank,
    alloc: Global,
    root: Node,
    nodes: Arena<IR>,
    exprs: &Arena<AExpr>,
    functions: &F,
) -> Result<Valid, Fail>
    requires name { blank.name ≡ L.name }
    requires parts { blank.parts ≡ L.parts }
    requires some { 0 < L.parts }
    ensures { IfOk result (λ valid. IsValidWith (F.told functions.now) valid exprs.now.items) }
{
    let mut steps = Steps::<L>::new(blank);
    match validate(alloc, root, nodes, exprs, functions, &mut steps) {
        Ok(valid) => Ok(valid),
        Err(_error) => Err(Fail::from("no valid plan")),
    }
}

/// The plan, if it is valid with these functions.
pub fn validated<F: Functions>(
    alloc: Global,
    root: Node,
    nodes: Arena<IR>,
    exprs: &Arena<AExpr>,
    functions: &F,
) -> Result<Valid, Fail>
    ensures { IfOk result (λ valid. IsValidWith (F.told functions.now) valid exprs.now.items) }
{
    counted_plan::<F, Brand>(Blank::new(1), alloc, root, nodes, exprs, functions)
}

/// The plan, if it is valid with two functions that answer a table by itself.
pub fn valid_plan(
    alloc: Global,
    root: Node,
    nodes: Arena<IR>,
    exprs: &Arena<AExpr>,
) -> Result<Valid, Fail>
    ensures { IfOk result (λ valid. (F : Functions) × IsValidWith F valid exprs.now.items) }
{
    validated(alloc, root, nodes, exprs, &TwoSame)
}
