// Documents of a select over a scan, from text.

use lowering_scripts::documents::{document, table};
use ps_document::document::Document;
use std::alloc::Global;
use std::test::Fail;

// A named expression by its number, as `s=4`.
fn push_item(items: &mut String, item: &str) -> Result<(), Fail> {
    let Some((name, number)) = item.split_once("=") else {
        return Err(Fail::from("an expression without a name"));
    };
    write!(items, "[\"{name}\",{number}]")?;
    Ok(())
}

// Named expressions by their numbers, as `s=4,b=1`.
fn items(alloc: Global, text: &str) -> Result<String, Fail> {
    let mut items = String::new(alloc);
    for (i, item) in text.split(",").enumerate() {
        let lead = if i > 0 { "," } else { "" };
        items.push_str(lead)?;
        push_item(&mut items, item)?;
    }
    Ok(items)
}

/// The document of a select of these expressions over a table with these columns.
pub fn select(alloc: Global, columns: &str, exprs: &str, asked: &str) -> Result<Document, Fail> {
    let (table, items) = (table(alloc, columns)?, items(alloc, asked)?);
    let nodes = format!(in alloc; "[\"scan\",0,null] [\"select\",0,[{items}]]")?;
    document(alloc, table.as_str(), exprs, nodes.as_str())
}
