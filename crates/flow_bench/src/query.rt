// A filter over the table.
use anyhow::{Result, bail};
use ps_document::document::{Document, read_document};
use ps_frame::frame::DataFrame;
use ps_plan::ir::IR;
use pu_base::Node;
use std::alloc::Global;

/// The plan of the rows whose ids are at least half the number of rows, under a sink.
pub fn plan(alloc: Global, table: DataFrame, rows: u32) -> Result<Document> {
    let half = rows / 2;
    let text = format!(in alloc;
        "{{\"tables\":[[[\"id\",\"int\",[]],[\"k\",\"int\",[]]]],\"exprs\":[[\"col\",\"id\"],[\"int\",{half}],[\"ge\",0,1]],\"nodes\":[[\"scan\",0,null],[\"filter\",0,2],[\"sink\",1]],\"root\":2}}"
    )?;
    let Ok(mut document) = read_document(alloc, text.into_bytes()) else {
        bail!("no document");
    };
    if document.nodes.len() < 1 {
        bail!("no scan");
    }
    document.nodes.replace(
        Node(0),
        IR::DataFrameScan {
            df: table,
            projection: None,
        },
    );
    Ok(document)
}
