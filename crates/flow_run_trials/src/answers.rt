// Documents of plans, and their plain answers as text.
use plain_queries::query::run_query_serial;
use ps_document::document::{Document, read_document};
use ps_frame::refusal::PolarsError;
use ps_options::options::Options;
use std::alloc::{AllocError, Global};
use std::test::Fail;
use tool_ends::csv_text::csv_text;
use tool_ends::functions::ToolFunctions;

/// The document of this text.
pub fn document(alloc: Global, text: &str) -> Result<Document, Fail> {
    let text = String::from_str(alloc, text)?;
    let Ok(document) = read_document(alloc, text.into_bytes()) else {
        return Err(Fail::from("no document"));
    };
    Ok(document)
}

/// The plain answer of a document of this text, as CSV, or the error's text.
pub fn plain_answer(alloc: Global, text: &str, options: &Options) -> Result<String, Fail> {
    let Document {
        nodes,
        mut exprs,
        root,
    } = document(alloc, text)?;
    match run_query_serial(alloc, root, nodes, &mut exprs, &ToolFunctions, options) {
        Ok(Some(table)) => csv(alloc, csv_text(alloc, &table)),
        Ok(None) => Err(Fail::from("no table")),
        Err(error) => Ok(error_text(alloc, &error)?),
    }
}

/// The text of an error.
pub fn error_text(alloc: Global, error: &PolarsError) -> Result<String, AllocError> {
    let mut text = String::new(alloc);
    write!(text, "error {error}")?;
    Ok(text)
}

/// A text that was made of a table.
pub fn csv(alloc: Global, text: Result<Vec<u8>, PolarsError>) -> Result<String, Fail> {
    let Ok(text) = text else {
        return Err(Fail::from("no text of a table"));
    };
    let Ok(text) = str::from_utf8(text.as_slice()) else {
        return Err(Fail::from("no text"));
    };
    Ok(String::from_str(alloc, text)?)
}
