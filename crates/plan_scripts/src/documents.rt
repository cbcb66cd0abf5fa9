//! Documents of plans, with the physical plans that the rules give for them.
use ps_document::document::{Document, read_document};
use std::alloc::Global;
use std::test::Fail;

/// The document of a plan of these nodes, of which the last is the root; it fails where these can't be read.
pub fn document(alloc: Global, nodes: &str) -> Result<Document, Fail> {
    let mut text = String::new(alloc);
    write!(text, "{{\"tables\":[")?;
    text.push_str(TABLES)?;
    text.push_str("],\"exprs\":[")?;
    text.push_str(EXPRS)?;
    text.push_str("],\"nodes\":[")?;
    let mut last = 0usize;
    for (i, node) in nodes.split("; ").enumerate() {
        let lead = if i > 0 { "," } else { "" };
        text.push_str(lead)?;
        text.push_str(node)?;
        last = i;
    }
    write!(text, "],\"root\":{last}}}")?;
    let Ok(document) = read_document(alloc, text.into_bytes()) else {
        return Err(Fail::from("no document"));
    };
    Ok(document)
}

/// The text of a physical plan with `/` for the end of a line.
pub fn in_one_line(alloc: Global, text: &str) -> Result<String, Fail> {
    let mut line = String::new(alloc);
    for c in text.chars() {
        line.push(if c == '\n' { '/' } else { c })?;
    }
    Ok(line)
}

const TABLES: &str = r#"[["a","int",[1,2]],["b","int",[3,4]]],[["c","int",[5]]]"#;

const EXPRS: &str =
    r#"["col","a"],["col","b"],["int",1],["gt",0,2],["sum",0],["gt",0,4],["reverse",1],["len"],["sum",1]"#;

/// A plan a line: its nodes, of which the last is the root, and behind ` -> ` its physical plan with `/` for the end of a
/// line, worked out by hand from the rules.
pub const CASES: &str = r#"
["scan",0,null]; ["sink",0] -> 0 in-memory-source 0 -/1 in-memory-sink 1 0.0/
["scan",0,["b"]]; ["sink",0] -> 0 in-memory-source 0 -/1 simple-projection 0 0.0/2 in-memory-sink 1 1.0/
["scan",0,null]; ["project",0,["a","b"]]; ["sink",1] -> 0 in-memory-source 0 -/1 simple-projection 1 0.0/2 in-memory-sink 2 1.0/
["scan",0,null]; ["select",0,[["s",4],["b",1]]]; ["sink",1] -> 0 in-memory-source 0 -/1 multiplexer 0 0.0/2 reduce 1 1.1/3 zip 1 1.0,2.0/4 select 1 3.0/5 in-memory-sink 2 4.0/
["scan",0,null]; ["hstack",0,[["c",3]]]; ["sink",1] -> 0 in-memory-source 0 -/1 with-columns 1 0.0/2 in-memory-sink 2 1.0/
["scan",0,null]; ["hstack",0,[["a",4],["c",1]]]; ["sink",1] -> 0 in-memory-source 0 -/1 multiplexer 0 0.0/2 reduce 1 1.1/3 zip 1 1.0,2.0/4 select 1 3.0/5 in-memory-sink 2 4.0/
["scan",0,null]; ["filter",0,3]; ["sink",1] -> 0 in-memory-source 0 -/1 filter 1 0.0/2 in-memory-sink 2 1.0/
["scan",0,null]; ["filter",0,5]; ["sink",1] -> 0 in-memory-source 0 -/1 multiplexer 0 0.0/2 reduce 1 1.1/3 zip 1 1.0,2.0/4 filter 1 3.0/5 simple-projection 1 4.0/6 in-memory-sink 2 5.0/
["scan",0,null]; ["slice",0,1,2]; ["sink",1] -> 0 in-memory-source 0 -/1 slice 1 0.0/2 in-memory-sink 2 1.0/
["scan",0,null]; ["slice",0,-3,2]; ["sink",1] -> 0 in-memory-source 0 -/1 negative-slice 1 0.0/2 in-memory-sink 2 1.0/
["scan",0,null]; ["slice",0,-3,0]; ["sink",1] -> 0 in-memory-source 0 -/1 slice 1 0.0/2 in-memory-sink 2 1.0/
["scan",0,null]; ["row_index",0,"n",null]; ["sink",1] -> 0 in-memory-source 0 -/1 with-row-index 1 0.0/2 in-memory-sink 2 1.0/
["scan",0,null]; ["map",0,0]; ["sink",1] -> 0 in-memory-source 0 -/1 map 1 0.0/2 in-memory-sink 2 1.0/
["scan",0,null]; ["map",0,1]; ["sink",1] -> 0 in-memory-source 0 -/1 in-memory-map 1 0.0/2 in-memory-sink 2 1.0/
["scan",0,null]; ["sort",0,[1],[false],[false],[0,3]]; ["sink",1] -> 0 in-memory-source 0 -/1 sort 1 0.0/2 in-memory-sink 2 1.0/
["scan",0,null]; ["union",[0,0],[-1,1]]; ["sink",1] -> 0 in-memory-source 0 -/1 in-memory-source 0 -/2 ordered-union 1 0.0,1.0/3 negative-slice 1 2.0/4 in-memory-sink 2 3.0/
["scan",0,null]; ["scan",1,null]; ["hconcat",[0,1]]; ["sink",2] -> 0 in-memory-source 0 -/1 in-memory-source 1 -/2 zip-null-extend 2 0.0,1.0/3 in-memory-sink 3 2.0/
["scan",0,null]; ["group_by",0,[["a",0]],[["s",8]],false,null]; ["sink",1] -> 0 in-memory-source 0 -/1 group-by 1 0.0/2 in-memory-sink 2 1.0/
["scan",0,null]; ["group_by",0,[["a",0]],[["s",8]],true,null]; ["sink",1] -> 0 in-memory-source 0 -/1 in-memory-map 1 0.0/2 in-memory-sink 2 1.0/
["scan",0,null]; ["join",0,0,"inner",[6],[0],"_r",false,"m:m",[0,3]]; ["sink",1] -> 0 in-memory-source 0 -/1 multiplexer 0 0.0/2 simple-projection 1 1.1/3 in-memory-map 1 2.0/4 zip 1 1.0,3.0/5 in-memory-source 0 -/6 equi-join 1 4.0,5.0/7 slice 1 6.0/8 in-memory-sink 2 7.0/
["scan",0,null]; ["join",0,0,"semi",[6],[0],"_r",false,"m:m",[0,3]]; ["sink",1] -> 0 in-memory-source 0 -/1 in-memory-source 0 -/2 in-memory-join 1 0.0,1.0/3 in-memory-sink 2 2.0/
["scan",0,null]; ["distinct",0,["b","a"],false,"none",[0,5]]; ["sink",1] -> 0 in-memory-source 0 -/1 group-by 1 0.0/2 filter 1 1.0/3 simple-projection 1 2.0/4 slice 1 3.0/5 in-memory-sink 2 4.0/
["scan",0,null]; ["distinct",0,null,true,"last",null]; ["sink",1] -> 0 in-memory-source 0 -/1 in-memory-map 1 0.0/2 in-memory-sink 2 1.0/
["scan",0,null]; ["cache",0,7]; ["sink",1] -> 0 in-memory-source 0 -/1 in-memory-sink 2 0.0/
["scan",0,null]; ["cache",0,7]; ["union",[1,1],null]; ["sink",2] -> 0 in-memory-source 0 -/1 multiplexer 0 0.0/2 ordered-union 2 1.0,1.1/3 in-memory-sink 3 2.0/
["scan",0,null]; ["cache",0,7]; ["cache",0,7]; ["union",[1,2],null]; ["sink",3] -> 0 in-memory-source 0 -/1 multiplexer 0 0.0/2 ordered-union 3 1.0,1.1/3 in-memory-sink 4 2.0/
["scan",0,null]; ["cache",0,7]; ["cache",0,8]; ["union",[1,2],null]; ["sink",3] -> 0 in-memory-source 0 -/1 in-memory-source 0 -/2 ordered-union 3 0.0,1.0/3 in-memory-sink 4 2.0/
["scan",0,null]; ["cache",0,7]; ["filter",1,3]; ["union",[1,2,1],[1,2]]; ["sink",3] -> 0 in-memory-source 0 -/1 multiplexer 0 0.0/2 filter 2 1.2/3 ordered-union 3 1.0,2.0,1.1/4 slice 3 3.0/5 in-memory-sink 4 4.0/
["scan",0,null]; ["cache",0,7]; ["filter",1,3]; ["cache",2,8]; ["union",[3,2,3],null]; ["sink",4] -> 0 in-memory-source 0 -/1 multiplexer 0 0.0/2 filter 2 1.1/3 multiplexer 2 2.0/4 filter 2 1.0/5 ordered-union 4 3.0,4.0,3.1/6 in-memory-sink 5 5.0/
"#;
