// The lines of refusals.
use ps_frame::expr::What;
use ps_frame::refusal::{Bound, Compute, PolarsError, Why};
use pu_base::{Node, PlSmallStr};
use std::alloc::{AllocError, Global};
use std::test::Fail;

const LINES: &str = "InvalidPlan Shape at 0
ColumnNotFound at 1: z
ComputeError StrictCast at 1
OutOfBounds Rows at 1
Unsupported FileSink at 1
OutOfMemory";

// The refusal that begins with a word.
fn refusal(alloc: Global, word: &str) -> Result<PolarsError, Fail> {
    let node = Node(1);
    Ok(match word {
        "InvalidPlan" => PolarsError::InvalidPlan {
            node: Node(0),
            why: Why::Shape,
        },
        "ColumnNotFound" => PolarsError::ColumnNotFound {
            node,
            name: PlSmallStr::from_str(alloc, "z")?,
        },
        "ComputeError" => PolarsError::ComputeError {
            node,
            why: Compute::StrictCast,
        },
        "OutOfBounds" => PolarsError::OutOfBounds {
            node,
            why: Bound::Rows,
        },
        "Unsupported" => PolarsError::Unsupported {
            node,
            what: What::FileSink,
        },
        _ => PolarsError::from(AllocError),
    })
}

#[test]
fn refusals_are_shown_on_a_line(rt: HostRuntime) -> Result<(), Fail> {
    for line in LINES.lines() {
        let (word, _) = line.split_once(" ").unwrap_or((line, ""));
        let refusal = refusal(rt.alloc(), word)?;
        assert_eq!(rt; format!(in rt.alloc(); "{refusal}")?.as_str(), line);
    }
    Ok(())
}
