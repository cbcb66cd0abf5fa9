// Runs of the program over sources and sinks in memory.
use plain_queries::gate::NoGate;
use std::alloc::Global;
use std::sync::Wait;
use std::test::Fail;
use std::thread::Threads;
use tool_run::functions::ToolFunctions;
use tool_run::sink::{MemSink, StdSink};
use tool_run::source::{MemSource, StdSource};
use tool_run::tool::run_tool;

const FILTER: &str =
    r#"{"tables":[[["a","int",[1,2,3]]]],"exprs":[["col","a"],["int",1],["gt",0,1]],"nodes":[["scan",0,null],["filter",0,2],["sink",1]],"root":2}"#;

/// What a run is given.
#[derive(Drop)]
struct Given<'a> {
    words: &'a [&'a str],
    document: &'a [u8],
    chunk: usize,
    failing_read: Option<u64>,
    room: usize,
    err_fails: bool,
}

/// What a run left.
#[derive(Drop)]
struct Left {
    status: u8,
    out: Vec<u8>,
    err: Vec<u8>,
}

fn whole(document: &str) -> Given<'_> {
    Given {
        words: &["run"],
        document: document.as_bytes(),
        chunk: 4096,
        failing_read: None,
        room: 4096,
        err_fails: false,
    }
}

fn run<R: Threads + Wait + Sync + Alloc<A = Global>>(
    rt: &R,
    given: &Given<'_>,
) -> Result<Left, Fail> {
    let alloc = rt.alloc();
    let mut words = Vec::new(alloc);
    for word in given.words {
        words.push(String::from_str(alloc, word)?)?;
    }
    let mut failing = Vec::new(alloc);
    if let Some(call) = given.failing_read {
        failing.push(call)?;
    }
    let bytes = Vec::from_slice(alloc, given.document)?;
    let chunk = given.chunk.max(1);
    let mut source = MemSource::new(bytes, chunk, failing);
    // By hand, for a message of its own, as below.
    let Ok(mut out) = MemSink::new(alloc, given.room, Vec::new(alloc)) else {
        return Err(Fail::from("no memory"));
    };
    let mut err_failing = Vec::new(alloc);
    if given.err_fails {
        err_failing.push(0)?;
    }
    let Ok(mut err) = MemSink::new(alloc, 64, err_failing) else {
        return Err(Fail::from("no memory"));
    };
    let ended = run_tool(
        rt,
        alloc,
        words.as_slice(),
        &mut source,
        &mut out,
        &mut err,
        &ToolFunctions,
        &NoGate,
    );
    Ok(Left {
        status: ended.status,
        out: Vec::from_slice(alloc, out.bytes())?,
        err: Vec::from_slice(alloc, err.bytes())?,
    })
}

#[test]
fn each_read_may_fail(rt: HostRuntime) -> Result<(), Fail> {
    // One byte a call, and one call more for the end.
    for call in 0..FILTER.len() as u64 + 1 {
        let given = Given {
            chunk: 1,
            failing_read: Some(call),
            ..whole(FILTER)
        };
        let left = run(&rt, &given)?;
        assert_eq!(rt; left.status, 6);
        assert_eq!(rt; left.out.len(), 0);
        assert_eq!(rt; left.err.as_slice(), "ReadFault\n".as_bytes());
    }
    let given = Given {
        chunk: 1,
        ..whole(FILTER)
    };
    assert_eq!(rt; run(&rt, &given)?.status, 0);
    Ok(())
}

#[test]
fn room_may_end(rt: HostRuntime) -> Result<(), Fail> {
    let text = "a\n2\n3\n".as_bytes();
    for room in 0..text.len() {
        let given = Given {
            room,
            ..whole(FILTER)
        };
        let left = run(&rt, &given)?;
        assert_eq!(rt; left.status, 7);
        assert_eq!(rt; left.out.as_slice(), &text[..room]);
        assert_eq!(rt; left.err.as_slice(), "WriteFault\n".as_bytes());
    }
    let given = Given {
        room: text.len(),
        ..whole(FILTER)
    };
    assert_eq!(rt; run(&rt, &given)?.status, 0);
    Ok(())
}

#[test]
fn a_line_that_fails_keeps_the_status(rt: HostRuntime) -> Result<(), Fail> {
    let given = Given {
        words: &["walk"],
        err_fails: true,
        ..whole(FILTER)
    };
    let left = run(&rt, &given)?;
    assert_eq!(rt; left.status, 2);
    assert_eq!(rt; left.err.len(), 0);
    Ok(())
}

#[test]
fn adapters_read_and_write(rt: HostRuntime) -> Result<(), Fail> {
    let alloc = rt.alloc();
    let words = vec![in alloc; String::from_str(alloc, "run")?]?;
    let mut source = StdSource::new(FILTER.as_bytes());
    let mut out = StdSink::new(Vec::<u8>::new(alloc));
    let mut err = StdSink::new(Vec::<u8>::new(alloc));
    let ended = run_tool(
        &rt,
        alloc,
        words.as_slice(),
        &mut source,
        &mut out,
        &mut err,
        &ToolFunctions,
        &NoGate,
    );
    assert_eq!(rt; ended.status, 0);
    assert_eq!(rt; out.writer().as_slice(), "a\n2\n3\n".as_bytes());
    assert_eq!(rt; err.writer().len(), 0);
    Ok(())
}
