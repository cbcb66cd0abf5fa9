// Answers queries: a document of tables and a plan in, the table out.
#![tactic(auto)]

use plain_queries::gate::NoGate;
use std::alloc::{AllocError, Global};
use std::env::{self, Env};
use std::io::ErrorKind;
use std::process::ExitCode;
use tool_run::functions::ToolFunctions;
use tool_run::outcome::Outcome;
use tool_run::sink::StdSink;
use tool_run::source::StdSource;
use tool_run::tool::{run_tool, write_line};

/// The words behind the program's name; none where they can't be read as text.
///
/// Fails only for want of memory.
fn words_of<R: Env + Alloc<A = Global>>(rt: &R) -> Result<Vec<String>, AllocError> {
    let mut words = Vec::new(rt.alloc());
    match env::args(rt) {
        Ok(args) => {
            for word in args.skip(1) {
                words.push(word)?;
            }
        }
        Err(error) => {
            if error.kind() == ErrorKind::OutOfMemory {
                return Err(AllocError);
            }
        }
    }
    Ok(words)
}

fn main(rt: HostRuntime) -> ExitCode {
    let mut source = StdSource::new(rt.stdin());
    let mut out = StdSink::new(rt.stdout());
    let mut err = StdSink::new(rt.stderr());
    let Ok(words) = words_of(&rt) else {
        write_line(&mut err, &Outcome::OutOfMemory);
        return ExitCode::from(Outcome::OutOfMemory.status());
    };
    let ended = run_tool(
        &rt,
        rt.alloc(),
        words.as_slice(),
        &mut source,
        &mut out,
        &mut err,
        &ToolFunctions,
        &NoGate,
    );
    ExitCode::from(ended.status)
}
