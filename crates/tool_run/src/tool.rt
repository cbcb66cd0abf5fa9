// One run of the program: words and a document in, a table out.
ghost use Rattle.std.specs.Prelude.{◌≡◌, ◌≢◌, ◌<◌, ◌↔◌, ◌⊎◌, ℕ, List, Some, length};
ghost use Rattle.ps_document.specs.Document.{IsDocument};
ghost use Rattle.ps_plan.specs.PlanMeanings.{NothingBreaks};
ghost use Rattle.ps_plan.specs.Plans.{Plan};
ghost use Rattle.ps_plan.specs.Refusals.{IsValid};
ghost use Rattle.tool_words.specs.Words.{AreWords, IsExplain, IsRun, IsText, ReadsDocument, ReadsPlan};
ghost use Rattle.tool_run.specs.Outcomes.{line_of};
ghost use Rattle.tool_ends.specs.Outside.{Appends, AppendsFront, IsLonger, Rose, Tells, Writes, WritesFront};
ghost use Rattle.tool_run.specs.Asked.{IsTextPlan, IsWantedBy};
ghost use Rattle.tool_run.specs.Runs.{IsEnd, IsLeft, IsLine, IsPlanLeft, IsReadWhole, IsTextPlanLeft, IsToolText, help_text, version_text};

use crate::answer::{Wanted, answer};
use crate::outcome::Outcome;
use plain_queries::gate::Gate;
use ps_frame::functions::Functions;
use std::alloc::Global;
use std::sync::Wait;
use std::thread::Threads;
use tool_ends::reading::{MAX_DOCUMENT_BYTES, ReadError, read_source};
use tool_ends::sink::Sink;
use tool_ends::source::{Failed, Source};
use tool_ends::writing::write_whole;
use tool_words::command::{Command, command_of};

/// How a run ended.
#[derive(Clone, Copy, Debug, PartialEq, Eq)]
pub struct Ended {
    /// The exit status: 0 where the text was written whole, 2 where the words aren't a command, 3 where the bytes aren't
    /// a document, or for `text` its query has no reading or names no table, 4 where the plan isn't valid, 5 where it ends with a fault, 6 where a read failed, 7 where a write
    /// failed, 8 where the document is too long, and 9 for want of memory.
    pub status: u8,
}

/// Runs the program. With `run` it reads a document from the source, and writes the CSV text of the table that its plan
/// means to `out`; with `text` a document of a query, whose plan it answers so; with `explain` it writes the text of the
/// physical plan of its plan, and runs nothing; with `--help` and `--version` it writes what they ask for. Where it doesn't, it writes a line that
/// says why to `err`.
pub fn run_tool<R: Threads + Wait + Sync, F: Functions, G: Gate, S: Source, K: Sink, E: Sink>(
    rt: &R,
    alloc: Global,
    words: &[String],
    source: &mut S,
    out: &mut K,
    err: &mut E,
    functions: &F,
    gate: &G,
) -> Ended
    // The main theorem: with status 0, what was written is for `run` and `text` the CSV text of a whole table that the root
    // of the plan means for which the document asks, for `explain` the text of the physical plan that the rules of lowering
    // give for it, and the document was read to its end.
    ensures answered { result.status ≡ 0 → Writes (IsToolText (F.told functions.now) words.now (S.left source.old)) (K.written out.old) (K.written out.new) }
    ensures read { result.status ≡ 0 → ReadsDocument words.now → IsReadWhole (S.left source.old) (S.left source.new) }

    // Each other status has its cause; for 3, 4 and 5 it stands in the line.
    ensures usage { (result.status ≡ 2) ↔ ¬ AreWords words.now }
    ensures line { (line : List ℕ) × IsLine (F.told functions.now) words.now (S.left source.old) result.status line × Tells (E.written err.old) line (E.written err.new) (E.faults err.old) (E.faults err.new) }
    ensures read_fault { result.status ≡ 6 → Rose (S.faults source.old) (S.faults source.new) }
    ensures write_fault { result.status ≡ 7 → Rose (K.faults out.old) (K.faults out.new) }
    ensures too_long { result.status ≡ 8 → IsLonger MAX_DOCUMENT_BYTES (S.left source.old) }
    ensures reads { result.status ≢ 0 → result.status ≢ 2 → result.status ≢ 7 → result.status ≢ 9 → ReadsDocument words.now }

    // A write that failed left a front of the text, and any other status but 0 left nothing.
    ensures cut { result.status ≡ 7 → WritesFront (IsToolText (F.told functions.now) words.now (S.left source.old)) (K.written out.old) (K.written out.new) }
    ensures silent { result.status ≢ 0 → result.status ≢ 7 → K.written out.new ≡ K.written out.old }

    // A document that is too long, is none, or asks for no valid plan is told so, unless a read fails or memory is short.
    ensures longer { ReadsDocument words.now → (bytes : List ℕ) → S.left source.old ≡ Some bytes → MAX_DOCUMENT_BYTES < length bytes → (result.status ≡ 8) ⊎ (result.status ≡ 6) ⊎ (result.status ≡ 9) }
    ensures other { ReadsPlan words.now → (bytes : List ℕ) → IsLeft (S.left source.old) bytes → ¬ IsDocument bytes → (result.status ≡ 3) ⊎ (result.status ≡ 6) ⊎ (result.status ≡ 9) }
    ensures invalid { ReadsPlan words.now → (plan : Plan) → IsPlanLeft (S.left source.old) plan → ¬ IsValid (F.told functions.now) plan → (result.status ≡ 4) ⊎ (result.status ≡ 6) ⊎ (result.status ≡ 9) }

    ensures other_text { IsText words.now → (bytes : List ℕ) → IsLeft (S.left source.old) bytes → ((plan : Plan) → ¬ IsTextPlan bytes plan) → (result.status ≡ 3) ⊎ (result.status ≡ 6) ⊎ (result.status ≡ 9) }
    ensures invalid_text { IsText words.now → (plan : Plan) → IsTextPlanLeft (S.left source.old) plan → ((each : Plan) → IsTextPlanLeft (S.left source.old) each → ¬ IsValid (F.told functions.now) each)
        → (result.status ≡ 4) ⊎ (result.status ≡ 6) ⊎ (result.status ≡ 9) }

    // A valid plan that nothing can break is answered, unless a read or a write fails or memory is short.
    ensures complete { IsRun words.now → (plan : Plan) → IsPlanLeft (S.left source.old) plan → IsValid (F.told functions.now) plan → NothingBreaks (F.told functions.now) plan
        → ¬ Rose (S.faults source.old) (S.faults source.new) → ¬ Rose (K.faults out.old) (K.faults out.new) → (result.status ≡ 0) ⊎ (result.status ≡ 9) }

    ensures complete_text { IsText words.now → (plan : Plan) → IsTextPlanLeft (S.left source.old) plan → ((each : Plan) → IsTextPlanLeft (S.left source.old) each → IsValid (F.told functions.now) each × NothingBreaks (F.told functions.now) each)
        → ¬ Rose (S.faults source.old) (S.faults source.new) → ¬ Rose (K.faults out.old) (K.faults out.new) → (result.status ≡ 0) ⊎ (result.status ≡ 9) }

    // A valid plan is explained, unless a read or a write fails or memory is short.
    ensures complete_explain { IsExplain words.now → (plan : Plan) → IsPlanLeft (S.left source.old) plan → IsValid (F.told functions.now) plan
        → ¬ Rose (S.faults source.old) (S.faults source.new) → ¬ Rose (K.faults out.old) (K.faults out.new) → (result.status ≡ 0) ⊎ (result.status ≡ 9) }

    // Words that ask for no document leave the source as it is.
    ensures unread { ¬ ReadsDocument words.now → source.new ≡ source.old }
{
    let outcome = outcome_of(rt, alloc, words, source, out, functions, gate);
    write_line(err, &outcome);
    Ended {
        status: outcome.status(),
    }
}

/// How the run ends, without its line.
fn outcome_of<R: Threads + Wait + Sync, F: Functions, G: Gate, S: Source, K: Sink>(
    rt: &R,
    alloc: Global,
    words: &[String],
    source: &mut S,
    out: &mut K,
    functions: &F,
    gate: &G,
) -> Outcome
    ensures end { IsEnd (F.told functions.now) words.now (record { left = S.left source.old; left_after = S.left source.new; read_faults = S.faults source.old; read_faults_after = S.faults source.new; written = K.written out.old; written_after = K.written out.new; write_faults = K.faults out.old; write_faults_after = K.faults out.new }) result }
    ensures unread { ¬ ReadsDocument words.now → source.new ≡ source.old }
{
    match command_of(words) {
        None => Outcome::Usage,
        Some(Command::Help) => write_text(out, help().as_bytes()),
        Some(Command::Version) => write_text(out, version().as_bytes()),
        Some(Command::Run { options, serial }) => {
            let wanted = Wanted::Plan { options, serial };
            run(rt, alloc, wanted, words, source, out, functions, gate)
        }
        Some(Command::Text { options, serial }) => {
            let wanted = Wanted::Query { options, serial };
            run(rt, alloc, wanted, words, source, out, functions, gate)
        }
        Some(Command::Explain) => {
            let wanted = Wanted::Explanation;
            run(rt, alloc, wanted, words, source, out, functions, gate)
        }
    }
}

/// Answers the document of a source.
fn run<R: Threads + Wait + Sync, F: Functions, G: Gate, S: Source, K: Sink>(
    rt: &R,
    alloc: Global,
    wanted: Wanted,
    words: &[String],
    source: &mut S,
    out: &mut K,
    functions: &F,
    gate: &G,
) -> Outcome
    requires { IsWantedBy words.now wanted }
    ensures { IsEnd (F.told functions.now) words.now (record { left = S.left source.old; left_after = S.left source.new; read_faults = S.faults source.old; read_faults_after = S.faults source.new; written = K.written out.old; written_after = K.written out.new; write_faults = K.faults out.old; write_faults_after = K.faults out.new }) result }
{
    let bytes = match read_source(alloc, source) {
        Ok(bytes) => bytes,
        Err(error) => return unread(error),
    };
    match answer(rt, alloc, bytes, wanted, functions, gate) {
        Ok(text) => write_text(out, text.as_slice()),
        Err(outcome) => outcome,
    }
}

fn unread(error: ReadError) -> Outcome
    ensures failed { error ≡ ReadError.Failed → result ≡ Outcome.ReadFault }
    ensures too_long { error ≡ ReadError.TooLong → result ≡ Outcome.TooLong }
    ensures memory { error ≡ ReadError.OutOfMemory → result ≡ Outcome.OutOfMemory }
{
    match error {
        ReadError::Failed => Outcome::ReadFault,
        ReadError::TooLong => Outcome::TooLong,
        ReadError::OutOfMemory => Outcome::OutOfMemory,
    }
}

/// Writes a text; where that fails, a front of it stands there.
fn write_text<K: Sink>(out: &mut K, text: &[u8]) -> Outcome
    ensures outcomes { (result ≡ Outcome.Written) ⊎ (result ≡ Outcome.WriteFault) }
    ensures whole { result ≡ Outcome.Written → Appends (K.written out.old) text.now (K.written out.new) }
    ensures front { result ≡ Outcome.WriteFault → AppendsFront (K.written out.old) text.now (K.written out.new) }
    ensures failed { result ≡ Outcome.WriteFault → Rose (K.faults out.old) (K.faults out.new) }
{
    match write_whole(out, text) {
        Ok(()) => Outcome::Written,
        Err(Failed) => Outcome::WriteFault,
    }
}

/// How the program is used.
fn help() -> &'static str
    ensures { result.now ≡ help_text }
{
    "plan_tool answers queries: a document of tables and a plan, or for `text` of tables, their names and a query, on standard input, the table as CSV on standard output, or for `explain` the physical plan.\n\nplan_tool run [--workers N] [--rows N] [--partitions N] [--seed N] [--serial]\nplan_tool text [--workers N] [--rows N] [--partitions N] [--seed N] [--serial]\nplan_tool explain [--workers N] [--rows N] [--partitions N] [--seed N] [--serial]\nplan_tool --help\nplan_tool --version\n"
}

/// The name and the version of the program.
fn version() -> &'static str
    ensures { result.now ≡ version_text }
{
    "plan_tool 0.1.0\n"
}

/// Writes the line of an outcome; where that fails, a front of it stands there.
pub fn write_line<E: Sink>(err: &mut E, outcome: &Outcome)
    ensures front { AppendsFront (E.written err.old) (line_of outcome.now) (E.written err.new) }
    ensures whole { ¬ Rose (E.faults err.old) (E.faults err.new) → Appends (E.written err.old) (line_of outcome.now) (E.written err.new) }
{
    // A line that can't be written changes no status.
    let _ = write_whole(err, outcome.line().as_bytes());
}
