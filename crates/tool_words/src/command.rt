//! The commands of the program.
ghost use Rattle.std.specs.Prelude.{◌≡◌, ◌∷◌, Bool, ℕ, List, String, Some, IfSome, IfNone, codes, map, string_bytes};
ghost use Rattle.std.specs.declared.alloc.Global.{Global};
ghost use Rattle.ps_options.specs.declared.options.Options.{Options};
ghost use Rattle.tool_words.specs.declared.command.Command.{Command};
ghost use Rattle.tool_words.specs.Words.{AreWords, IsCommand, IsExplain, IsNamed, IsNamedCommand, IsRun, IsText};

use crate::settings::{Told, read_settings};
use ps_options::options::Options;

/// What the program is asked to do.
#[derive(Clone, Copy, Debug, PartialEq, Eq)]
pub enum Command {
    /// To answer a document.
    Run {
        /// How its query is run.
        options: Options,
        /// Whether it is run without workers.
        serial: bool,
    },
    /// To answer a query of the pipeline language over tables.
    Text {
        /// How it is run.
        options: Options,
        /// Whether it is run without workers.
        serial: bool,
    },
    /// To tell the physical plan of a document's plan. The settings are read, and nothing is run by them.
    Explain,
    /// To tell how the program is used.
    Help,
    /// To tell its version.
    Version,
}

/// The command that the words are, the program's own name left out; none where they are no command.
///
/// A command is `run`, `text` or `explain` and then any of `--workers N`, `--rows N`, `--partitions N`, `--seed N` and
/// `--serial`, each at most once and in any order, or `--help` alone, or `--version` alone. N is a word of 1 to 20 decimal digits whose number
/// is 1 to 256, 1 to 2^20, 1 to 1024, and one of 64 bits. Where they are not set, they are 4, 100000, 16 and 0.
#[tactic(auto, using(crate::proofs::OneCommand::only_from, crate::proofs::OneCommand::run_from, crate::proofs::OneCommand::text_from, crate::proofs::OneCommand::explain_from))]
pub fn command_of(words: &[String]) -> Option<Command>
    ensures some { IfSome result (λ c. IsCommand words.now c) }
    ensures only { (c : Command) → IsCommand words.now c → result ≡ Some c }
    ensures run { IsRun words.now → (options : Options) × (serial : Bool) × (result ≡ Some (Command.Run options serial)) }
    ensures text { IsText words.now → (options : Options) × (serial : Bool) × (result ≡ Some (Command.Text options serial)) }
    ensures explain { IsExplain words.now → result ≡ Some Command.Explain }
    ensures none { IfNone result (¬ AreWords words.now) }
{
    let (command, rest) = words.split_first()?;
    match command.as_str() {
        "run" => {
            let (options, serial) = options_of(rest)?;
            Some(Command::Run { options, serial })
        }
        "text" => {
            let (options, serial) = options_of(rest)?;
            Some(Command::Text { options, serial })
        }
        "explain" => {
            // They have to be settings; none of them changes a plan.
            let _settings = options_of(rest)?;
            Some(Command::Explain)
        }
        "--help" if rest.is_empty() => Some(Command::Help),
        "--version" if rest.is_empty() => Some(Command::Version),
        _ => None,
    }
}

/// The options that the settings behind a command's name give, and whether it is run without workers; none where the words are
/// no settings.
fn options_of(words: &[String]) -> Option<(Options, bool)>
    ensures some { (name : List ℕ) (all : List (String Global)) → map string_bytes all ≡ name ∷ map string_bytes words.now → IfSome result (λ t. IsNamedCommand name all t.0 t.1) }
    ensures none { (name : List ℕ) (all : List (String Global)) → map string_bytes all ≡ name ∷ map string_bytes words.now → IfNone result (¬ IsNamed name all) }
{
    let told = read_settings(words, Told::default())?;
    let options = Options::new(
        told.workers.unwrap_or(4) as usize,
        told.rows.unwrap_or(100_000) as usize,
        told.partitions.unwrap_or(16) as usize,
        told.seed.unwrap_or(0),
    )?;
    Some((options, told.serial))
}
