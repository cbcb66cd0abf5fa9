// Functions over tables that a user hands in.
ghost use Rattle.std.specs.Prelude.{◌≡◌, ◌<◌, Some, IfOk, IsNone, Err};
ghost use Rattle.ps_frame.specs.Functions.{AnswerAlike, Functions as FunctionsTold, IsLawful};

use crate::frame::DataFrame;
use crate::schema::Schema;
use std::alloc::Global;

/// Why a function gives no table.
#[derive(Clone, Copy, Debug, PartialEq, Eq)]
pub enum CallError {
    Fault,
    OutOfMemory,
}

/// Numbered functions over tables. What a number answers is fixed by the type.
pub trait Functions: Sync {
    /// How many there are, which of them stream, what each answers to a table, and the schema that it declares.
    ghost told: { Self → FunctionsTold };

    /// How many functions there are.
    fn count(&self) -> usize
        ensures { result ≡ (told self.now).count };

    /// Whether function `n` may be given its rows in parts.
    fn streamable(&self, n: usize) -> bool
        requires { n < (told self.now).count }
        ensures { result ≡ (told self.now).streams n };

    /// The schema of the answers that function `n` gives to tables of a schema; `Fault` where it takes none of that schema.
    fn schema(&self, alloc: Global, n: usize, given: &Schema) -> Result<Schema, CallError>
        requires { n < (told self.now).count }
        ensures declares { IfOk result (λ s. (told self.now).declared n given.now ≡ Some s) }
        ensures fault { result ≡ Err CallError.Fault → IsNone ((told self.now).declared n given.now) };

    /// What function `n` answers to a table; `Fault` where it answers none.
    fn call(&self, alloc: Global, n: usize, df: DataFrame) -> Result<DataFrame, CallError>
        requires { n < (told self.now).count }
        ensures answers { IfOk result (λ f. (told self.now).answer n df ≡ Some f) }
        ensures fault { result ≡ Err CallError.Fault → IsNone ((told self.now).answer n df) };

    /// Answers have the declared schema, and functions that stream answer part by part.
    ghost lawful: { (f : Self) → IsLawful (told f) };

    /// What a number streams, answers and declares doesn't depend on the value.
    ghost fixed: { (f g : Self) → AnswerAlike (told f) (told g) };
}

fn crosses_threads<T: Send + Sync>(_value: &T) {}

/// A table may be shared and sent among threads.
pub fn is_shared(df: &DataFrame) {
    crosses_threads(df);
}
