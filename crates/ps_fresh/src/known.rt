//! Answers that are remembered by the numbers of expressions.
ghost use Rattle.std.specs.Prelude.{◌≡◌, ◌==◌, ◌<◌, ℕ, [], Err, IfOk, OnErr, OnOk, Some, length, if◌then◌else◌};
ghost use Rattle.ps_frame.specs.declared.refusal.PolarsError.{PolarsError};
ghost use Rattle.ps_fresh.specs.Known.{known_at};

use ps_frame::refusal::PolarsResult;
use pu_base::Node;
use std::alloc::Global;
use std::marker::Model;

/// What is known of expressions, by their numbers.
#[derive(Drop)]
pub struct KnownAnswers {
    known: Vec<Option<bool>>,
}

impl Model for KnownAnswers {
    ghost use Rattle.std.specs.Prelude.{Bool, List, Option};

    ghost Value = { List (Option Bool) };

    ghost view = { λ a. a.known.items };
}

impl KnownAnswers {
    /// Nothing known, with room for what is known of so many expressions.
    ///
    /// Fails only for want of memory.
    pub(crate) fn with_capacity(alloc: Global, capacity: usize) -> PolarsResult<KnownAnswers>
        ensures empty { IfOk result (λ known. known ≡ []) }
        ensures memory { OnErr result (result ≡ Err PolarsError.OutOfMemory) }
    {
        Ok(KnownAnswers {
            known: Vec::with_capacity(alloc, capacity)?,
        })
    }

    /// What is known of an expression, if anything.
    pub(crate) fn get(&self, expr: Node) -> Option<bool>
        ensures { result ≡ known_at self.now expr.0 }
    {
        match self.known.get(expr.0) {
            Some(known) => *known,
            None => None,
        }
    }

    /// Makes room to note something of an expression.
    fn reach(&mut self, expr: Node) -> PolarsResult<()>
        ensures there { OnOk result (expr.0 < length self.new) }
        ensures same { (n : ℕ) → known_at self.new n ≡ known_at self.old n }
        ensures memory { OnErr result (result ≡ Err PolarsError.OutOfMemory) }
    {
        while self.known.len() <= expr.0 {
            self.known.push(None)?;
        }
        Ok(())
    }

    /// Notes the answer for an expression.
    pub(crate) fn note(&mut self, expr: Node, is: bool) -> PolarsResult<()>
        ensures noted { OnOk result ((n : ℕ) → known_at self.new n ≡ (if n == expr.0 then Some is else known_at self.old n)) }
        ensures same { OnErr result ((n : ℕ) → known_at self.new n ≡ known_at self.old n) }
        ensures memory { OnErr result (result ≡ Err PolarsError.OutOfMemory) }
    {
        self.reach(expr)?;
        self.known[expr.0] = Some(is);
        Ok(())
    }
}
