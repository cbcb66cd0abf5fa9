//! Expressions of nodes.
ghost use Rattle.std.specs.Prelude.{◌≡◌, ℕ, Err, IfOk, IsSome, OnErr, OnOk, Some};
ghost use Rattle.ps_copies.specs.Copies.{KeepsTrees};
ghost use Rattle.ps_frame.specs.Eval.{eval};
ghost use Rattle.ps_frame.specs.Evaluated.{StandsFor};
ghost use Rattle.ps_frame.specs.Tables.{whole};
ghost use Rattle.ps_frame.specs.Trees.{IsComplete, IsExpression, tree_at};
ghost use Rattle.ps_frame.specs.Typing.{kind_over};
ghost use Rattle.ps_frame.specs.declared.refusal.PolarsError.{PolarsError};
ghost use Rattle.ps_meaning.specs.Steps.{name_in};
ghost use Rattle.plain_nodes.specs.Exprs.{expr_shown};

use ps_copies::exprs::copy_expr;
use ps_copies::try_clone::TryClone;
use ps_expr_eval::evaluate::evaluate;
use ps_frame::expr::AExpr;
use ps_frame::frame::DataFrame;
use ps_frame::refusal::{PolarsError, PolarsResult};
use ps_frame::value::Evaluated;
use ps_meaning::options::{ExprIR, OutputName};
use pu_base::{Arena, Node};
use std::alloc::Global;
use std::marker::Model;

/// An expression with a name, in an arena of its own, which holds all that it names.
#[derive(Drop)]
pub struct StreamExpr {
    exprs: Arena<AExpr>,
    root: Node,
    name: OutputName,
}

impl Model for StreamExpr {
    ghost use Rattle.ps_frame.specs.Trees.{IsExpression};
    ghost use Rattle.plain_nodes.specs.Exprs.{ExprParts};

    ghost Value = { ExprParts };

    ghost view = { λ e. record { exprs = e.exprs.items; root = e.root; name = e.name } };

    ghost invariant = { λ e. IsExpression e.exprs.items e.root };
}

impl StreamExpr {
    /// A copy of an expression of an arena, with all that it names.
    ///
    /// Fails only for want of memory.
    pub fn new(alloc: Global, expr: &ExprIR, arena: &Arena<AExpr>) -> PolarsResult<StreamExpr>
        requires { IsExpression arena.now.items expr.now.node }
        ensures same { IfOk result (λ e. expr_shown e ≡ (name_in expr.now.output_name, tree_at arena.now.items expr.now.node)) }
        ensures memory { OnErr result (result ≡ Err PolarsError.OutOfMemory) }
    {
        let mut exprs = Arena::new(alloc);
        // No `?`: the error of a copy is another, and it stands for want of memory alone.
        let Ok(root) = copy_expr(alloc, expr.node, arena, &mut exprs) else {
            return Err(PolarsError::OutOfMemory);
        };
        let Ok(name) = expr.output_name.try_clone(alloc) else {
            return Err(PolarsError::OutOfMemory);
        };
        Ok(StreamExpr { exprs, root, name })
    }

    /// A copy of the expression in another arena, behind what stands there.
    ///
    /// Fails only for want of memory; the other arena may then have grown.
    pub fn copy_into(&self, alloc: Global, into: &mut Arena<AExpr>) -> PolarsResult<ExprIR>
        ensures name { IfOk result (λ e. name_in e.output_name ≡ (expr_shown self.now).0) }
        ensures tree { IfOk result (λ e. tree_at into.new.items e.node ≡ (expr_shown self.now).1) }
        ensures complete { IfOk result (λ e. IsComplete (expr_shown self.now).1) }
        ensures kept { OnOk result (KeepsTrees into.old.items into.new.items) }
        ensures memory { OnErr result (result ≡ Err PolarsError.OutOfMemory) }
    {
        // No `?`: the error of a copy is another, and it stands for want of memory alone.
        let Ok(node) = copy_expr(alloc, self.root, &self.exprs, into) else {
            return Err(PolarsError::OutOfMemory);
        };
        let Ok(output_name) = self.name.try_clone(alloc) else {
            return Err(PolarsError::OutOfMemory);
        };
        Ok(ExprIR { node, output_name })
    }

    /// The column of the expression over a table over which it has a kind: a faulty cell holds one of that cell's causes,
    /// and `broken` is empty exactly where nothing ended the column early, and else holds one of the causes that did.
    ///
    /// Fails only for want of memory.
    pub fn evaluate(&self, alloc: Global, df: &DataFrame) -> PolarsResult<Evaluated>
        requires { IsSome (kind_over df.now.schema (expr_shown self.now).1) }
        ensures stands { IfOk result (λ evaluated. (node : ℕ) → StandsFor evaluated (eval node (whole df.now) (expr_shown self.now).1)) }
        ensures kind { IfOk result (λ evaluated. kind_over df.now.schema (expr_shown self.now).1 ≡ Some evaluated.dtype) }
        ensures memory { OnErr result (result ≡ Err PolarsError.OutOfMemory) }
    {
        evaluate(alloc, self.root, &self.exprs, df)
    }
}
