// Expressions that are built with their depth, so that none grows too deep.
ghost use Rattle.std.specs.Prelude.{◌≡◌, ◌<◌, ◌≤◌, Err, IfErr, IfOk};
ghost use Rattle.text_queries.specs.Queries.{Binary, Call, expr_depth};
ghost use Rattle.text_reading.specs.Reading.{IsRefusal};
ghost use Rattle.text_queries.specs.Views.{expr_of};
ghost use Rattle.text_tokens.specs.declared.error.TextError.TheVariants as refusal;

use ps_frame::expr::Operator;
use std::alloc::Global;
use text_queries::query::TextExpr;
use text_queries::words::TextFn;
use text_tokens::error::TextError;

/// How deep an expression of a query may be.
const DEPTH: usize = 200;

/// An expression of a query, at most 200 deep, with its depth.
#[derive(Drop)]
pub struct Deep {
    pub expr: TextExpr,
    pub depth: usize,
    ghost exact: { depth ≡ expr_depth (expr_of expr) },
    ghost shallow: { depth ≤ 200 },
}

impl Deep {
    /// An expression that holds no other.
    pub fn leaf(expr: TextExpr) -> Deep
        requires { expr_depth (expr_of expr) ≡ 1 }
        ensures { expr_of result.expr ≡ expr_of expr }
    {
        Deep { expr, depth: 1 }
    }

    /// A function of an expression; NoReading exactly where that is too deep.
    pub fn call(alloc: Global, name: TextFn, of: Deep) -> Result<Deep, TextError>
        ensures made { IfOk result (λ made. expr_of made.expr ≡ Call name (expr_of of.expr)) }
        ensures shallow { IfOk result (λ made. expr_depth (expr_of made.expr) ≤ 200) }
        ensures deep { result ≡ Err refusal.NoReading → 200 < expr_depth (Call name (expr_of of.expr)) }
        ensures causes { IfErr result IsRefusal }
    {
        if of.depth >= DEPTH {
            return Err(TextError::NoReading);
        }
        let depth = of.depth + 1;
        let of = Box::new(alloc, of.expr)?;
        Ok(Deep {
            expr: TextExpr::Call { name, of },
            depth,
        })
    }

    /// An operator with its operands; NoReading exactly where that is too deep.
    pub fn binary(alloc: Global, op: Operator, left: Deep, right: Deep) -> Result<Deep, TextError>
        ensures made { IfOk result (λ made. expr_of made.expr ≡ Binary op (expr_of left.expr) (expr_of right.expr)) }
        ensures shallow { IfOk result (λ made. expr_depth (expr_of made.expr) ≤ 200) }
        ensures deep { result ≡ Err refusal.NoReading → 200 < expr_depth (Binary op (expr_of left.expr) (expr_of right.expr)) }
        ensures causes { IfErr result IsRefusal }
    {
        let depth = left.depth.max(right.depth);
        if depth >= DEPTH {
            return Err(TextError::NoReading);
        }
        let left = Box::new(alloc, left.expr)?;
        let right = Box::new(alloc, right.expr)?;
        Ok(Deep {
            expr: TextExpr::Binary { op, left, right },
            depth: depth + 1,
        })
    }
}
