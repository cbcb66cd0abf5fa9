// What an operator gives of texts that take long to compare.
ghost use Rattle.std.specs.Prelude.{◌≡◌, ◌≢◌, ◌+◌, ℕ, IfOk, IfSome, OnOk, Some};
ghost use Rattle.std.specs.BTreeMap.{get};
ghost use Rattle.std.specs.Ordering.{nat_cmp};
ghost use Rattle.ps_expr_eval.specs.Decided.{IsPair, Knows};
ghost use Rattle.ps_expr_eval.specs.Operands.{IsPlaced, value_for};
ghost use Rattle.ps_expr_eval.specs.Rows.{FillsRows};
ghost use Rattle.ps_expr_eval.specs.declared.operand.Operand.{Operand as AnOperand};
ghost use Rattle.ps_frame.specs.Operators.{binary_value};
ghost use Rattle.ps_frame.specs.declared.expr.Operator.{Operator as AnOperator};

use crate::operand::Operand;
use ps_compute::operators::binary;
use ps_frame::expr::Operator;
use ps_frame::value::Value;
use std::alloc::{AllocError, Global};
use std::collections::BTreeMap;

// A text of so many bytes takes longer to compare than what was decided takes to look up.
const LONG: usize = 1024;

/// What an operator gave of long texts of its operands: each pair of places is decided once.
#[derive(Drop)]
pub struct Decided {
    // In order of the numbers, since a map by hashes would be slow at numbers that were chosen for it.
    answers: BTreeMap<usize, bool>,
}

impl Decided {
    /// Nothing decided yet, which takes no memory.
    pub fn new(alloc: Global) -> Decided
        ensures { (op : AnOperator) (left right : AnOperand) → Knows op left right result }
    {
        Decided {
            answers: BTreeMap::new(alloc),
        }
    }

    /// What an operator gives of its operands in a row. What is known has to be of these.
    ///
    /// Fails only for want of memory.
    pub fn value(
        &mut self,
        op: Operator,
        left: &Operand<'_>,
        right: &Operand<'_>,
        row: usize,
    ) -> Result<Value, AllocError>
        requires left { FillsRows left.now.values left.now.repeats (row + 1) }
        requires right { FillsRows right.now.values right.now.repeats (row + 1) }
        requires left_places { IsPlaced left.now }
        requires right_places { IsPlaced right.now }
        requires known { Knows op left.now right.now self.old }
        ensures value { IfOk result (λ v. v ≡ binary_value op (value_for left.now row) (value_for right.now row)) }
        ensures known { OnOk result (Knows op left.now right.now self.new) }
    {
        let a = left.value(row);
        let b = right.value(row);
        if !is_long(a) || !is_long(b) {
            return Ok(binary(op, a, b));
        }
        let Some(pair) = pair_in(left, right, row) else {
            return Ok(binary(op, a, b));
        };
        match self.answer(pair) {
            Some(answer) => Ok(Value::Boolean(answer)),
            None => self.decide(op, left, right, row, pair),
        }
    }

    // What `value` answers of a pair of which nothing is known.
    fn decide(
        &mut self,
        op: Operator,
        left: &Operand<'_>,
        right: &Operand<'_>,
        row: usize,
        pair: usize,
    ) -> Result<Value, AllocError>
        requires left { FillsRows left.now.values left.now.repeats (row + 1) }
        requires right { FillsRows right.now.values right.now.repeats (row + 1) }
        requires left_places { IsPlaced left.now }
        requires right_places { IsPlaced right.now }
        requires pair { IsPair left.now right.now row pair }
        requires known { Knows op left.now right.now self.old }
        ensures value { IfOk result (λ v. v ≡ binary_value op (value_for left.now row) (value_for right.now row)) }
        ensures known { OnOk result (Knows op left.now right.now self.new) }
    {
        match binary(op, left.value(row), right.value(row)) {
            Value::Boolean(answer) => {
                self.note(pair, answer)?;
                Ok(Value::Boolean(answer))
            }
            other => Ok(other),
        }
    }

    fn answer(&self, pair: usize) -> Option<bool>
        ensures { result ≡ get nat_cmp self.now.answers pair }
    {
        self.answers.get(&pair).copied()
    }

    fn note(&mut self, pair: usize, answer: bool) -> Result<(), AllocError>
        ensures put { OnOk result (get nat_cmp self.new.answers pair ≡ Some answer) }
        ensures others { OnOk result ((q : ℕ) → q ≢ pair → get nat_cmp self.new.answers q ≡ get nat_cmp self.old.answers q) }
    {
        self.answers.insert(pair, answer)?;
        Ok(())
    }
}

// Whether this is a text that takes long to compare.
fn is_long(value: &Value) -> bool {
    match value {
        Value::String(text) => text.as_str().len() >= LONG,
        _ => false,
    }
}

// The number of the pair of places that gives a row, where both operands are picked of others.
fn pair_in(left: &Operand<'_>, right: &Operand<'_>, row: usize) -> Option<usize>
    ensures { IfSome result (IsPair left.now right.now row) }
{
    let first = left.place(row)?;
    let second = right.place(row)?;
    let count = right.count();
    if second >= count {
        return None;
    }
    first.checked_mul(count)?.checked_add(second)
}
