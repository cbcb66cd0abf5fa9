//! Fresh names.
ghost use Rattle.std.specs.Prelude.{◌≡◌, ◌+◌, ◌<◌, ◌≤◌, ◌^◌, Err, IfNone, IfOk, IfSome, OnErr, OnOk};
ghost use Rattle.ps_frame.specs.Functions.{Functions};
ghost use Rattle.ps_frame.specs.declared.refusal.PolarsError.{PolarsError};
ghost use Rattle.ps_rules.specs.Names.{IsKnown, Knows, after_fresh, fresh_name, fresh_number};
ghost use Rattle.valid_plans.specs.Valid.{IsValidWith, plan_with};
ghost use Rattle.ps_fresh.specs.InPlans.{IsNameUnder};

use crate::names_in_use::numbers_in_use;
use crate::temporary::temporary_name;
use ps_frame::expr::AExpr;
use ps_frame::refusal::{PolarsError, PolarsResult};
use pu_base::{Arena, PlSmallStr};
use std::alloc::Global;
use std::collections::BTreeSet;
use std::marker::Model;
use valid_plans::valid::Valid;

/// The numbers whose names are in use, and the number from which the next fresh one is looked for.
#[derive(Drop)]
pub struct NameSource {
    taken: BTreeSet<u64>,
    next: u64,
}

impl Model for NameSource {
    ghost use Rattle.ps_rules.specs.Names.{Names};

    ghost Value = { Names };

    ghost view = { λ a. record { taken = a.taken.keys; next = a.next } };
}

impl NameSource {
    /// Knows each name under the root of a valid plan.
    ///
    /// Fails only for want of memory.
    pub fn new(alloc: Global, valid: &Valid, exprs: &Arena<AExpr>) -> PolarsResult<NameSource>
        requires { (F : Functions) × IsValidWith F valid.now exprs.now.items }
        ensures names { IfOk result (λ names. (F : Functions) → IsValidWith F valid.now exprs.now.items → Knows names (IsNameUnder F (plan_with valid.now exprs.now.items))) }
        ensures first { IfOk result (λ names. names.next ≡ 0) }
        ensures memory { OnErr result (result ≡ Err PolarsError.OutOfMemory) }
    {
        // The clauses alone read the expressions.
        let _exprs = exprs;
        let taken = numbers_in_use(alloc, valid, valid.order())?;
        Ok(NameSource { taken, next: 0 })
    }

    /// The number from which the next fresh one is looked for; it is one of 64 bits.
    pub fn counter(&self) -> u64
        ensures number { result ≡ self.now.next }
        ensures fits { self.now.next < 2 ^ 64 }
    {
        self.next
    }

    /// The least number from the counter on whose name isn't in use, where the counter can pass it.
    fn free_number(&self) -> Option<u64>
        ensures some { IfSome result (λ k. (k ≡ fresh_number self.now) × (k + 1 < 2 ^ 64)) }
        ensures none { IfNone result (2 ^ 64 ≤ fresh_number self.now + 1) }
    {
        // Short of the greatest number, which the counter can't pass.
        for number in self.next..u64::MAX {
            if !self.taken.contains(&number) {
                return Some(number);
            }
        }
        None
    }
}

/// A name that isn't in use, and is from now on: `__POLARS_STMP_k` for the least k from the counter on whose name isn't in use.
///
/// Takes time for each number in use that is passed over, once in all calls. Fails for want of memory, and where the
/// counter, of 64 bits, is at its end; the names are then as before.
pub fn unique_column_name(alloc: Global, names: &mut NameSource) -> PolarsResult<PlSmallStr>
    ensures name { IfOk result (λ name. name ≡ fresh_name names.old) }
    ensures fresh { IfOk result (λ name. ¬ IsKnown names.old name) }
    ensures known { IfOk result (λ name. IsKnown names.new name) }
    ensures next { OnOk result (names.new ≡ after_fresh names.old) }
    ensures memory { OnErr result (result ≡ Err PolarsError.OutOfMemory) }
    ensures unchanged { OnErr result (names.new ≡ names.old) }
{
    let Some(number) = names.free_number() else {
        return Err(PolarsError::OutOfMemory);
    };
    let name = temporary_name(alloc, number)?;
    names.next = number + 1;
    Ok(name)
}
