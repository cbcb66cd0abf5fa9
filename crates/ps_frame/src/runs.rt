// Runs that lie apart, seen as one list.
ghost use Rattle.std.specs.Prelude.{◌≡◌, ◌++◌, ◌+◌, ◌^◌, ◌<◌, ◌≤◌, take, drop, length, slice_get, slice_index, IfOk, IfSome, OnOk, Some};
ghost use Rattle.std.specs.List.Sorted.{IsNonDecreasingBy};
ghost use Rattle.ps_frame.specs.EndToEnd.{end_to_end, starts_from};

use crate::run::Run;
use crate::value::Value;
use std::alloc::{AllocError, Global};
use std::marker::Model;

// More runs are not put together, so that each of them is found in a few steps, and taken along by
// each share.
pub(crate) const MOST_RUNS: usize = 16;

/// Runs one after another, which others may share. Contracts see them as one list.
///
/// It is noted where each run starts, so that an item's run is found by halves.
#[derive(Drop)]
pub(crate) struct Runs<T> {
    first: Run<T>,
    rest: Vec<Run<T>>,
    // Of each of the rest.
    starts: Vec<usize>,
    len: usize,
}

impl<T> Model for Runs<T> {
    ghost use Rattle.std.specs.Prelude.{List, ◌++◌};
    ghost use Rattle.ps_frame.specs.EndToEnd.{AreLaid, end_to_end};
    ghost use Rattle.ps_frame.specs.declared.runs.TheConstants.{MOST_RUNS};

    ghost Value = { List T };

    ghost view = { λ a. a.first ++ end_to_end a.rest.items };

    ghost invariant = { λ a. AreLaid MOST_RUNS a.first a.rest.items a.starts.items a.len };
}

impl<T: Drop> Runs<T> {
    /// The one run.
    pub(crate) fn of(alloc: Global, run: Run<T>) -> Runs<T>
        ensures { result ≡ run }
    {
        let len = run.len();
        Runs {
            first: run,
            rest: Vec::new(alloc),
            starts: Vec::new(alloc),
            len,
        }
    }

    /// How many items there are.
    pub(crate) fn len(&self) -> usize
        ensures { result ≡ length self.now }
    {
        self.len
    }

    /// How many runs there are.
    pub(crate) fn count(&self) -> usize
        ensures some { 1 ≤ result }
        ensures few { result ≤ MOST_RUNS }
    {
        self.rest.len() + 1
    }

    /// The run, if there is only one.
    pub(crate) fn alone(&self) -> Option<&Run<T>>
        ensures { IfSome result (λ run. run.now ≡ self.now) }
    {
        if self.rest.is_empty() {
            Some(&self.first)
        } else {
            None
        }
    }

    /// The item at a place.
    pub(crate) fn item(&self, i: usize) -> &T
        requires { i < length self.now }
        ensures { slice_get self.now i ≡ Some result.now }
    {
        if i < self.first.len() {
            return self.first.item(i);
        }
        let k = last_up_to(self.starts.as_slice(), i);
        self.rest[k].item(i - self.starts[k])
    }

    /// The same runs; their items are not copied.
    ///
    /// Fails only for want of memory.
    pub(crate) fn share(&self, alloc: Global) -> Result<Runs<T>, AllocError>
        ensures same { IfOk result (λ runs. runs ≡ self.now) }
    {
        let first = self.first.share()?;
        let mut rest = Vec::new(alloc);
        push_shared(&mut rest, self.rest.as_slice())?;
        Runs::laid(alloc, first, rest, self.len)
    }

    /// The items from a place on, as many as asked at most; they are not copied.
    ///
    /// Fails only for want of memory.
    pub(crate) fn slice(
        &self,
        alloc: Global,
        offset: usize,
        length: usize,
    ) -> Result<Runs<T>, AllocError>
        ensures part { IfOk result (λ runs. runs ≡ take length (drop offset self.now)) }
    {
        let first = self.first.slice(offset, length)?;
        let skip = offset.saturating_sub(self.first.len());
        let left = length - first.len();
        let mut rest = Vec::new(alloc);
        push_slices(&mut rest, self.rest.as_slice(), skip, left)?;
        let len = length.min(self.len - offset.min(self.len));
        let runs = Runs::of_parts(alloc, first, rest, len)?;
        Ok(runs)
    }

    // These runs; an empty first one is left out where another one follows.
    fn of_parts(
        alloc: Global,
        first: Run<T>,
        rest: Vec<Run<T>>,
        len: usize,
    ) -> Result<Runs<T>, AllocError>
        requires counted { len ≡ length (first ++ end_to_end rest.items) }
        requires few { length rest.items < MOST_RUNS }
        ensures laid { IfOk result (λ runs. runs ≡ first ++ end_to_end rest.items) }
    {
        if !first.is_empty() || rest.is_empty() {
            return Runs::laid(alloc, first, rest, len);
        }
        let mut rest = rest;
        let first = rest.remove(0);
        let runs = Runs::laid(alloc, first, rest, len)?;
        Ok(runs)
    }

    // These runs, with a note of where each starts.
    fn laid(
        alloc: Global,
        first: Run<T>,
        rest: Vec<Run<T>>,
        len: usize,
    ) -> Result<Runs<T>, AllocError>
        requires counted { len ≡ length (first ++ end_to_end rest.items) }
        requires few { length rest.items < MOST_RUNS }
        ensures laid { IfOk result (λ runs. runs ≡ first ++ end_to_end rest.items) }
    {
        let starts = starts_of(alloc, first.len(), rest.as_slice())?;
        Ok(Runs {
            first,
            rest,
            starts,
            len,
        })
    }

    /// These runs and then others; none of their items is copied. None where they would be more
    /// than `MOST_RUNS`.
    ///
    /// Fails only for want of memory.
    pub(crate) fn followed_by(
        &self,
        alloc: Global,
        other: &Runs<T>,
    ) -> Result<Option<Runs<T>>, AllocError>
        ensures joined { IfOk result (λ o. IfSome o (λ runs. runs ≡ self.now ++ other.now)) }
    {
        let Some(len) = self.len.checked_add(other.len) else {
            return Ok(None);
        };
        let mut rest = Vec::new(alloc);
        push_shared(&mut rest, self.rest.as_slice())?;
        rest.push(other.first.share()?)?;
        push_shared(&mut rest, other.rest.as_slice())?;
        if rest.len() >= MOST_RUNS {
            return Ok(None);
        }
        let runs = Runs::laid(alloc, self.first.share()?, rest, len)?;
        Ok(Some(runs))
    }
}

impl Runs<Value> {
    /// The one run that these and others make, where both are one run and these touch; no value is
    /// copied.
    ///
    /// Fails only for want of memory.
    pub(crate) fn grown_over(
        &self,
        alloc: Global,
        other: &Runs<Value>,
    ) -> Result<Option<Runs<Value>>, AllocError>
        ensures joined { IfOk result (λ o. IfSome o (λ runs. runs ≡ self.now ++ other.now)) }
    {
        let (Some(run), Some(next)) = (self.alone(), other.alone()) else {
            return Ok(None);
        };
        match run.grown_over(next)? {
            Some(run) => Ok(Some(Runs::of(alloc, run))),
            None => Ok(None),
        }
    }
}

// Which of these starts, that rise, is the last one up to a place.
fn last_up_to(starts: &[usize], i: usize) -> usize
    requires rise { IsNonDecreasingBy (λ start. start) starts.now }
    requires some { 0 < length starts.now }
    requires begun { slice_index starts.now 0 ≤ i }
    ensures within { result < length starts.now }
    ensures begun { slice_index starts.now result ≤ i }
    ensures last { result + 1 < length starts.now → i < slice_index starts.now (result + 1) }
{
    starts.partition_point(|start| *start <= i) - 1
}

// Where each of these runs starts, the first of them at a place.
fn starts_of<T: Drop>(
    alloc: Global,
    start: usize,
    runs: &[Run<T>],
) -> Result<Vec<usize>, AllocError>
    requires { start + length (end_to_end runs.now) < 2 ^ 64 }
    ensures { IfOk result (λ starts. starts.items ≡ starts_from start runs.now) }
{
    let mut starts = Vec::with_capacity(alloc, runs.len())?;
    let mut next = start;
    for run in runs {
        starts.push(next)?;
        next += run.len();
    }
    Ok(starts)
}

fn push_shared<T: Drop>(shared: &mut Vec<Run<T>>, runs: &[Run<T>]) -> Result<(), AllocError>
    ensures added { OnOk result (shared.new.items ≡ shared.old.items ++ runs.now) }
{
    for run in runs {
        shared.push(run.share()?)?;
    }
    Ok(())
}

// Adds what lies from a place on, as much as asked at most.
fn push_slices<T: Drop>(
    parts: &mut Vec<Run<T>>,
    runs: &[Run<T>],
    offset: usize,
    count: usize,
) -> Result<(), AllocError>
    ensures added { OnOk result (end_to_end parts.new.items ≡ end_to_end parts.old.items ++ take count (drop offset (end_to_end runs.now))) }
    ensures few { OnOk result (length parts.new.items ≤ length parts.old.items + length runs.now) }
{
    let mut skip = offset;
    let mut left = count;
    for run in runs {
        let part = run.slice(skip, left)?;
        skip = skip.saturating_sub(run.len());
        left -= part.len();
        push_some(parts, part)?;
    }
    Ok(())
}

// Adds a run, unless it is empty.
fn push_some<T: Drop>(parts: &mut Vec<Run<T>>, part: Run<T>) -> Result<(), AllocError>
    ensures added { OnOk result (end_to_end parts.new.items ≡ end_to_end parts.old.items ++ part) }
    ensures few { OnOk result (length parts.new.items ≤ length parts.old.items + 1) }
{
    if part.is_empty() {
        return Ok(());
    }
    parts.push(part)?;
    Ok(())
}
