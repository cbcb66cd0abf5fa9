// Searches in slices that are in order.
ghost use Rattle.std.specs.Prelude.{◌≡◌, ◌≤◌, Bool, true, false, length, IsSorted};
ghost use Rattle.std.specs.declared.cmp.Ordering.{Ordering as Answer};
ghost use Rattle.std.specs.Fn.{ComputesKey};
ghost use Rattle.std.specs.List.Sorted.{IsBinarySearchResult, IsPartitionedBy, IsPartitionPoint, IsSearchInRange};
ghost use Rattle.std.specs.Ordering.{is_le, is_lt};

use std::cmp::Ordering;

/// The place of the first item that isn't less than a value, or the length. The slice has to be in
/// order.
pub fn find_first_ge_index<T: Ord + Drop>(arr: &[T], val: T) -> usize
    requires { IsSorted T.cmp arr.now }
    ensures within { result ≤ length arr.now }
    ensures first { IsPartitionPoint (λ x. is_lt (T.cmp x val) ≡ true) (λ x. is_lt (T.cmp x val) ≡ false) arr.now result }
{
    arr.partition_point(|x| x.cmp(&val).is_lt())
}

/// The place of the first item that is greater than a value, or the length. The slice has to be in
/// order.
pub fn find_first_gt_index<T: Ord + Drop>(arr: &[T], val: T) -> usize
    requires { IsSorted T.cmp arr.now }
    ensures within { result ≤ length arr.now }
    ensures first { IsPartitionPoint (λ x. is_le (T.cmp x val) ≡ true) (λ x. is_le (T.cmp x val) ≡ false) arr.now result }
{
    arr.partition_point(|x| x.cmp(&val).is_le())
}

/// Searches for an item at which `f` answers `Equal`, in steps that double and then halve: fast
/// where it stands near the start.
///
/// Where the answers of `f` along the slice are `Less`, then `Equal`, then `Greater`, it gives the
/// place of an `Equal`, or in `Err` the place between the others.
pub fn exponential_search_by<T, F: FnMut(&T) -> Ordering>(
    arr: &[T],
    mut f: F,
) -> Result<usize, usize>
    requires { F.IsAlwaysCallable f }
    ensures bound { IsSearchInRange result (length arr.now) }
    ensures position { (ord : T → Answer) → ComputesKey F.FnMut ord f → IsBinarySearchResult ord arr.now result }
{
    let mut low = 0;
    let mut high = arr.len();
    let mut bound = 1;
    while bound < high {
        match f(&arr[bound]) {
            Ordering::Less => {
                low = bound + 1;
                bound = bound.saturating_mul(2);
            }
            Ordering::Equal => return Ok(bound),
            Ordering::Greater => high = bound,
        }
    }
    while low < high {
        let mid = low + (high - low) / 2;
        match f(&arr[mid]) {
            Ordering::Less => low = mid + 1,
            Ordering::Equal => return Ok(mid),
            Ordering::Greater => high = mid,
        }
    }
    Err(low)
}

/// How many items at the start of a slice hold, where no item that holds stands after one that
/// doesn't. Its steps double and then halve.
pub fn partition_point_exponential<T, P: FnMut(&T) -> bool>(arr: &[T], mut pred: P) -> usize
    requires { P.IsAlwaysCallable pred }
    ensures bound { result ≤ length arr.now }
    ensures partitioned { (p : T → Bool) → ComputesKey P.FnMut p pred → IsPartitionedBy p arr.now → IsPartitionPoint (λ y. p y ≡ true) (λ y. p y ≡ false) arr.now result }
{
    let mut low = 0;
    let mut high = arr.len();
    let mut bound = 1;
    while bound < high {
        if pred(&arr[bound]) {
            low = bound + 1;
            bound = bound.saturating_mul(2);
        } else {
            high = bound;
        }
    }
    while low < high {
        let mid = low + (high - low) / 2;
        if pred(&arr[mid]) {
            low = mid + 1;
        } else {
            high = mid;
        }
    }
    low
}
