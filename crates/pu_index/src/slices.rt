// Parts of slices, the least and the greatest item, and bytes read as a number.
ghost use Rattle.std.specs.Prelude.{◌≡◌, ℕ, ◌↔◌, ◌+◌, ◌-◌, ◌*◌, ◌<◌, ◌≤◌, [], length, slice_get, slice_index_or, slice_range, false, IsTrue, IsSorted, MatchOption, Some};
ghost use Rattle.std.specs.Int.{w64, from_le_bytes};
ghost use Rattle.std.specs.List.{IsFirstBest, IsLastBest};
ghost use Rattle.std.specs.Ordering.{is_lt, is_gt};
ghost use Rattle.pu_index.specs.Padded.{padded};
ghost use Rattle.pu_index.specs.Portion.{before_portion, portion_len};

use std::ops::Range;

/// A list of which a part may be taken.
pub trait SliceAble: Sized {
    ghost use Rattle.std.specs.Prelude.{List};

    type Item;

    // The items, in order.
    ghost items: { Self → List Self.Item };

    /// The items of a range, which has to lie within the list and mustn't end before its start.
    fn slice(&self, range: Range<usize>) -> Self
        requires ordered { range.start ≤ range.end }
        requires within { range.end ≤ length (items self.now) }
        ensures { items result ≡ slice_range (items self.now) range.start range.end };

    /// The items of a range as of [`slice`](SliceAble::slice), which nothing tests when it runs.
    fn slice_unchecked(&self, range: Range<usize>) -> Self
        requires ordered { range.start ≤ range.end }
        requires within { range.end ≤ length (items self.now) }
        ensures { items result ≡ slice_range (items self.now) range.start range.end };
}

impl<'a, T> SliceAble for &'a [T] {
    type Item = T;

    ghost items = { λ s. s.now };

    fn slice(&self, range: Range<usize>) -> &'a [T] {
        let items: &'a [T] = *self;
        &items[range.start..range.end]
    }

    fn slice_unchecked(&self, range: Range<usize>) -> &'a [T] {
        let items: &'a [T] = *self;
        &items[range.start..range.end]
    }
}

/// Part `i` of a range that is cut into `k` parts, whose sizes differ by at most one. The longer
/// parts stand first, and each begins where the one before it ends. `i` has to be below `k`, and the
/// range mustn't end before its start.
pub fn range_portion(i: usize, k: usize, r: Range<usize>) -> Range<usize>
    requires part { i < k }
    requires ordered { r.start ≤ r.end }
    ensures start { result.start ≡ r.start + before_portion i k (r.end - r.start) }
    ensures len { result.end ≡ result.start + portion_len i k (r.end - r.start) }
    ensures next { result.end ≡ r.start + before_portion (i + 1) k (r.end - r.start) }
    ensures first { i ≡ 0 → result.start ≡ r.start }
    ensures last { i + 1 ≡ k → result.end ≡ r.end }
{
    let n = r.end - r.start;
    let shortest = n / k;
    let longer_parts = n % k;
    let before = shortest * i + i.min(longer_parts);
    let len = if i < longer_parts {
        shortest + 1
    } else {
        shortest
    };
    r.start + before..r.start + before + len
}

/// The first eight bytes as a number, the least one first. Missing bytes count as 0.
pub fn load_padded_le_u64(bytes: &[u8]) -> u64
    ensures { result ≡ from_le_bytes w64 (padded bytes.now) }
{
    u64::from_le_bytes(padded(bytes))
}

/// The first eight bytes, filled up with zeros.
fn padded(bytes: &[u8]) -> [u8; 8]
    ensures { result ≡ padded bytes.now }
{
    let mut eight = [0u8; 8];
    let len = bytes.len().min(8);
    eight[..len].copy_from_slice(&bytes[..len]);
    eight
}

/// The first of the least items.
pub fn min_value<T: Ord>(s: &[T]) -> Option<&T>
    ensures { MatchOption result (s.now ≡ []) (λ least. (i : ℕ) × (slice_get s.now i ≡ Some least.now) × IsFirstBest (λ x y. is_lt (T.cmp x y)) s.now (length s.now) i) }
{
    if s.is_empty() {
        return None;
    }
    let mut best = 0;
    for i in 1..s.len() {
        if s[i].cmp(&s[best]).is_lt() {
            best = i;
        }
    }
    Some(&s[best])
}

/// The last of the greatest items.
pub fn max_value<T: Ord>(s: &[T]) -> Option<&T>
    ensures { MatchOption result (s.now ≡ []) (λ greatest. (i : ℕ) × (slice_get s.now i ≡ Some greatest.now) × IsLastBest (λ x y. is_gt (T.cmp x y)) s.now (length s.now) i) }
{
    if s.is_empty() {
        return None;
    }
    let mut best = 0;
    for i in 1..s.len() {
        if !s[i].cmp(&s[best]).is_lt() {
            best = i;
        }
    }
    Some(&s[best])
}

/// Whether no item is greater than the next.
pub fn is_sorted_ascending<T: Ord>(s: &[T]) -> bool
    ensures exact { IsTrue result ↔ ((k : ℕ) (d : T) → k + 1 < length s.now → is_gt (T.cmp (slice_index_or s.now k d) (slice_index_or s.now (k + 1) d)) ≡ false) }
    ensures sorted { IsTrue result → IsSorted T.cmp s.now }
{
    for i in 1..s.len() {
        if s[i - 1].cmp(&s[i]).is_gt() {
            return false;
        }
    }
    true
}
