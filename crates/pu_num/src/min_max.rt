// The lesser and the greater of two values.
ghost use Rattle.std.specs.Prelude.{◌≡◌, if◌then◌else◌, string_bytes};
ghost use Rattle.std.specs.declared.cmp.Ordering.{Ordering};
ghost use Rattle.std.specs.Ordering.{is_lt};
ghost use Rattle.std.specs.Cmp.{IsTotalOrder, on_total};
ghost use Rattle.std.specs.Cmp.Lexicographic.{nat_list_cmp_total};
ghost use Rattle.std.proofs.Common.{rules};

/// The lesser and the greater of two values. No type here has values that aren't numbers, so the calls that
/// propagate these and those that ignore them agree.
pub trait MinMax: Sized + Drop {
    // The total order by which the values are compared.
    ghost order: { Self → Self → Ordering };

    /// Whether this value is below the other, where what is no number would be the least.
    fn nan_min_lt(&self, other: &Self) -> bool
        ensures { result ≡ is_lt (order self.now other.now) };

    /// Whether this value is below the other, where what is no number would be the greatest.
    fn nan_max_lt(&self, other: &Self) -> bool
        ensures { result ≡ is_lt (order self.now other.now) };

    /// The lesser value; `other` where they are equal.
    final fn min_propagate_nan(self, other: Self) -> Self
        ensures { result ≡ (if is_lt (order self other) then self else other) }
    {
        if self.nan_min_lt(&other) { self } else { other }
    }

    /// The greater value; `self` where they are equal.
    final fn max_propagate_nan(self, other: Self) -> Self
        ensures { result ≡ (if is_lt (order self other) then other else self) }
    {
        if self.nan_max_lt(&other) { other } else { self }
    }

    /// The lesser value; `other` where they are equal.
    final fn min_ignore_nan(self, other: Self) -> Self
        ensures { result ≡ (if is_lt (order self other) then self else other) }
    {
        if self.nan_max_lt(&other) { self } else { other }
    }

    /// The greater value; `self` where they are equal.
    final fn max_ignore_nan(self, other: Self) -> Self
        ensures { result ≡ (if is_lt (order self other) then other else self) }
    {
        if self.nan_min_lt(&other) { other } else { self }
    }

    ghost total: { IsTotalOrder order };
}

impl MinMax for u8 {
    ghost order = { ⟦<u8 as Ord>⟧.cmp };

    ghost total = { Prim.search rules };

    fn nan_min_lt(&self, other: &Self) -> bool {
        self < other
    }

    fn nan_max_lt(&self, other: &Self) -> bool {
        self < other
    }
}

impl MinMax for u16 {
    ghost order = { ⟦<u16 as Ord>⟧.cmp };

    ghost total = { Prim.search rules };

    fn nan_min_lt(&self, other: &Self) -> bool {
        self < other
    }

    fn nan_max_lt(&self, other: &Self) -> bool {
        self < other
    }
}

impl MinMax for u32 {
    ghost order = { ⟦<u32 as Ord>⟧.cmp };

    ghost total = { Prim.search rules };

    fn nan_min_lt(&self, other: &Self) -> bool {
        self < other
    }

    fn nan_max_lt(&self, other: &Self) -> bool {
        self < other
    }
}

impl MinMax for u64 {
    ghost order = { ⟦<u64 as Ord>⟧.cmp };

    ghost total = { Prim.search rules };

    fn nan_min_lt(&self, other: &Self) -> bool {
        self < other
    }

    fn nan_max_lt(&self, other: &Self) -> bool {
        self < other
    }
}

impl MinMax for u128 {
    ghost order = { ⟦<u128 as Ord>⟧.cmp };

    ghost total = { Prim.search rules };

    fn nan_min_lt(&self, other: &Self) -> bool {
        self < other
    }

    fn nan_max_lt(&self, other: &Self) -> bool {
        self < other
    }
}

impl MinMax for usize {
    ghost order = { ⟦<usize as Ord>⟧.cmp };

    ghost total = { Prim.search rules };

    fn nan_min_lt(&self, other: &Self) -> bool {
        self < other
    }

    fn nan_max_lt(&self, other: &Self) -> bool {
        self < other
    }
}

impl MinMax for i8 {
    ghost order = { ⟦<i8 as Ord>⟧.cmp };

    ghost total = { Prim.search rules };

    fn nan_min_lt(&self, other: &Self) -> bool {
        self < other
    }

    fn nan_max_lt(&self, other: &Self) -> bool {
        self < other
    }
}

impl MinMax for i16 {
    ghost order = { ⟦<i16 as Ord>⟧.cmp };

    ghost total = { Prim.search rules };

    fn nan_min_lt(&self, other: &Self) -> bool {
        self < other
    }

    fn nan_max_lt(&self, other: &Self) -> bool {
        self < other
    }
}

impl MinMax for i32 {
    ghost order = { ⟦<i32 as Ord>⟧.cmp };

    ghost total = { Prim.search rules };

    fn nan_min_lt(&self, other: &Self) -> bool {
        self < other
    }

    fn nan_max_lt(&self, other: &Self) -> bool {
        self < other
    }
}

impl MinMax for i64 {
    ghost order = { ⟦<i64 as Ord>⟧.cmp };

    ghost total = { Prim.search rules };

    fn nan_min_lt(&self, other: &Self) -> bool {
        self < other
    }

    fn nan_max_lt(&self, other: &Self) -> bool {
        self < other
    }
}

impl MinMax for i128 {
    ghost order = { ⟦<i128 as Ord>⟧.cmp };

    ghost total = { Prim.search rules };

    fn nan_min_lt(&self, other: &Self) -> bool {
        self < other
    }

    fn nan_max_lt(&self, other: &Self) -> bool {
        self < other
    }
}

impl MinMax for isize {
    ghost order = { ⟦<isize as Ord>⟧.cmp };

    ghost total = { Prim.search rules };

    fn nan_min_lt(&self, other: &Self) -> bool {
        self < other
    }

    fn nan_max_lt(&self, other: &Self) -> bool {
        self < other
    }
}

impl MinMax for bool {
    ghost order = { ⟦<bool as Ord>⟧.cmp };

    ghost total = { Prim.search rules };

    fn nan_min_lt(&self, other: &Self) -> bool {
        self < other
    }

    fn nan_max_lt(&self, other: &Self) -> bool {
        self < other
    }
}

impl MinMax for char {
    ghost order = { ⟦<char as Ord>⟧.cmp };

    ghost total = { Prim.search rules };

    fn nan_min_lt(&self, other: &Self) -> bool {
        self < other
    }

    fn nan_max_lt(&self, other: &Self) -> bool {
        self < other
    }
}

impl MinMax for &str {
    ghost order = { ⟦<&'static str as Ord>⟧.cmp };

    ghost total = { on_total (λ s. s.now) nat_list_cmp_total };

    fn nan_min_lt(&self, other: &Self) -> bool {
        self < other
    }

    fn nan_max_lt(&self, other: &Self) -> bool {
        self < other
    }
}

impl MinMax for &[u8] {
    ghost order = { ⟦<&'static [u8] as Ord>⟧.cmp };

    ghost total = { on_total (λ s. s.now) nat_list_cmp_total };

    fn nan_min_lt(&self, other: &Self) -> bool {
        Ord::cmp(self, other).is_lt()
    }

    fn nan_max_lt(&self, other: &Self) -> bool {
        Ord::cmp(self, other).is_lt()
    }
}

impl MinMax for String {
    ghost order = { ⟦<String as Ord>⟧.cmp };

    ghost total = { on_total (λ s. string_bytes s) nat_list_cmp_total };

    fn nan_min_lt(&self, other: &Self) -> bool {
        self < other
    }

    fn nan_max_lt(&self, other: &Self) -> bool {
        self < other
    }
}
