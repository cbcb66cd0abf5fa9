// Values that may be null, and how many of a collection are.
ghost use Rattle.std.specs.Prelude.{◌≡◌, ℕ, Bool, true, false, length, ◌==◌, is_none, Some, refl};

use crate::hashing::BytesHash;
use crate::total_ord::TotalOrdWrap;

/// A value that may be null.
pub trait IsNull {
    /// Whether a value of the type can be null.
    const HAS_NULLS: bool;

    /// What a value that isn't null holds.
    type Inner;

    // What `nullable` answers.
    ghost nullable: { Bool };

    // What `is_null` answers, and the value of which `unwrap_inner` answers the inner one.
    ghost is_null: { Self → Bool };

    ghost wrapped: { Self.Inner → Self };

    /// [`IsNull::HAS_NULLS`], for code over any type: proofs see what it answers.
    fn nullable() -> bool
        ensures { result ≡ nullable };

    /// Whether this value is null.
    fn is_null(&self) -> bool
        ensures { result ≡ is_null self.now };

    /// The value in one that isn't null.
    fn unwrap_inner(self) -> Self::Inner
        requires { is_null self ≡ false }
        ensures { wrapped result ≡ self };

    ghost null_only_with_nulls: { (x : Self) → is_null x ≡ true → nullable ≡ true };
}

impl<T> IsNull for Option<T> {
    const HAS_NULLS: bool = true;

    type Inner = T;

    ghost nullable = { true };

    ghost is_null = { is_none };

    ghost wrapped = { Some };

    ghost null_only_with_nulls = { λ _ _. refl };

    fn nullable() -> bool {
        true
    }

    fn is_null(&self) -> bool {
        self.is_none()
    }

    fn unwrap_inner(self) -> T {
        self.unwrap()
    }
}

impl IsNull for u8 {
    const HAS_NULLS: bool = false;

    type Inner = Self;

    ghost nullable = { false };

    ghost is_null = { λ _. false };

    ghost wrapped = { λ x. x };

    ghost null_only_with_nulls = { λ _ h. h };

    fn nullable() -> bool
        ensures { result ≡ false }
    {
        Self::HAS_NULLS
    }

    fn is_null(&self) -> bool {
        false
    }

    fn unwrap_inner(self) -> Self {
        self
    }
}

impl IsNull for u16 {
    const HAS_NULLS: bool = false;

    type Inner = Self;

    ghost nullable = { false };

    ghost is_null = { λ _. false };

    ghost wrapped = { λ x. x };

    ghost null_only_with_nulls = { λ _ h. h };

    fn nullable() -> bool
        ensures { result ≡ false }
    {
        Self::HAS_NULLS
    }

    fn is_null(&self) -> bool {
        false
    }

    fn unwrap_inner(self) -> Self {
        self
    }
}

impl IsNull for u32 {
    const HAS_NULLS: bool = false;

    type Inner = Self;

    ghost nullable = { false };

    ghost is_null = { λ _. false };

    ghost wrapped = { λ x. x };

    ghost null_only_with_nulls = { λ _ h. h };

    fn nullable() -> bool
        ensures { result ≡ false }
    {
        Self::HAS_NULLS
    }

    fn is_null(&self) -> bool {
        false
    }

    fn unwrap_inner(self) -> Self {
        self
    }
}

impl IsNull for u64 {
    const HAS_NULLS: bool = false;

    type Inner = Self;

    ghost nullable = { false };

    ghost is_null = { λ _. false };

    ghost wrapped = { λ x. x };

    ghost null_only_with_nulls = { λ _ h. h };

    fn nullable() -> bool
        ensures { result ≡ false }
    {
        Self::HAS_NULLS
    }

    fn is_null(&self) -> bool {
        false
    }

    fn unwrap_inner(self) -> Self {
        self
    }
}

impl IsNull for u128 {
    const HAS_NULLS: bool = false;

    type Inner = Self;

    ghost nullable = { false };

    ghost is_null = { λ _. false };

    ghost wrapped = { λ x. x };

    ghost null_only_with_nulls = { λ _ h. h };

    fn nullable() -> bool
        ensures { result ≡ false }
    {
        Self::HAS_NULLS
    }

    fn is_null(&self) -> bool {
        false
    }

    fn unwrap_inner(self) -> Self {
        self
    }
}

impl IsNull for i8 {
    const HAS_NULLS: bool = false;

    type Inner = Self;

    ghost nullable = { false };

    ghost is_null = { λ _. false };

    ghost wrapped = { λ x. x };

    ghost null_only_with_nulls = { λ _ h. h };

    fn nullable() -> bool
        ensures { result ≡ false }
    {
        Self::HAS_NULLS
    }

    fn is_null(&self) -> bool {
        false
    }

    fn unwrap_inner(self) -> Self {
        self
    }
}

impl IsNull for i16 {
    const HAS_NULLS: bool = false;

    type Inner = Self;

    ghost nullable = { false };

    ghost is_null = { λ _. false };

    ghost wrapped = { λ x. x };

    ghost null_only_with_nulls = { λ _ h. h };

    fn nullable() -> bool
        ensures { result ≡ false }
    {
        Self::HAS_NULLS
    }

    fn is_null(&self) -> bool {
        false
    }

    fn unwrap_inner(self) -> Self {
        self
    }
}

impl IsNull for i32 {
    const HAS_NULLS: bool = false;

    type Inner = Self;

    ghost nullable = { false };

    ghost is_null = { λ _. false };

    ghost wrapped = { λ x. x };

    ghost null_only_with_nulls = { λ _ h. h };

    fn nullable() -> bool
        ensures { result ≡ false }
    {
        Self::HAS_NULLS
    }

    fn is_null(&self) -> bool {
        false
    }

    fn unwrap_inner(self) -> Self {
        self
    }
}

impl IsNull for i64 {
    const HAS_NULLS: bool = false;

    type Inner = Self;

    ghost nullable = { false };

    ghost is_null = { λ _. false };

    ghost wrapped = { λ x. x };

    ghost null_only_with_nulls = { λ _ h. h };

    fn nullable() -> bool
        ensures { result ≡ false }
    {
        Self::HAS_NULLS
    }

    fn is_null(&self) -> bool {
        false
    }

    fn unwrap_inner(self) -> Self {
        self
    }
}

impl IsNull for i128 {
    const HAS_NULLS: bool = false;

    type Inner = Self;

    ghost nullable = { false };

    ghost is_null = { λ _. false };

    ghost wrapped = { λ x. x };

    ghost null_only_with_nulls = { λ _ h. h };

    fn nullable() -> bool
        ensures { result ≡ false }
    {
        Self::HAS_NULLS
    }

    fn is_null(&self) -> bool {
        false
    }

    fn unwrap_inner(self) -> Self {
        self
    }
}

impl IsNull for bool {
    const HAS_NULLS: bool = false;

    type Inner = Self;

    ghost nullable = { false };

    ghost is_null = { λ _. false };

    ghost wrapped = { λ x. x };

    ghost null_only_with_nulls = { λ _ h. h };

    fn nullable() -> bool
        ensures { result ≡ false }
    {
        Self::HAS_NULLS
    }

    fn is_null(&self) -> bool {
        false
    }

    fn unwrap_inner(self) -> Self {
        self
    }
}

impl IsNull for &[u8] {
    const HAS_NULLS: bool = false;

    type Inner = Self;

    ghost nullable = { false };

    ghost is_null = { λ _. false };

    ghost wrapped = { λ x. x };

    ghost null_only_with_nulls = { λ _ h. h };

    fn nullable() -> bool
        ensures { result ≡ false }
    {
        Self::HAS_NULLS
    }

    fn is_null(&self) -> bool {
        false
    }

    fn unwrap_inner(self) -> Self {
        self
    }
}

// Null without bytes.
impl<'a> IsNull for BytesHash<'a> {
    ghost use Rattle.pu_order.specs.BytesHash.{payload_of};

    const HAS_NULLS: bool = true;

    type Inner = BytesHash<'a>;

    ghost nullable = { true };

    ghost is_null = { λ b. is_none (payload_of b) };

    ghost wrapped = { λ b. b };

    ghost null_only_with_nulls = { λ _ _. refl };

    fn nullable() -> bool
        ensures { result ≡ true }
    {
        Self::HAS_NULLS
    }

    fn is_null(&self) -> bool {
        self.payload().is_none()
    }

    fn unwrap_inner(self) -> BytesHash<'a> {
        self
    }
}

impl<'a, T: IsNull> IsNull for &'a T {
    const HAS_NULLS: bool = T::HAS_NULLS;

    type Inner = &'a T;

    ghost nullable = { T.nullable };

    ghost is_null = { λ r. T.is_null r.now };

    ghost wrapped = { λ r. r };

    ghost null_only_with_nulls = { λ r. T.null_only_with_nulls r.now };

    fn nullable() -> bool {
        T::nullable()
    }

    fn is_null(&self) -> bool {
        T::is_null(*self)
    }

    fn unwrap_inner(self) -> &'a T {
        self
    }
}

impl<T: IsNull> IsNull for TotalOrdWrap<T> {
    const HAS_NULLS: bool = T::HAS_NULLS;

    type Inner = T::Inner;

    ghost nullable = { T.nullable };

    ghost is_null = { λ w. T.is_null w.0 };

    ghost wrapped = { λ x. record { 0 = T.wrapped x } };

    ghost null_only_with_nulls = { λ w. T.null_only_with_nulls w.0 };

    fn nullable() -> bool {
        T::nullable()
    }

    fn is_null(&self) -> bool {
        self.0.is_null()
    }

    fn unwrap_inner(self) -> T::Inner {
        self.0.unwrap_inner()
    }
}

/// How many items of a collection are null.
pub trait NullCount {
    // What `null_count` answers.
    ghost null_count: { Self → ℕ };

    /// How many items are null.
    fn null_count(&self) -> usize
        ensures { result ≡ null_count self.now };
}

// A slice counts none.
impl<T> NullCount for &[T] {
    ghost null_count = { λ _. 0 };

    fn null_count(&self) -> usize {
        0
    }
}

impl<T: NullCount> NullCount for &T {
    ghost null_count = { λ r. T.null_count r.now };

    fn null_count(&self) -> usize {
        T::null_count(*self)
    }
}

/// A collection with a length.
pub trait Bounded {
    // What `len` answers.
    ghost len: { Self → ℕ };

    /// How many items there are.
    fn len(&self) -> usize
        ensures { result ≡ len self.now };

    /// Whether there are no items.
    final fn is_empty(&self) -> bool
        ensures { result ≡ (len self.now == 0) }
    {
        self.len() == 0
    }
}

impl<T> Bounded for &[T] {
    ghost len = { λ s. length s.now };

    fn len(&self) -> usize {
        <[T]>::len(self)
    }
}
