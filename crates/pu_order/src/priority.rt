// A pair that is compared by its first part alone.

/// A value `.1` with its priority `.0`, which alone decides equality and order.
#[derive(Clone, Copy, Drop)]
#[derive_where(PartialEq, Eq, PartialOrd, Ord; P)]
pub struct Priority<P, T>(pub P, #[derive_where(skip)] pub T);
