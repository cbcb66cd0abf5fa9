// Numbers: extrema, distances, division that rounds down, and which types are floats.
#![tactic(auto)]

pub mod abs_diff;
pub mod floor_divmod;
pub mod is_float;
pub mod min_max;

pub use abs_diff::AbsDiff;
pub use floor_divmod::FloorDivMod;
pub use is_float::{IsFloat, compare_fn_nan_max, compare_fn_nan_min};
pub use min_max::MinMax;
