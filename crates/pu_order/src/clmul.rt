// Products without carries, and running xors of bits.
//
// The calls that Rust's crate has twice, for any processor and for one with an instruction for it, are one function here.
ghost use Rattle.std.specs.Prelude.{◌≡◌, ℕ, ◌+◌, ◌*◌, ◌%◌, ◌^◌, ◌<◌, bit_xor};
ghost use Rattle.std.specs.Int.{bit_at};
ghost use Rattle.pu_order.specs.Bits.{carryless_bit, xor_below};

/// The low 64 bits of the carryless product.
pub fn portable_clmul64(x: u64, y: u64) -> u64
    ensures { (i : ℕ) → i < 64 → bit_at result i ≡ carryless_bit x y i }
{
    let (mut shifted, mut left, mut product) = (x, y, 0u64);
    while left != 0 {
        if left & 1 == 1 {
            product ^= shifted;
        }
        shifted <<= 1;
        left >>= 1;
    }
    product
}

/// The low 64 bits of the carryless product.
pub fn clmul64(x: u64, y: u64) -> u64
    ensures { (i : ℕ) → i < 64 → bit_at result i ≡ carryless_bit x y i }
{
    portable_clmul64(x, y)
}

/// Each bit of the answer is the xor of the bits of `x` below it.
pub fn portable_prefix_xorsum(x: u64) -> u64
    ensures { (i : ℕ) → i < 64 → bit_at result i ≡ xor_below (bit_at x) i }
{
    portable_prefix_xorsum_inclusive(x << 1)
}

/// Each bit of the answer is the xor of the bits of `x` below it.
pub fn prefix_xorsum(x: u64) -> u64
    ensures { (i : ℕ) → i < 64 → bit_at result i ≡ xor_below (bit_at x) i }
{
    portable_prefix_xorsum(x)
}

/// Each bit of the answer is the xor of the bits of `x` up to it.
pub fn portable_prefix_xorsum_inclusive(x: u64) -> u64
    ensures { (i : ℕ) → i < 64 → bit_at result i ≡ xor_below (bit_at x) (i + 1) }
{
    let x = xor_shifted(x, 1);
    let x = xor_shifted(x, 2);
    let x = xor_shifted(x, 4);
    let x = xor_shifted(x, 8);
    let x = xor_shifted(x, 16);
    xor_shifted(x, 32)
}

// Each bit, xor the one `by` places below it.
fn xor_shifted(x: u64, by: u32) -> u64
    requires { by < 64 }
    ensures { result ≡ bit_xor x (x * 2 ^ by % 2 ^ 64) }
{
    x ^ x << by
}

/// Each bit of the answer is the xor of the bits of `x` up to it.
pub fn prefix_xorsum_inclusive(x: u64) -> u64
    ensures { (i : ℕ) → i < 64 → bit_at result i ≡ xor_below (bit_at x) (i + 1) }
{
    portable_prefix_xorsum_inclusive(x)
}
