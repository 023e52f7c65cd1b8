// Values of fields: whole numbers with a sign in 32 bits, and arithmetic on them that is exact, in 64 bits.
#![tactic(auto)]

ghost use Rattle.std.specs.Prelude.{◌≡◌, cond, ◌≤◌, ◌<◌, ◌*◌, ◌^◌, pos, neg_ℤ, nat_abs, ◌+ℤ◌, ◌-ℤ◌};
ghost use Rattle.std.specs.Int.{w64};
ghost use Rattle.std.proofs.Common.{SFits};
ghost use Rattle.values.specs.Limits.{limited_values, limited, value_at};
ghost use Rattle.values.specs.Ratios.{rounded, scaled};
ghost use Rattle.values.specs.Sums.{total};
ghost use Rattle.values.specs.Words.{value_of, bits_of};
ghost use Rattle.values.specs.Changes.{revalued};

use fieldset::{fields_of, with};

// A result, held to the limits: none where it is outside.
pub fn limit(z: i64) -> Option<i32>
    ensures { limited_values result ≡ limited z }
{
    i32::try_from(z).ok()
}

// A magnitude with a sign.
fn signed(negative: bool, m: u64) -> i64
    requires { m < 2 ^ 63 }
    ensures { result ≡ cond negative (neg_ℤ (pos m)) (pos m) }
{
    let z = m as i64;
    if negative { -z } else { z }
}

// n p / q for a magnitude n, to the nearest whole number, halves up.
fn rounded(n: u32, p: u16, q: u16) -> u64
    requires { 0 < q }
    ensures { (result ≡ rounded (n * p) q) × (result < 2 ^ 63) }
{
    (2 * (u64::from(n) * u64::from(p)) + u64::from(q)) / (2 * u64::from(q))
}

// v p / q, to the nearest whole number, halves away from zero.
pub fn ratio(v: i32, p: u16, q: u16) -> Option<i32>
    requires { 0 < q }
    ensures { limited_values result ≡ limited (scaled v p q) }
{
    limit(signed(v < 0, rounded(v.unsigned_abs(), p, q)))
}

// A sum and a value more.
pub fn plus(a: i64, b: i32) -> i64
    requires { SFits w64 (a +ℤ b) }
    ensures { result ≡ a +ℤ b }
{
    a + i64::from(b)
}

// A value less a sum.
pub fn minus(a: i32, b: i64) -> i64
    requires { SFits w64 (a -ℤ b) }
    ensures { result ≡ a -ℤ b }
{
    i64::from(a) - b
}

// The sum of the values of a set of fields: at most 64 times 2 ^ 31.
pub fn sum(set: u64, values: &[i32; 64]) -> i64
    ensures { (result ≡ total (value_at values.now) set) × (nat_abs result ≤ 64 * 2147483648) }
{
    let mut s = 0;
    for f in fields_of(set) {
        s = plus(s, values[f]);
    }
    s
}

// The value of a number of 32 bits in two's complement.
pub fn of_bits(n: u32) -> i32
    ensures { result ≡ value_of n }
{
    n.cast_signed()
}

// The number of 32 bits that is a value in two's complement.
pub fn bits_of(v: i32) -> u32
    ensures { result ≡ bits_of v }
{
    v.cast_unsigned()
}

// Those of the first n fields whose values differ.
pub fn revalued(before: &[i32; 64], after: &[i32; 64], n: usize) -> u64
    requires { n ≤ 64 }
    ensures { result ≡ revalued n before.now after.now }
{
    let mut set = 0u64;
    for f in 0..n {
        if before[f] != after[f] {
            set = with(set, f);
        }
    }
    set
}
