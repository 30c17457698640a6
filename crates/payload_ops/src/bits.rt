ghost use Rattle.std.specs.Prelude.{◌≡◌, ◌%◌, ◌^◌, ◌<◌, ◌≤◌};
ghost use Rattle.payload_ops.specs.Bits.{reduce, signed_of, compares};

use crate::kinds::Predicate;
use mlir_base::{Width, all_ones, sign_bit};

/// The value of the width that is congruent to `n` modulo 2^N, where N is the width's bits.
pub fn wrap(w: Width, n: i128) -> u64
    ensures { result ≡ reduce w n }
{
    (n.cast_unsigned() & all_ones(w) as u128) as u64
}

/// The number that a value of the width stands for in two's complement, from -2^(N-1) up to
/// 2^(N-1) - 1.
pub fn signed(w: Width, v: u64) -> i64
    requires { v < 2 ^ w }
    ensures { result ≡ signed_of w v }
{
    if v < sign_bit(w) {
        v as i64
    } else {
        // `!n` is -n - 1, so this is v - 2^N.
        !((all_ones(w) - v) as i64)
    }
}

/// Tells whether a comparison of two values of the width holds (Arith manual, "arith.cmpi").
pub fn compare(predicate: Predicate, w: Width, a: u64, b: u64) -> bool
    requires first { a < 2 ^ w }
    requires second { b < 2 ^ w }
    ensures { result ≡ compares predicate w a b }
{
    match predicate {
        Predicate::Eq => a == b,
        Predicate::Ne => a != b,
        Predicate::Slt => signed(w, a) < signed(w, b),
        Predicate::Sle => signed(w, a) <= signed(w, b),
        Predicate::Sgt => signed(w, a) > signed(w, b),
        Predicate::Sge => signed(w, a) >= signed(w, b),
        Predicate::Ult => a < b,
        Predicate::Ule => a <= b,
        Predicate::Ugt => a > b,
        Predicate::Uge => a >= b,
    }
}

/// The value of the width that is congruent to `v`.
pub fn low_bits(w: Width, v: u64) -> u64
    ensures value { result ≡ v % 2 ^ w }
    ensures width { w ≤ 64 }
{
    v & all_ones(w)
}

/// The value of the width that is congruent to `n`.
pub fn wrap_signed(w: Width, n: i64) -> u64
    ensures value { result ≡ reduce w n }
    ensures width { w ≤ 64 }
{
    low_bits(w, n.cast_unsigned())
}
