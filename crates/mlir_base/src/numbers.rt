ghost use Rattle.std.specs.Prelude.{◌≡◌};
ghost use Rattle.mlir_base.specs.Numbers.{is_in_range, is_coefficient};

/// Tells whether a number of a linear form lies within plus and minus 2^31.
pub fn is_in_range(n: i64) -> bool
    ensures { result ≡ is_in_range n }
{
    n.unsigned_abs() <= 1 << 31
}

/// Tells whether a number may be a coefficient of a linear form: within plus and minus 2^31, and
/// other than 0.
pub fn is_coefficient(n: i64) -> bool
    ensures { result ≡ is_coefficient n }
{
    n.unsigned_abs() > 0 && is_in_range(n)
}
