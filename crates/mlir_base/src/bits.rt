ghost use Rattle.std.specs.Prelude.{◌≡◌, ◌≤◌, ◌<◌};
ghost use Rattle.mlir_base.specs.Types.{least_signed, minus_one};

use crate::types::Width;

/// The greatest value of the width, which reads -1.
pub fn all_ones(w: Width) -> u64
    ensures value { result ≡ minus_one w }
    ensures width { w ≤ 64 }
{
    u64::MAX >> (64 - w.bits())
}

/// The value of the width whose only bit is the sign, which reads the least number.
pub fn sign_bit(w: Width) -> u64
    ensures value { result ≡ least_signed w }
    ensures width { (0 < w) × (w ≤ 64) }
{
    1 << (w.bits() - 1)
}
