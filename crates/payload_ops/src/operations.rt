ghost use Rattle.std.specs.Prelude.{◌≡◌, ◌^◌, ◌<◌, IfOk};
ghost use Rattle.payload_ops.specs.Bits.{quotient_traps, shifted_left, shifted_right, sign_shifted, on_values, binary_of, Gives};
ghost use Rattle.payload_ops.specs.declared.kinds.BinOp.TheVariants.{Divsi, Divui, Remsi, Remui};

use crate::bits::{low_bits, signed, wrap_signed};
use crate::kinds::{BinOp, Division};
use mlir_base::{Width, all_ones, sign_bit};

/// The operation on two values of the width (Arith manual), which gives a value of the width.
/// `Division` comes exactly where a divisor is 0, or where `Divsi` divides the least value by -1. A
/// shift by the width or more leaves 0, and one to the right that keeps the sign leaves the sign.
pub fn binary(op: BinOp, w: Width, a: u64, b: u64) -> Result<u64, Division>
    requires first { a < 2 ^ w }
    requires second { b < 2 ^ w }
    ensures value { Gives (binary_of op w a b) result }
    ensures in_type { IfOk result (λ v. v < 2 ^ w) }
{
    match op {
        BinOp::Addi => Ok(low_bits(w, a.wrapping_add(b))),
        BinOp::Subi => Ok(low_bits(w, a.wrapping_sub(b))),
        BinOp::Muli => Ok(low_bits(w, a.wrapping_mul(b))),
        BinOp::Divsi => signed_quotient(w, a, b),
        BinOp::Divui => unsigned_quotient(w, a, b),
        BinOp::Remsi => signed_remainder(w, a, b),
        BinOp::Remui => unsigned_remainder(w, a, b),
        BinOp::Andi => Ok(a & b),
        BinOp::Ori => Ok(a | b),
        BinOp::Xori => Ok(a ^ b),
        BinOp::Shli => Ok(shift_left(w, a, b)),
        BinOp::Shrsi => Ok(shift_sign_right(w, a, b)),
        BinOp::Shrui => Ok(shift_right(w, a, b)),
        BinOp::Maxsi => Ok(wrap_signed(w, signed(w, a).max(signed(w, b)))),
        BinOp::Maxui => Ok(a.max(b)),
        BinOp::Minsi => Ok(wrap_signed(w, signed(w, a).min(signed(w, b)))),
        BinOp::Minui => Ok(a.min(b)),
    }
}

// The quotient cut toward 0 (Arith manual, "arith.divsi").
#[tactic(auto, unfolding(crate::specs::Bits::on_values))]
fn signed_quotient(w: Width, a: u64, b: u64) -> Result<u64, Division>
    requires first { a < 2 ^ w }
    requires second { b < 2 ^ w }
    ensures { Gives (on_values Divsi w a b) result }
{
    if quotient_traps(w, a, b) {
        Err(Division)
    } else {
        Ok(wrap_signed(w, signed(w, a).wrapping_div(signed(w, b))))
    }
}

// A divisor is 0, or the quotient of the least value by -1 leaves the type.
fn quotient_traps(w: Width, a: u64, b: u64) -> bool
    ensures { result ≡ quotient_traps w a b }
{
    b == 0 || (a == sign_bit(w) && b == all_ones(w))
}

// The remainder with the dividend's sign (Arith manual, "arith.remsi").
#[tactic(auto, unfolding(crate::specs::Bits::on_values))]
fn signed_remainder(w: Width, a: u64, b: u64) -> Result<u64, Division>
    requires first { a < 2 ^ w }
    requires second { b < 2 ^ w }
    ensures { Gives (on_values Remsi w a b) result }
{
    if b == 0 {
        Err(Division)
    } else {
        Ok(wrap_signed(w, signed(w, a).wrapping_rem(signed(w, b))))
    }
}

#[tactic(auto, unfolding(crate::specs::Bits::on_values))]
fn unsigned_quotient(w: Width, a: u64, b: u64) -> Result<u64, Division>
    ensures { Gives (on_values Divui w a b) result }
{
    if b == 0 { Err(Division) } else { Ok(a / b) }
}

#[tactic(auto, unfolding(crate::specs::Bits::on_values))]
fn unsigned_remainder(w: Width, a: u64, b: u64) -> Result<u64, Division>
    ensures { Gives (on_values Remui w a b) result }
{
    if b == 0 { Err(Division) } else { Ok(a % b) }
}

// A shift by the width or more leaves no bit of `a`.
fn shift_left(w: Width, a: u64, b: u64) -> u64
    ensures { result ≡ shifted_left w a b }
{
    if b < w.bits() as u64 {
        low_bits(w, a << b)
    } else {
        0
    }
}

fn shift_right(w: Width, a: u64, b: u64) -> u64
    ensures { result ≡ shifted_right w a b }
{
    if b < w.bits() as u64 { a >> b } else { 0 }
}

// A shift by the width or more leaves the sign alone, in each bit.
fn shift_sign_right(w: Width, a: u64, b: u64) -> u64
    requires { a < 2 ^ w }
    ensures { result ≡ sign_shifted w a b }
{
    if b < w.bits() as u64 {
        wrap_signed(w, signed(w, a) >> b)
    } else if a < sign_bit(w) {
        0
    } else {
        all_ones(w)
    }
}
