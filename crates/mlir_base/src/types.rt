ghost use Rattle.std.specs.Prelude.{◌≡◌, ◌≤◌, ◌<◌, ℕ, IsSome, IfSome, ◌↔◌};

use std::marker::Model;

/// The number of bits of an integer type, from 1 to 64.
#[derive(Clone, Copy, PartialEq, Eq)]
pub struct Width(u8);

impl Model for Width {
    ghost Value = { ℕ };

    ghost view = { λ w. w.0 };

    ghost invariant = { λ w. (0 < w.0) × (w.0 ≤ 64) };

    ghost inverse = { λ n. record { 0 = n } };
}

impl Width {
    /// The width of `n` bits, and `None` exactly where `n` is 0 or more than 64.
    pub fn new(n: u8) -> Option<Width>
        ensures valid { IsSome result ↔ ((0 < n) × (n ≤ 64)) }
        ensures value { IfSome result (λ w. w ≡ n) }
    {
        if n == 0 || n > 64 {
            None
        } else {
            Some(Width(n))
        }
    }

    pub fn bits(self) -> u8
        ensures value { result ≡ self }
        ensures within { (0 < result) × (result ≤ 64) }
    {
        self.0
    }
}

/// The type of one element: a signless integer of a width, or `index`, which has 64 bits
/// (Builtin manual, "IntegerType" and "IndexType").
#[derive(Clone, Copy, PartialEq, Eq)]
pub enum ElemTy {
    Int(Width),
    Index,
}

impl ElemTy {
    ghost use Rattle.mlir_base.specs.Types.{bits_of};

    /// The width of the type's values.
    pub fn width(&self) -> Width
        ensures { result ≡ bits_of self.now }
    {
        match self {
            ElemTy::Int(width) => *width,
            ElemTy::Index => Width(64),
        }
    }
}
