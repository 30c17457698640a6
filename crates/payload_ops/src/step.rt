use crate::kinds::{BinOp, Predicate};
use mlir_base::{ElemTy, List};

/// What an argument of a step names: an input by its number, the output's element before the
/// operation, or an earlier step by its number.
#[derive(Clone, Copy, PartialEq, Eq)]
pub enum Arg {
    Input(u32),
    Out,
    Step(u32),
}

/// What a step computes. `Index` is the coordinate of that number (`linalg.index`), `Captured` the
/// outer value of that number, and `Linear` a constant and the sum of coefficients times arguments.
#[derive(Drop)]
pub enum StepOp {
    Const(u64),
    Index(u32),
    Captured(u32),
    Linear {
        constant: i64,
        terms: List<(Arg, i64)>,
    },
    Binary(BinOp, Arg, Arg),
    Compare(Predicate, Arg, Arg),
    Select(Arg, Arg, Arg),
    SignExtend(Arg),
    ZeroExtend(Arg),
    Truncate(Arg),
    IndexCast(Arg),
}

/// One step of a payload, and the type of its value. A value of a type of N bits is a `u64` below
/// 2^N.
#[derive(Drop)]
pub struct PayloadStep {
    pub ty: ElemTy,
    pub op: StepOp,
}
