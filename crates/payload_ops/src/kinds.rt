/// The operations of the `arith` dialect on two integers of one type (Arith manual).
#[derive(Clone, Copy, PartialEq, Eq)]
pub enum BinOp {
    Addi,
    Subi,
    Muli,
    Divsi,
    Divui,
    Remsi,
    Remui,
    Andi,
    Ori,
    Xori,
    Shli,
    Shrsi,
    Shrui,
    Maxsi,
    Maxui,
    Minsi,
    Minui,
}

/// The comparisons of `arith.cmpi`.
#[derive(Clone, Copy, PartialEq, Eq)]
pub enum Predicate {
    Eq,
    Ne,
    Slt,
    Sle,
    Sgt,
    Sge,
    Ult,
    Ule,
    Ugt,
    Uge,
}

/// How a reduction joins two values.
#[derive(Clone, Copy, PartialEq, Eq)]
pub enum Combiner {
    Add,
    Mul,
    And,
    Or,
    Xor,
    MaxS,
    MaxU,
    MinS,
    MinU,
}

/// The trap of a division by 0, or of the least value by -1.
#[derive(Clone, Copy, PartialEq, Eq)]
pub struct Division;
