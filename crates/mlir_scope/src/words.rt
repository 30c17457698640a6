//! The names of operations and of predicates.

ghost use Rattle.std.specs.Prelude.{◌≡◌};
ghost use Rattle.mlir_scope.specs.Words.{first_named, binary_text, predicate_text, cast_text, named_binary, named_predicate, named_cast};

use payload_ops::{BinOp, Predicate};

/// A change of an integer's width (MLIR Arith dialect, "arith.extsi", "arith.extui" and "arith.trunci").
#[derive(Clone, Copy)]
pub enum Cast {
    SignExtend,
    ZeroExtend,
    Truncate,
}

const BINARIES: [BinOp; 17] = [
    BinOp::Addi,
    BinOp::Subi,
    BinOp::Muli,
    BinOp::Divsi,
    BinOp::Divui,
    BinOp::Remsi,
    BinOp::Remui,
    BinOp::Andi,
    BinOp::Ori,
    BinOp::Xori,
    BinOp::Shli,
    BinOp::Shrsi,
    BinOp::Shrui,
    BinOp::Maxsi,
    BinOp::Maxui,
    BinOp::Minsi,
    BinOp::Minui,
];

const PREDICATES: [Predicate; 10] = [
    Predicate::Eq,
    Predicate::Ne,
    Predicate::Slt,
    Predicate::Sle,
    Predicate::Sgt,
    Predicate::Sge,
    Predicate::Ult,
    Predicate::Ule,
    Predicate::Ugt,
    Predicate::Uge,
];

const CASTS: [Cast; 3] = [Cast::SignExtend, Cast::ZeroExtend, Cast::Truncate];

/// The name of an operation on two integers.
pub fn binary_text(op: BinOp) -> &'static [u8]
    ensures { result.now ≡ binary_text op }
{
    match op {
        BinOp::Addi => b"arith.addi",
        BinOp::Subi => b"arith.subi",
        BinOp::Muli => b"arith.muli",
        BinOp::Divsi => b"arith.divsi",
        BinOp::Divui => b"arith.divui",
        BinOp::Remsi => b"arith.remsi",
        BinOp::Remui => b"arith.remui",
        BinOp::Andi => b"arith.andi",
        BinOp::Ori => b"arith.ori",
        BinOp::Xori => b"arith.xori",
        BinOp::Shli => b"arith.shli",
        BinOp::Shrsi => b"arith.shrsi",
        BinOp::Shrui => b"arith.shrui",
        BinOp::Maxsi => b"arith.maxsi",
        BinOp::Maxui => b"arith.maxui",
        BinOp::Minsi => b"arith.minsi",
        BinOp::Minui => b"arith.minui",
    }
}

/// The word of a predicate.
pub fn predicate_text(predicate: Predicate) -> &'static [u8]
    ensures { result.now ≡ predicate_text predicate }
{
    match predicate {
        Predicate::Eq => b"eq",
        Predicate::Ne => b"ne",
        Predicate::Slt => b"slt",
        Predicate::Sle => b"sle",
        Predicate::Sgt => b"sgt",
        Predicate::Sge => b"sge",
        Predicate::Ult => b"ult",
        Predicate::Ule => b"ule",
        Predicate::Ugt => b"ugt",
        Predicate::Uge => b"uge",
    }
}

/// The name of a change of an integer's width.
pub fn cast_text(cast: Cast) -> &'static [u8]
    ensures { result.now ≡ cast_text cast }
{
    match cast {
        Cast::SignExtend => b"arith.extsi",
        Cast::ZeroExtend => b"arith.extui",
        Cast::Truncate => b"arith.trunci",
    }
}

fn binary_among(ops: &[BinOp], text: &[u8]) -> Option<BinOp>
    ensures { result ≡ first_named binary_text text.now ops.now }
{
    for op in ops {
        if binary_text(*op) == text {
            return Some(*op);
        }
    }
    None
}

fn predicate_among(predicates: &[Predicate], text: &[u8]) -> Option<Predicate>
    ensures { result ≡ first_named predicate_text text.now predicates.now }
{
    for predicate in predicates {
        if predicate_text(*predicate) == text {
            return Some(*predicate);
        }
    }
    None
}

fn cast_among(casts: &[Cast], text: &[u8]) -> Option<Cast>
    ensures { result ≡ first_named cast_text text.now casts.now }
{
    for cast in casts {
        if cast_text(*cast) == text {
            return Some(*cast);
        }
    }
    None
}

/// The operation on two integers of this name. `None`: no operation has it.
#[tactic(auto, unfolding(crate::specs::Words::named_binary))]
pub fn binary_named(text: &[u8]) -> Option<BinOp>
    ensures { result ≡ named_binary text.now }
{
    let ops: [BinOp; 17] = BINARIES;
    binary_among(ops.as_slice(), text)
}

/// The predicate of this word. `None`: it is no predicate's.
#[tactic(auto, unfolding(crate::specs::Words::named_predicate))]
pub fn predicate_named(text: &[u8]) -> Option<Predicate>
    ensures { result ≡ named_predicate text.now }
{
    let all: [Predicate; 10] = PREDICATES;
    predicate_among(all.as_slice(), text)
}

/// The change of an integer's width of this name. `None`: none has it.
#[tactic(auto, unfolding(crate::specs::Words::named_cast))]
pub fn cast_named(text: &[u8]) -> Option<Cast>
    ensures { result ≡ named_cast text.now }
{
    let all: [Cast; 3] = CASTS;
    cast_among(all.as_slice(), text)
}
