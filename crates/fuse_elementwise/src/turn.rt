use crate::found::Found;
use mlir_ir::{Func, OpId, OpKind, ValueId};

/// What changes as a pair is fused: no operation before a place is the consumer of another, and two values lose a use.
#[derive(Clone, Copy)]
pub(crate) struct Change {
    pub from: usize,
    pub outs: ValueId,
    pub gone: ValueId,
}

/// What is next in a function: no pair is left, the first pair's producer may trap, a map of its fused generic needs a
/// number beyond plus and minus 2^31, or the consumer becomes this.
#[derive(Drop)]
pub(crate) enum Next {
    Done,
    Traps(OpId),
    Large,
    Becomes(Found, OpKind, Change),
}

/// A function in which no pair is left, or in which the first pair was fused.
#[derive(Drop)]
pub(crate) enum Turn {
    Stays(Func),
    Goes(Func, Change),
}

/// Why no function is formed.
#[derive(Clone, Copy)]
pub(crate) enum Stopped {
    MayTrap(OpId),
    LargeNumber,
    Memory,
}
