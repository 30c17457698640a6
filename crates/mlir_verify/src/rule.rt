use mlir_ir::OpId;

/// The verifier's rules, in their order.
#[derive(Clone, Copy, Debug, PartialEq, Eq)]
pub enum Rule {
    V1,
    V2,
    V3,
    V4,
    V5,
    V6,
    V7,
    V8,
    V9,
    V10,
    V11,
    V12,
    V13,
    V14,
}

/// Why a module isn't verified.
#[derive(Clone, Copy, PartialEq, Eq)]
pub enum Refused {
    /// The first operation, in tree order, at which a rule fails, with the lowest such rule there.
    Rule { rule: Rule, op: OpId },
    Memory,
}
