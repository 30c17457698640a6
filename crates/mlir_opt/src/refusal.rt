ghost use Rattle.std.specs.Prelude.{◌≡◌, Some};
ghost use Rattle.mlir_opt.specs.Refusals.{fault_word, limit_word, message_of, rule_word, status_of, step_rule_word};

use mlir_base::Which;
use mlir_verify::Rule;
use rewrite_base::StepRule;
use std::fmt;

/// What is wrong in a text at a place.
#[derive(Clone, Copy, Drop)]
pub enum Fault {
    /// A byte that begins no token.
    Byte,
    /// A quoted text or a shaped type that isn't closed on its line.
    Unclosed,
    /// An operation or a type that isn't built.
    Unsupported,
    /// A token that continues no text.
    Syntax,
    /// A name that isn't in scope.
    UnknownName,
    /// A name that is defined again.
    Twice,
    /// A written type that isn't the value's.
    TypeDiffers,
    /// A number out of its range.
    Number,
}

/// Why a step of a script isn't applied.
#[derive(Clone, Copy, Drop)]
pub enum StepFault {
    /// It isn't built yet.
    Unsupported,
    /// A rule of the step is broken.
    Rule(StepRule),
    /// A limit is passed.
    Limit(Which),
}

/// Why there is no output. Its `Display` is the line on `err`, without the line feed.
#[derive(Clone, Copy, Drop)]
pub enum Refusal {
    /// The words are no command.
    Words,
    /// The file isn't there.
    FileAbsent,
    /// The file isn't opened, or a read failed.
    ReadFailed,
    /// A limit is passed.
    Limit {
        which: Which,
    },
    /// The text has a fault, at a line and a column, both from 1 and counted in bytes.
    Text {
        line: u32,
        column: u32,
        fault: Fault,
    },
    /// A rule of the verifier fails at an operation, by its number in tree order from 0.
    Verify {
        rule: Rule,
        op: u32,
    },
    /// A script is to be applied, and the file has none.
    NoScript,
    /// A step of the script isn't applied. It is told by its number from 1.
    Step {
        step: u32,
        why: StepFault,
    },
    /// A write failed, or took no byte.
    WriteFailed,
    /// There is no memory.
    Memory,
}

/// Why a file isn't read.
#[derive(Clone, Copy, Drop)]
pub enum FileError {
    /// It isn't there.
    Absent,
    /// It isn't opened, or a read failed.
    Failed,
    /// It has too many bytes.
    Limit,
    /// There is no memory.
    Memory,
}

/// Why a text isn't processed.
#[derive(Clone, Copy, Drop)]
pub enum TextError {
    /// As [`Refusal::Limit`].
    Limit {
        which: Which,
    },
    /// As [`Refusal::Text`].
    Text {
        line: u32,
        column: u32,
        fault: Fault,
    },
    /// As [`Refusal::Verify`].
    Verify {
        rule: Rule,
        op: u32,
    },
    /// As [`Refusal::NoScript`].
    NoScript,
    /// As [`Refusal::Step`].
    Step {
        step: u32,
        why: StepFault,
    },
    /// There is no memory.
    Memory,
}

/// The word of a limit in its line.
fn limit_text(which: Which) -> &'static str
    ensures { result.now ≡ limit_word which }
{
    match which {
        Which::Bytes => "bytes",
        Which::Operations => "operations",
        Which::Depth => "depth",
        Which::Parameters => "parameters",
        Which::Results => "results",
        Which::Operands => "operands",
        Which::PayloadSteps => "payload-steps",
        Which::ScriptSteps => "script-steps",
        Which::Rank => "rank",
        Which::Loops => "loops",
        Which::Extent => "extent",
        Which::Elements => "elements",
        Which::Lanes => "lanes",
        Which::Cells => "cells",
        Which::Work => "work",
    }
}

/// The word of a fault in its line.
fn fault_text(fault: Fault) -> &'static str
    ensures { result.now ≡ fault_word fault }
{
    match fault {
        Fault::Byte => "byte",
        Fault::Unclosed => "unclosed",
        Fault::Unsupported => "unsupported",
        Fault::Syntax => "syntax",
        Fault::UnknownName => "unknown-name",
        Fault::Twice => "twice",
        Fault::TypeDiffers => "type-differs",
        Fault::Number => "number",
    }
}

/// The name of a rule in its line.
fn rule_text(rule: Rule) -> &'static str
    ensures { result.now ≡ rule_word rule }
{
    match rule {
        Rule::V1 => "V1",
        Rule::V2 => "V2",
        Rule::V3 => "V3",
        Rule::V4 => "V4",
        Rule::V5 => "V5",
        Rule::V6 => "V6",
        Rule::V7 => "V7",
        Rule::V8 => "V8",
        Rule::V9 => "V9",
        Rule::V10 => "V10",
        Rule::V11 => "V11",
        Rule::V12 => "V12",
        Rule::V13 => "V13",
        Rule::V14 => "V14",
    }
}

/// The name of a step's rule in its line.
fn step_rule_text(rule: StepRule) -> &'static str
    ensures { result.now ≡ step_rule_word rule }
{
    match rule {
        StepRule::HandleDead => "handle-dead",
        StepRule::HandleCount => "handle-count",
        StepRule::WrongKind => "wrong-kind",
        StepRule::ResultCount => "result-count",
        StepRule::SizeCount => "size-count",
        StepRule::Permutation => "permutation",
        StepRule::ReductionOrder => "reduction-order",
        StepRule::ReductionCombiner => "reduction-combiner",
        StepRule::ReductionForall => "reduction-forall",
        StepRule::NoLoop => "no-loop",
        StepRule::EmptyWindow => "empty-window",
        StepRule::Inside => "inside",
        StepRule::NotUsedInside => "not-used-inside",
        StepRule::Cover => "cover",
        StepRule::MayTrap => "may-trap",
        StepRule::PadDims => "pad-dims",
        StepRule::PadValues => "pad-values",
        StepRule::PadWindow => "pad-window",
        StepRule::PadNeutral => "pad-neutral",
        StepRule::PackWindow => "pack-window",
        StepRule::PackIndex => "pack-index",
        StepRule::PackDynamic => "pack-dynamic",
        StepRule::VectorSize => "vector-size",
        StepRule::VectorMap => "vector-map",
        StepRule::VectorIndex => "vector-index",
    }
}

impl fmt::Display for Refusal {
    ghost output = { λ r. Some (message_of r) };

    fn fmt<W: fmt::Write>(&self, f: &mut fmt::Formatter<W>) -> fmt::Result {
        match self {
            Refusal::Words => f.write_str("error: words"),
            Refusal::FileAbsent => f.write_str("error: file absent"),
            Refusal::ReadFailed => f.write_str("error: read failed"),
            Refusal::Limit { which } => {
                let word = limit_text(*which);
                write!(f, "error: limit {word}")
            }
            Refusal::Text {
                line,
                column,
                fault,
            } => {
                let word = fault_text(*fault);
                write!(f, "error: {line}:{column}: {word}")
            }
            Refusal::Verify { rule, op } => {
                let name = rule_text(*rule);
                write!(f, "error: verify {name} at {op}")
            }
            Refusal::NoScript => f.write_str("error: no script"),
            Refusal::Step { step, why } => match why {
                StepFault::Unsupported => {
                    let word = fault_text(Fault::Unsupported);
                    write!(f, "error: step {step} {word}")
                }
                StepFault::Rule(rule) => {
                    let name = step_rule_text(*rule);
                    write!(f, "error: step {step} {name}")
                }
                StepFault::Limit(which) => {
                    let word = limit_text(*which);
                    write!(f, "error: step {step} limit {word}")
                }
            },
            Refusal::WriteFailed => f.write_str("error: write failed"),
            Refusal::Memory => f.write_str("error: memory"),
        }
    }
}

/// The exit status of a refusal.
pub fn status(refusal: Refusal) -> u8
    ensures { result ≡ status_of refusal }
{
    match refusal {
        Refusal::Limit { .. } | Refusal::Text { .. } | Refusal::Verify { .. } => 1,
        Refusal::NoScript | Refusal::Step { .. } => 1,
        Refusal::Words => 2,
        Refusal::FileAbsent | Refusal::ReadFailed | Refusal::WriteFailed => 3,
        Refusal::Memory => 4,
    }
}
