//! What a text is made of. A leaf is the token that was read.
//!
//! Each token that may be at fault is a leaf: names, types, operations' names, and the commas and
//! the closing token of a list whose length another list fixes.

pub mod constants;
pub mod files;
pub mod generics;
pub mod literals;
pub mod maps;
pub mod operations;
pub mod payloads;
pub mod steps;
pub mod structured;

pub use constants::{Constant, DenseLiteral, DensePiece, Literal};
pub use files::{
    AliasLine, Enclosed, Function, FunctionsEnd, Item, ModuleAttributes, ModuleRest, NextResult,
    NextValue, Param, ResultTypes, ReturnName, ReturnType, Returned, ReturnedValues, ScriptModule,
    SeveralResults, Text,
};
pub use generics::{
    Generic, InputTypes, Inputs, IteratorType, NextInput, NextType, Operands, Output,
};
pub use literals::{ScalarLiteral, Sign, SignedNumber, TypedNumber};
pub use maps::{MapPiece, MapUse, WrittenMap};
pub use operations::{Empty, Operation, Statement};
pub use payloads::{BlockArg, BlockArgs, NextArg, Region, Step};
pub use steps::{
    ApplyOperand, ApplyStep, ApplySymbols, BinaryStep, CastStep, CompareStep, ConstantStep,
    Conversion, IndexCastStep, IndexStep, SelectStep, StepOperation,
};
pub use structured::{BatchMatmul, Broadcast, Factors, Fill, Matmul, SourceAndOutput, Transpose};
