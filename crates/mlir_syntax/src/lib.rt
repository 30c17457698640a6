//! The syntax of a text: its tree, whose leaves are the tokens that were read.
//!
//! A [`Text`] is a list of [`Item`]s: aliases, [`Function`]s and modules, which hold functions and at most one script
//! (`script_syntax`). A function is its signature, its [`Statement`]s and its return.
#![tactic(auto)]

mod read;
mod tree;
mod whole;

pub use tree::{
    AliasLine, ApplyOperand, ApplyStep, ApplySymbols, BatchMatmul, BinaryStep, BlockArg, BlockArgs,
    Broadcast, CastStep, CompareStep, Constant, ConstantStep, Conversion, DenseLiteral, DensePiece,
    Empty, Enclosed, Factors, Fill, Function, FunctionsEnd, Generic, IndexCastStep, IndexStep,
    InputTypes, Inputs, Item, IteratorType, Literal, MapPiece, MapUse, Matmul, ModuleAttributes,
    ModuleRest, NextArg, NextInput, NextResult, NextType, NextValue, Operands, Operation, Output,
    Param, Region, ResultTypes, ReturnName, ReturnType, Returned, ReturnedValues, ScalarLiteral,
    ScriptModule, SelectStep, SeveralResults, Sign, SignedNumber, SourceAndOutput, Statement, Step,
    StepOperation, Text, Transpose, TypedNumber, WrittenMap,
};
pub use whole::{read_tree, release};
