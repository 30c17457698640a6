//! The syntax of a script: its tree, whose leaves are the tokens that were read.
//!
//! A [`Sequence`] is a named sequence of the transform dialect: its root handle and its [`Line`]s. A line has a step behind
//! the names of the step's results, or is a step without results. Which steps may have how many results is part of the
//! grammar: [`OneResult`], [`TwoResults`], [`ThreeResults`] and [`ManyResults`] behind names that are listed, and
//! [`GroupStep`] behind one name for all, `%t:3`.
//!
//! A sequence has a format and is read by a parser, so that a file's grammar takes it as a part.
#![tactic(auto)]

mod read;
mod tree;

pub use read::release;
pub use tree::{
    BehindFirst, BehindSecond, BehindThird, Further, FuseStep, Group, GroupStep, GroupTypes,
    HandleStep, Line, ManyResults, MatchStep, MoreTypes, Multiples, NamedStep, NextResult,
    NextType, OneResult, PadStep, PadValue, QuotedName, Second, Sequence, Signed, SizedStep, Third,
    ThreeResults, TileForStep, TwoResults, VectorSizes, VectorizeStep,
};
