//! The steps that may stand behind so many names of results.

use super::steps::{FuseStep, HandleStep, MatchStep, PadStep, SizedStep, TileForStep};
use mlir_base::List;
use text_format::Token;

/// `, %name`, the name of a result.
#[derive(Drop)]
pub struct NextResult<'a> {
    pub name: Token<'a>,
}

/// `, !transform.any_op`, the type of a result.
#[derive(Drop)]
pub struct NextType<'a> {
    pub comma: Token<'a>,
}

/// `, !transform.any_op, !transform.any_op)`, the types of further results.
#[derive(Drop)]
pub struct MoreTypes<'a> {
    pub more: List<NextType<'a>>,
    pub close: Token<'a>,
}

/// A step with one result, with its types.
#[derive(Drop)]
pub enum OneResult<'a> {
    Match(MatchStep<'a>),
    Split(HandleStep<'a>),
    Generalize(HandleStep<'a>),
    TileFor(TileForStep<'a>),
    Interchange(SizedStep<'a>),
    Pack(SizedStep<'a>),
    FuseElementwise(HandleStep<'a>),
}

/// A step with two results, with its types.
#[derive(Drop)]
pub enum TwoResults<'a> {
    Split(HandleStep<'a>),
    TileFor(TileForStep<'a>),
    TileForall(SizedStep<'a>),
    FuseInto(FuseStep<'a>),
}

/// A step with three results, with its types.
#[derive(Drop)]
pub enum ThreeResults<'a> {
    Split(HandleStep<'a>),
    TileFor(TileForStep<'a>),
    Pad(PadStep<'a>),
}

/// A step with any number of results from one on.
#[derive(Drop)]
pub enum ManyResults<'a> {
    Split(HandleStep<'a>),
    TileFor(TileForStep<'a>),
}

/// The types of the results that one name stands for: one, or several in parentheses, of which two stand before these.
#[derive(Drop)]
pub enum GroupTypes<'a> {
    One(Token<'a>),
    Several(MoreTypes<'a>),
}

/// A step whose results have one name, with its types.
#[derive(Drop)]
pub enum GroupStep<'a> {
    TileForall(SizedStep<'a>),
    FuseInto(FuseStep<'a>),
    Pad(PadStep<'a>),
    Many(ManyResults<'a>, GroupTypes<'a>),
}

/// `:count = step`, where one name stands for all results.
#[derive(Drop)]
pub struct Group<'a> {
    pub count: Token<'a>,
    pub step: GroupStep<'a>,
}

/// `, %name, %names = step`, from the fourth result on. The types of four results stand before these.
#[derive(Drop)]
pub struct Further<'a> {
    pub name: Token<'a>,
    pub names: List<NextResult<'a>>,
    pub step: ManyResults<'a>,
    pub types: MoreTypes<'a>,
}

/// What stands behind three names.
#[derive(Drop)]
pub enum BehindThird<'a> {
    Step(ThreeResults<'a>),
    More(Further<'a>),
}

/// `, %name` and what stands behind it, the third result.
#[derive(Drop)]
pub struct Third<'a> {
    pub name: Token<'a>,
    pub rest: BehindThird<'a>,
}

/// What stands behind two names.
#[derive(Drop)]
pub enum BehindSecond<'a> {
    Step(TwoResults<'a>),
    More(Third<'a>),
}

/// `, %name` and what stands behind it, the second result.
#[derive(Drop)]
pub struct Second<'a> {
    pub name: Token<'a>,
    pub rest: BehindSecond<'a>,
}

/// What stands behind the first name.
#[derive(Drop)]
pub enum BehindFirst<'a> {
    Step(OneResult<'a>),
    More(Second<'a>),
    Group(Group<'a>),
}
