//! Generic operations.

use super::maps::MapUse;
use super::payloads::Region;
use mlir_base::List;
use text_format::Token;

/// `"parallel"` or `"reduction"`
#[derive(Drop)]
pub struct IteratorType<'a> {
    pub word: Token<'a>,
}

/// `, %name`, an input of a generic operation behind the first.
#[derive(Drop)]
pub struct NextInput<'a> {
    pub name: Token<'a>,
}

/// `, ty`, the type of an input behind the first.
#[derive(Drop)]
pub struct NextType<'a> {
    pub comma: Token<'a>,
    pub ty: Token<'a>,
}

/// `ty, ty)`, the types of the inputs, one for each.
#[derive(Drop)]
pub struct InputTypes<'a> {
    pub first: Token<'a>,
    pub more: List<NextType<'a>>,
    pub close: Token<'a>,
}

/// `ins(%a, %b : ty, ty)`
#[derive(Drop)]
pub struct Inputs<'a> {
    pub first: Token<'a>,
    pub more: List<NextInput<'a>>,
    pub types: InputTypes<'a>,
}

/// `outs(%o : ty)`
#[derive(Drop)]
pub struct Output<'a> {
    pub name: Token<'a>,
    pub ty: Token<'a>,
}

/// `ins(%a, %b : ty, ty) outs(%o : ty)`, or the output alone
#[derive(Drop)]
pub struct Operands<'a> {
    pub inputs: Option<Inputs<'a>>,
    pub output: Output<'a>,
}

/// `linalg.generic {indexing_maps = [maps], iterator_types = [iterators]} operands { region } -> ty`
#[derive(Drop)]
pub struct Generic<'a> {
    pub name: Token<'a>,
    pub maps: List<MapUse<'a>>,
    pub iterators: List<IteratorType<'a>>,
    pub operands: Operands<'a>,
    pub region: Region<'a>,
    pub result_type: Token<'a>,
}
