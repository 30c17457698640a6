//! What the text of a step stands for.

ghost use Rattle.std.specs.Prelude.{◌≡◌, IfOk, IfSome, is_some, map};
ghost use Rattle.std.specs.List.{list_any};
ghost use Rattle.std.specs.Str.{bytes_eq};
ghost use Rattle.text_format.specs.Words.{is_among};
ghost use Rattle.mlir_lex.specs.Chain.{Agree, each};
ghost use Rattle.script_read.specs.Kinds.{match_words, match_arith_words, unquoted, name_of, sized, match_of, split_of, tile_for_of, tile_forall_of, fuse_of, multiples_of, pad_args_of, pad_of, vector_sizes_of, vectorize_of, one_name, one_of, two_name, two_of, three_name, three_of, many_name, many_of};
ghost use Rattle.script_read.specs.Numbers.{pad_value_of};

use crate::handles::handle;
use crate::names::Names;
use crate::numbers::{read_pad_value, read_sizes};
use crate::script::{HandleId, PadArgs, StepKind};
use mlir_base::{List, Memory, Name, Width};
use mlir_lex::{Fault, Refused};
use script_syntax::{
    FuseStep, HandleStep, ManyResults, MatchStep, Multiples, OneResult, PadStep, PadValue,
    QuotedName, Signed, SizedStep, ThreeResults, TileForStep, TwoResults, VectorSizes,
    VectorizeStep,
};
use std::alloc::Global;
use text_format::Token;

/// Functions, and operations other than elementwise ones.
const MATCH_WORDS: [&str; 24] = [
    "func.func",
    "return",
    "affine.apply",
    "affine.min",
    "tensor.empty",
    "tensor.extract_slice",
    "tensor.insert_slice",
    "tensor.pad",
    "tensor.parallel_insert_slice",
    "linalg.generic",
    "linalg.fill",
    "linalg.matmul",
    "linalg.batch_matmul",
    "linalg.transpose",
    "linalg.broadcast",
    "linalg.pack",
    "linalg.unpack",
    "scf.for",
    "scf.forall",
    "scf.yield",
    "vector.create_mask",
    "vector.transfer_read",
    "vector.transfer_write",
    "vector.multi_reduction",
];

/// Arithmetic.
const MATCH_ARITH_WORDS: [&str; 23] = [
    "arith.constant",
    "arith.addi",
    "arith.subi",
    "arith.muli",
    "arith.divsi",
    "arith.divui",
    "arith.remsi",
    "arith.remui",
    "arith.andi",
    "arith.ori",
    "arith.xori",
    "arith.shli",
    "arith.shrsi",
    "arith.shrui",
    "arith.maxsi",
    "arith.maxui",
    "arith.minsi",
    "arith.minui",
    "arith.cmpi",
    "arith.select",
    "arith.extsi",
    "arith.extui",
    "arith.trunci",
];

/// The word with these bytes.
fn word_among<'w>(words: &[&'w str], text: &[u8]) -> Option<&'w str>
    ensures found { is_some result ≡ list_any (λ word. bytes_eq text.now word.now) words.now }
    ensures same { IfSome result (λ word. word.now ≡ text.now) }
{
    for word in words {
        if text == word.as_bytes() {
            return Some(*word);
        }
    }
    None
}

fn match_word(text: &[u8]) -> Option<&'static str>
    ensures found { is_some result ≡ is_among match_words text.now }
    ensures same { IfSome result (λ word. word.now ≡ text.now) }
{
    let words: [&str; 24] = MATCH_WORDS;
    word_among(words.as_slice(), text)
}

fn match_arith_word(text: &[u8]) -> Option<&'static str>
    ensures found { is_some result ≡ is_among match_arith_words text.now }
    ensures same { IfSome result (λ word. word.now ≡ text.now) }
{
    let words: [&str; 23] = MATCH_ARITH_WORDS;
    word_among(words.as_slice(), text)
}

/// What stands between the quotes.
fn unquoted(text: &[u8]) -> &[u8]
    ensures { result.now ≡ unquoted text.now }
{
    match text {
        [_, inside @ .., _] => inside,
        _ => &[],
    }
}

/// The name of operations that are matched.
fn read_name(alloc: Global, quoted: &QuotedName) -> Result<Name, Refused>
    ensures { Agree result (name_of quoted.now) }
{
    let text = unquoted(quoted.text.text());
    if let Some(word) = match_word(text) {
        let name = Name::new(alloc, word)?;
        return Ok(name);
    }
    if let Some(word) = match_arith_word(text) {
        let name = Name::new(alloc, word)?;
        return Ok(name);
    }
    Err(Refused::At(Fault::Unsupported(quoted.text.start())))
}

fn read_names(alloc: Global, list: &[QuotedName]) -> Result<List<Name>, Refused>
    ensures { Agree result (each name_of list.now) }
{
    let mut found = List::new(alloc);
    for quoted in list {
        let name = read_name(alloc, quoted)?;
        found.push(name)?;
    }
    Ok(found)
}

fn read_match(
    alloc: Global,
    names: &Names,
    next: u32,
    step: &MatchStep,
) -> Result<StepKind, Refused>
    ensures { Agree result (match_of names.now next step.now) }
{
    let matched = read_names(alloc, step.names.as_slice())?;
    let inside = handle(names, next, &step.target)?;
    Ok(StepKind::Match {
        names: matched,
        inside,
    })
}

/// A handle, and numbers.
fn read_sized(
    alloc: Global,
    names: &Names,
    next: u32,
    target: &Token,
    numbers: &[Signed],
) -> Result<(HandleId, List<u32>), Refused>
    ensures { Agree result (sized names.now next target.now numbers.now) }
{
    let target = handle(names, next, target)?;
    let sizes = read_sizes(alloc, numbers)?;
    Ok((target, sizes))
}

fn read_split(names: &Names, next: u32, step: &HandleStep) -> Result<StepKind, Refused>
    ensures { Agree result (split_of names.now next step.now) }
{
    let handle = handle(names, next, &step.target)?;
    Ok(StepKind::Split { handle })
}

fn read_tile_for(
    alloc: Global,
    names: &Names,
    next: u32,
    step: &TileForStep,
) -> Result<StepKind, Refused>
    ensures { Agree result (tile_for_of names.now next step.now) }
{
    let (target, sizes) = read_sized(alloc, names, next, &step.target, step.sizes.as_slice())?;
    Ok(StepKind::TileFor { target, sizes })
}

pub fn read_tile_forall(
    alloc: Global,
    names: &Names,
    next: u32,
    step: &SizedStep,
) -> Result<StepKind, Refused>
    ensures { Agree result (tile_forall_of names.now next step.now) }
{
    let (target, sizes) = read_sized(alloc, names, next, &step.target, step.sizes.as_slice())?;
    Ok(StepKind::TileForall { target, sizes })
}

pub fn read_fuse(names: &Names, next: u32, step: &FuseStep) -> Result<StepKind, Refused>
    ensures { Agree result (fuse_of names.now next step.now) }
{
    let producer = handle(names, next, &step.producer)?;
    let containing = handle(names, next, &step.containing)?;
    Ok(StepKind::FuseInto {
        producer,
        containing,
    })
}

fn read_pad_values(alloc: Global, list: &[PadValue]) -> Result<List<(i128, Width)>, Refused>
    ensures { Agree result (each pad_value_of list.now) }
{
    let mut found = List::new(alloc);
    for value in list {
        let read = read_pad_value(value)?;
        found.push(read)?;
    }
    Ok(found)
}

/// A 1 for each dimension.
fn ones(alloc: Global, dims: &[u32]) -> Result<List<u32>, Memory>
    ensures { IfOk result (λ l. l ≡ map (λ _. 1) dims.now) }
{
    let ones: Vec<u32> = dims.iter().map(|_| 1).collect(alloc)?;
    Ok(List::from_vec(ones))
}

/// The multiples. Those that are left out are 1.
fn read_multiples(
    alloc: Global,
    dims: &List<u32>,
    multiples: &Option<Multiples>,
) -> Result<List<u32>, Refused>
    ensures { Agree result (multiples_of dims.now multiples.now) }
{
    match multiples {
        Some(written) => read_sizes(alloc, written.list.as_slice()),
        None => {
            let multiples = ones(alloc, dims.as_slice())?;
            Ok(multiples)
        }
    }
}

fn read_pad_args(alloc: Global, step: &PadStep) -> Result<PadArgs, Refused>
    ensures { Agree result (pad_args_of step.now) }
{
    let values = read_pad_values(alloc, step.values.as_slice())?;
    let dims = read_sizes(alloc, step.dimensions.as_slice())?;
    let multiples = read_multiples(alloc, &dims, &step.multiples)?;
    Ok(PadArgs {
        values,
        dims,
        multiples,
    })
}

pub fn read_pad(
    alloc: Global,
    names: &Names,
    next: u32,
    step: &PadStep,
) -> Result<StepKind, Refused>
    ensures { Agree result (pad_of names.now next step.now) }
{
    let target = handle(names, next, &step.target)?;
    let args = read_pad_args(alloc, step)?;
    Ok(StepKind::Pad { target, args })
}

fn read_vector_sizes(
    alloc: Global,
    sizes: &Option<VectorSizes>,
) -> Result<Option<List<u32>>, Refused>
    ensures { Agree result (vector_sizes_of sizes.now) }
{
    match sizes {
        None => Ok(None),
        Some(written) => {
            let sizes = read_sizes(alloc, written.list.as_slice())?;
            Ok(Some(sizes))
        }
    }
}

pub fn read_vectorize(
    alloc: Global,
    names: &Names,
    next: u32,
    step: &VectorizeStep,
) -> Result<StepKind, Refused>
    ensures { Agree result (vectorize_of names.now next step.now) }
{
    let target = handle(names, next, &step.target)?;
    let sizes = read_vector_sizes(alloc, &step.sizes)?;
    Ok(StepKind::Vectorize { target, sizes })
}

pub fn one_name<'b, 'a>(step: &'b OneResult<'a>) -> &'b Token<'a>
    ensures { result.now ≡ one_name step.now }
{
    match step {
        OneResult::Match(step) => &step.name,
        OneResult::Split(step) => &step.name,
        OneResult::Generalize(step) => &step.name,
        OneResult::TileFor(step) => &step.name,
        OneResult::Interchange(step) => &step.name,
        OneResult::Pack(step) => &step.name,
        OneResult::FuseElementwise(step) => &step.name,
    }
}

pub fn read_one(
    alloc: Global,
    names: &Names,
    next: u32,
    step: &OneResult,
) -> Result<StepKind, Refused>
    ensures { Agree result (one_of names.now next step.now) }
{
    match step {
        OneResult::Match(step) => read_match(alloc, names, next, step),
        OneResult::Split(step) => read_split(names, next, step),
        OneResult::Generalize(step) => {
            let target = handle(names, next, &step.target)?;
            Ok(StepKind::Generalize { target })
        }
        OneResult::TileFor(step) => read_tile_for(alloc, names, next, step),
        OneResult::Interchange(step) => {
            let (target, order) = read_sized(
                alloc,
                names,
                next,
                &step.target,
                step.sizes.as_slice(),
            )?;
            Ok(StepKind::Interchange { target, order })
        }
        OneResult::Pack(step) => {
            let (target, sizes) = read_sized(
                alloc,
                names,
                next,
                &step.target,
                step.sizes.as_slice(),
            )?;
            Ok(StepKind::Pack { target, sizes })
        }
        OneResult::FuseElementwise(step) => {
            let target = handle(names, next, &step.target)?;
            Ok(StepKind::FuseElementwise { target })
        }
    }
}

pub fn two_name<'b, 'a>(step: &'b TwoResults<'a>) -> &'b Token<'a>
    ensures { result.now ≡ two_name step.now }
{
    match step {
        TwoResults::Split(step) => &step.name,
        TwoResults::TileFor(step) => &step.name,
        TwoResults::TileForall(step) => &step.name,
        TwoResults::FuseInto(step) => &step.name,
    }
}

pub fn read_two(
    alloc: Global,
    names: &Names,
    next: u32,
    step: &TwoResults,
) -> Result<StepKind, Refused>
    ensures { Agree result (two_of names.now next step.now) }
{
    match step {
        TwoResults::Split(step) => read_split(names, next, step),
        TwoResults::TileFor(step) => read_tile_for(alloc, names, next, step),
        TwoResults::TileForall(step) => read_tile_forall(alloc, names, next, step),
        TwoResults::FuseInto(step) => read_fuse(names, next, step),
    }
}

pub fn three_name<'b, 'a>(step: &'b ThreeResults<'a>) -> &'b Token<'a>
    ensures { result.now ≡ three_name step.now }
{
    match step {
        ThreeResults::Split(step) => &step.name,
        ThreeResults::TileFor(step) => &step.name,
        ThreeResults::Pad(step) => &step.name,
    }
}

pub fn read_three(
    alloc: Global,
    names: &Names,
    next: u32,
    step: &ThreeResults,
) -> Result<StepKind, Refused>
    ensures { Agree result (three_of names.now next step.now) }
{
    match step {
        ThreeResults::Split(step) => read_split(names, next, step),
        ThreeResults::TileFor(step) => read_tile_for(alloc, names, next, step),
        ThreeResults::Pad(step) => read_pad(alloc, names, next, step),
    }
}

pub fn many_name<'b, 'a>(step: &'b ManyResults<'a>) -> &'b Token<'a>
    ensures { result.now ≡ many_name step.now }
{
    match step {
        ManyResults::Split(step) => &step.name,
        ManyResults::TileFor(step) => &step.name,
    }
}

pub fn read_many(
    alloc: Global,
    names: &Names,
    next: u32,
    step: &ManyResults,
) -> Result<StepKind, Refused>
    ensures { Agree result (many_of names.now next step.now) }
{
    match step {
        ManyResults::Split(step) => read_split(names, next, step),
        ManyResults::TileFor(step) => read_tile_for(alloc, names, next, step),
    }
}
