//! The words of the profile, and the operations that are not read yet.

ghost use Rattle.std.specs.Prelude.{◌≡◌};
ghost use Rattle.std.specs.List.{list_any};
ghost use Rattle.std.specs.Str.{bytes_eq};
ghost use Rattle.text_format.specs.Classes.{Booleans, Iterators, Predicates, Binaries, Casts, Items, MapMarks, DenseMarks, texts_of};
ghost use Rattle.text_format.specs.Words.{is_among, profile_words, is_unbuilt, structure_words, keyword_words, tensor_words, loop_words, arith_words, choice_words, script_words, script_keyword_words, unbuilt_statements, unbuilt_operations, unbuilt_elementwise};

use crate::class::Position;

/// Words of files, functions and maps.
const STRUCTURE_WORDS: [&str; 6] = [
    "module",
    "attributes",
    "func.func",
    "func.return",
    "return",
    "affine_map",
];

/// Words of operations.
const KEYWORD_WORDS: [&str; 24] = [
    "ins",
    "outs",
    "indexing_maps",
    "iterator_types",
    "iter_args",
    "shared_outs",
    "to",
    "step",
    "in",
    "into",
    "low",
    "high",
    "permutation",
    "dimensions",
    "padding_value",
    "outer_dims_perm",
    "inner_dims_pos",
    "inner_tiles",
    "in_bounds",
    "permutation_map",
    "dense",
    "true",
    "false",
    "index",
];

/// Words of tensors.
const TENSOR_WORDS: [&str; 16] = [
    "tensor.empty",
    "tensor.extract_slice",
    "tensor.insert_slice",
    "tensor.pad",
    "tensor.yield",
    "tensor.parallel_insert_slice",
    "linalg.generic",
    "linalg.fill",
    "linalg.matmul",
    "linalg.batch_matmul",
    "linalg.transpose",
    "linalg.broadcast",
    "linalg.pack",
    "linalg.unpack",
    "linalg.index",
    "linalg.yield",
];

/// Words of loops, maps and vectors.
const LOOP_WORDS: [&str; 10] = [
    "affine.apply",
    "affine.min",
    "scf.for",
    "scf.forall",
    "scf.yield",
    "scf.forall.in_parallel",
    "vector.create_mask",
    "vector.transfer_read",
    "vector.transfer_write",
    "vector.multi_reduction",
];

/// Words of arithmetic.
const ARITH_WORDS: [&str; 24] = [
    "arith.constant",
    "arith.addi",
    "arith.subi",
    "arith.muli",
    "arith.divsi",
    "arith.divui",
    "arith.remsi",
    "arith.remui",
    "arith.andi",
    "arith.ori",
    "arith.xori",
    "arith.shli",
    "arith.shrsi",
    "arith.shrui",
    "arith.maxsi",
    "arith.maxui",
    "arith.minsi",
    "arith.minui",
    "arith.cmpi",
    "arith.select",
    "arith.extsi",
    "arith.extui",
    "arith.trunci",
    "arith.index_cast",
];

/// The words of predicates and combiners.
const CHOICE_WORDS: [&str; 19] = [
    "eq", "ne", "slt", "sle", "sgt", "sge", "ult", "ule", "ugt", "uge", "add", "mul", "and", "or",
    "xor", "maxsi", "maxui", "minsi", "minui",
];

/// Words with which an item of a file begins.
const ITEM_WORDS: [&str; 2] = ["func.func", "module"];

/// Truth values.
const BOOLEAN_WORDS: [&str; 2] = ["true", "false"];

/// The quoted iterator types.
const ITERATOR_TEXTS: [&str; 2] = ["\"parallel\"", "\"reduction\""];

/// The predicates of a comparison.
const PREDICATE_WORDS: [&str; 10] = [
    "eq", "ne", "slt", "sle", "sgt", "sge", "ult", "ule", "ugt", "uge",
];

/// Operations on two integers.
const BINARY_WORDS: [&str; 17] = [
    "arith.addi",
    "arith.subi",
    "arith.muli",
    "arith.divsi",
    "arith.divui",
    "arith.remsi",
    "arith.remui",
    "arith.andi",
    "arith.ori",
    "arith.xori",
    "arith.shli",
    "arith.shrsi",
    "arith.shrui",
    "arith.maxsi",
    "arith.maxui",
    "arith.minsi",
    "arith.minui",
];

/// Operations that change an integer's width.
const CAST_WORDS: [&str; 3] = ["arith.extsi", "arith.extui", "arith.trunci"];

/// The marks of a map's text, without the `<` and `>` around it.
const MAP_MARKS: [&str; 9] = ["(", ")", "[", "]", ",", "->", "+", "-", "*"];

/// The marks of a dense literal's text, without the `<` and `>` around it.
const DENSE_MARKS: [&str; 4] = ["-", "[", "]", ","];

/// Words of scripts.
const SCRIPT_WORDS: [&str; 15] = [
    "transform.named_sequence",
    "transform.with_named_sequence",
    "transform.readonly",
    "transform.yield",
    "transform.split_handle",
    "transform.apply_registered_pass",
    "transform.structured.match",
    "transform.structured.generalize",
    "transform.structured.interchange",
    "transform.structured.tile_using_for",
    "transform.structured.tile_using_forall",
    "transform.structured.fuse_into_containing_op",
    "transform.structured.pad",
    "transform.structured.pack",
    "transform.structured.vectorize",
];

/// Words of a script's steps.
const SCRIPT_KEYWORD_WORDS: [&str; 9] = [
    "ops",
    "iterator_interchange",
    "tile_sizes",
    "packed_sizes",
    "vector_sizes",
    "padding_values",
    "padding_dimensions",
    "pad_to_multiple_of",
    "copy_back_op",
];

/// Operations that are not read yet where a statement begins in a function.
const UNBUILT_STATEMENTS: [&str; 2] = ["scf.for", "scf.forall"];

/// Operations that are not read yet behind the results of an operation in a function.
const UNBUILT_OPERATIONS: [&str; 13] = [
    "affine.apply",
    "affine.min",
    "tensor.extract_slice",
    "tensor.insert_slice",
    "tensor.pad",
    "linalg.pack",
    "linalg.unpack",
    "scf.for",
    "scf.forall",
    "vector.create_mask",
    "vector.transfer_read",
    "vector.transfer_write",
    "vector.multi_reduction",
];

/// Arithmetic that is not read yet there.
const UNBUILT_ELEMENTWISE: [&str; 22] = [
    "arith.addi",
    "arith.subi",
    "arith.muli",
    "arith.divsi",
    "arith.divui",
    "arith.remsi",
    "arith.remui",
    "arith.andi",
    "arith.ori",
    "arith.xori",
    "arith.shli",
    "arith.shrsi",
    "arith.shrui",
    "arith.maxsi",
    "arith.maxui",
    "arith.minsi",
    "arith.minui",
    "arith.cmpi",
    "arith.select",
    "arith.extsi",
    "arith.extui",
    "arith.trunci",
];

/// Whether the text is one of the words.
fn is_among(words: &[&str], text: &[u8]) -> bool
    ensures { result ≡ list_any (λ word. bytes_eq text.now word.now) words.now }
{
    for word in words {
        if text == word.as_bytes() {
            return true;
        }
    }
    false
}

fn is_structure_word(text: &[u8]) -> bool
    ensures { result ≡ is_among structure_words text.now }
{
    let words: [&str; 6] = STRUCTURE_WORDS;
    is_among(words.as_slice(), text)
}

fn is_keyword_word(text: &[u8]) -> bool
    ensures { result ≡ is_among keyword_words text.now }
{
    let words: [&str; 24] = KEYWORD_WORDS;
    is_among(words.as_slice(), text)
}

fn is_tensor_word(text: &[u8]) -> bool
    ensures { result ≡ is_among tensor_words text.now }
{
    let words: [&str; 16] = TENSOR_WORDS;
    is_among(words.as_slice(), text)
}

fn is_loop_word(text: &[u8]) -> bool
    ensures { result ≡ is_among loop_words text.now }
{
    let words: [&str; 10] = LOOP_WORDS;
    is_among(words.as_slice(), text)
}

fn is_arith_word(text: &[u8]) -> bool
    ensures { result ≡ is_among arith_words text.now }
{
    let words: [&str; 24] = ARITH_WORDS;
    is_among(words.as_slice(), text)
}

fn is_choice_word(text: &[u8]) -> bool
    ensures { result ≡ is_among choice_words text.now }
{
    let words: [&str; 19] = CHOICE_WORDS;
    is_among(words.as_slice(), text)
}

fn is_script_word(text: &[u8]) -> bool
    ensures { result ≡ is_among script_words text.now }
{
    let words: [&str; 15] = SCRIPT_WORDS;
    is_among(words.as_slice(), text)
}

fn is_script_keyword_word(text: &[u8]) -> bool
    ensures { result ≡ is_among script_keyword_words text.now }
{
    let words: [&str; 9] = SCRIPT_KEYWORD_WORDS;
    is_among(words.as_slice(), text)
}

fn is_unbuilt_statement(text: &[u8]) -> bool
    ensures { result ≡ is_among unbuilt_statements text.now }
{
    let words: [&str; 2] = UNBUILT_STATEMENTS;
    is_among(words.as_slice(), text)
}

fn is_unbuilt_operation(text: &[u8]) -> bool
    ensures { result ≡ is_among unbuilt_operations text.now }
{
    let words: [&str; 13] = UNBUILT_OPERATIONS;
    is_among(words.as_slice(), text)
}

fn is_unbuilt_elementwise(text: &[u8]) -> bool
    ensures { result ≡ is_among unbuilt_elementwise text.now }
{
    let words: [&str; 22] = UNBUILT_ELEMENTWISE;
    is_among(words.as_slice(), text)
}

pub fn is_item_word(text: &[u8]) -> bool
    ensures { result ≡ is_among (texts_of Items) text.now }
{
    let words: [&str; 2] = ITEM_WORDS;
    is_among(words.as_slice(), text)
}

pub fn is_boolean_word(text: &[u8]) -> bool
    ensures { result ≡ is_among (texts_of Booleans) text.now }
{
    let words: [&str; 2] = BOOLEAN_WORDS;
    is_among(words.as_slice(), text)
}

pub fn is_iterator(text: &[u8]) -> bool
    ensures { result ≡ is_among (texts_of Iterators) text.now }
{
    let words: [&str; 2] = ITERATOR_TEXTS;
    is_among(words.as_slice(), text)
}

pub fn is_predicate(text: &[u8]) -> bool
    ensures { result ≡ is_among (texts_of Predicates) text.now }
{
    let words: [&str; 10] = PREDICATE_WORDS;
    is_among(words.as_slice(), text)
}

pub fn is_binary_name(text: &[u8]) -> bool
    ensures { result ≡ is_among (texts_of Binaries) text.now }
{
    let words: [&str; 17] = BINARY_WORDS;
    is_among(words.as_slice(), text)
}

pub fn is_cast_name(text: &[u8]) -> bool
    ensures { result ≡ is_among (texts_of Casts) text.now }
{
    let words: [&str; 3] = CAST_WORDS;
    is_among(words.as_slice(), text)
}

pub fn is_map_mark(text: &[u8]) -> bool
    ensures { result ≡ is_among (texts_of MapMarks) text.now }
{
    let words: [&str; 9] = MAP_MARKS;
    is_among(words.as_slice(), text)
}

pub fn is_dense_mark(text: &[u8]) -> bool
    ensures { result ≡ is_among (texts_of DenseMarks) text.now }
{
    let words: [&str; 4] = DENSE_MARKS;
    is_among(words.as_slice(), text)
}

/// Whether the text is a word of the profile that is no integer type.
#[tactic(auto, unfolding(crate::specs::Words::profile_words))]
pub fn is_listed(text: &[u8]) -> bool
    ensures { result ≡ profile_words text.now }
{
    is_structure_word(text)
        || is_keyword_word(text)
        || is_tensor_word(text)
        || is_loop_word(text)
        || is_arith_word(text)
        || is_choice_word(text)
        || is_script_word(text)
        || is_script_keyword_word(text)
}

/// Whether the text is the name of an operation that isn't read yet at the position. Each step of a payload is read.
pub fn is_unbuilt(position: Position, text: &[u8]) -> bool
    ensures { result ≡ is_unbuilt position text.now }
{
    match position {
        Position::Item
        | Position::PayloadStatement
        | Position::PayloadStep
        | Position::ScriptStatement
        | Position::ScriptStep => false,
        Position::Statement => is_unbuilt_statement(text),
        Position::Operation => is_unbuilt_operation(text) || is_unbuilt_elementwise(text),
    }
}
