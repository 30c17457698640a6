ghost use Rattle.std.specs.Prelude.{◌≡◌};
ghost use Rattle.text_format.specs.Lexemes.{lexeme_kind, lexeme_text};

use crate::front::Kind;

/// A token that a production fixes: a mark, a keyword, or an operation's name.
#[derive(Clone, Copy)]
pub enum Lexeme {
    OpenParenthesis,
    CloseParenthesis,
    OpenBrace,
    CloseBrace,
    OpenBracket,
    CloseBracket,
    Less,
    Greater,
    Comma,
    Colon,
    Equals,
    Arrow,
    Minus,
    Plus,
    Times,
    Module,
    FuncFunc,
    Return,
    FuncReturn,
    AffineMap,
    D0,
    TensorEmpty,
    LinalgGeneric,
    IndexingMaps,
    IteratorTypes,
    Parallel,
    Ins,
    Outs,
    Bb0,
    ArithAddi,
    LinalgYield,
    True,
    False,
    Dense,
    Index,
    ArithConstant,
    ArithCmpi,
    ArithSelect,
    ArithIndexCast,
    LinalgIndex,
    AffineApply,
    LinalgFill,
    LinalgMatmul,
    LinalgBatchMatmul,
    LinalgTranspose,
    LinalgBroadcast,
    Permutation,
    Dimensions,
    Attributes,
    WithNamedSequence,
    NamedSequence,
    Readonly,
    TransformYield,
    StructuredMatch,
    StructuredGeneralize,
    StructuredInterchange,
    TileUsingFor,
    TileUsingForall,
    FuseIntoContainingOp,
    StructuredPad,
    StructuredPack,
    StructuredVectorize,
    SplitHandle,
    ApplyRegisteredPass,
    Ops,
    In,
    Into,
    To,
    IteratorInterchange,
    TileSizes,
    PackedSizes,
    VectorSizes,
    PaddingValues,
    PaddingDimensions,
    PadToMultipleOf,
    CopyBackOp,
    /// `!transform.any_op`
    AnyOp,
    /// `@__transform_main`
    TransformMain,
    /// `"none"`
    QuotedNone,
    /// `"linalg-fuse-elementwise-ops"`
    FuseElementwiseOps,
}

impl Lexeme {
    /// What kind of token it is.
    pub fn kind(self) -> Kind
        ensures { result ≡ lexeme_kind self }
    {
        match self {
            Lexeme::Parallel | Lexeme::QuotedNone | Lexeme::FuseElementwiseOps => Kind::Quoted,
            Lexeme::Bb0 => Kind::Block,
            Lexeme::AnyOp => Kind::TypeWord,
            Lexeme::TransformMain => Kind::Symbol,
            Lexeme::OpenParenthesis
            | Lexeme::CloseParenthesis
            | Lexeme::OpenBrace
            | Lexeme::CloseBrace
            | Lexeme::OpenBracket
            | Lexeme::CloseBracket
            | Lexeme::Less
            | Lexeme::Greater
            | Lexeme::Comma
            | Lexeme::Colon
            | Lexeme::Equals
            | Lexeme::Arrow
            | Lexeme::Minus
            | Lexeme::Plus
            | Lexeme::Times => Kind::Mark,
            _ => Kind::Word,
        }
    }

    /// Its bytes.
    pub fn text(self) -> &'static [u8]
        ensures { result.now ≡ lexeme_text self }
    {
        match self {
            Lexeme::OpenParenthesis => b"(",
            Lexeme::CloseParenthesis => b")",
            Lexeme::OpenBrace => b"{",
            Lexeme::CloseBrace => b"}",
            Lexeme::OpenBracket => b"[",
            Lexeme::CloseBracket => b"]",
            Lexeme::Less => b"<",
            Lexeme::Greater => b">",
            Lexeme::Comma => b",",
            Lexeme::Colon => b":",
            Lexeme::Equals => b"=",
            Lexeme::Arrow => b"->",
            Lexeme::Minus => b"-",
            Lexeme::Plus => b"+",
            Lexeme::Times => b"*",
            Lexeme::Module => b"module",
            Lexeme::FuncFunc => b"func.func",
            Lexeme::Return => b"return",
            Lexeme::FuncReturn => b"func.return",
            Lexeme::AffineMap => b"affine_map",
            Lexeme::D0 => b"d0",
            Lexeme::TensorEmpty => b"tensor.empty",
            Lexeme::LinalgGeneric => b"linalg.generic",
            Lexeme::IndexingMaps => b"indexing_maps",
            Lexeme::IteratorTypes => b"iterator_types",
            Lexeme::Parallel => b"\"parallel\"",
            Lexeme::Ins => b"ins",
            Lexeme::Outs => b"outs",
            Lexeme::Bb0 => b"^bb0",
            Lexeme::ArithAddi => b"arith.addi",
            Lexeme::LinalgYield => b"linalg.yield",
            Lexeme::True => b"true",
            Lexeme::False => b"false",
            Lexeme::Dense => b"dense",
            Lexeme::Index => b"index",
            Lexeme::ArithConstant => b"arith.constant",
            Lexeme::ArithCmpi => b"arith.cmpi",
            Lexeme::ArithSelect => b"arith.select",
            Lexeme::ArithIndexCast => b"arith.index_cast",
            Lexeme::LinalgIndex => b"linalg.index",
            Lexeme::AffineApply => b"affine.apply",
            Lexeme::LinalgFill => b"linalg.fill",
            Lexeme::LinalgMatmul => b"linalg.matmul",
            Lexeme::LinalgBatchMatmul => b"linalg.batch_matmul",
            Lexeme::LinalgTranspose => b"linalg.transpose",
            Lexeme::LinalgBroadcast => b"linalg.broadcast",
            Lexeme::Permutation => b"permutation",
            Lexeme::Dimensions => b"dimensions",
            Lexeme::Attributes => b"attributes",
            Lexeme::WithNamedSequence => b"transform.with_named_sequence",
            Lexeme::NamedSequence => b"transform.named_sequence",
            Lexeme::Readonly => b"transform.readonly",
            Lexeme::TransformYield => b"transform.yield",
            Lexeme::StructuredMatch => b"transform.structured.match",
            Lexeme::StructuredGeneralize => b"transform.structured.generalize",
            Lexeme::StructuredInterchange => b"transform.structured.interchange",
            Lexeme::TileUsingFor => b"transform.structured.tile_using_for",
            Lexeme::TileUsingForall => b"transform.structured.tile_using_forall",
            Lexeme::FuseIntoContainingOp => b"transform.structured.fuse_into_containing_op",
            Lexeme::StructuredPad => b"transform.structured.pad",
            Lexeme::StructuredPack => b"transform.structured.pack",
            Lexeme::StructuredVectorize => b"transform.structured.vectorize",
            Lexeme::SplitHandle => b"transform.split_handle",
            Lexeme::ApplyRegisteredPass => b"transform.apply_registered_pass",
            Lexeme::Ops => b"ops",
            Lexeme::In => b"in",
            Lexeme::Into => b"into",
            Lexeme::To => b"to",
            Lexeme::IteratorInterchange => b"iterator_interchange",
            Lexeme::TileSizes => b"tile_sizes",
            Lexeme::PackedSizes => b"packed_sizes",
            Lexeme::VectorSizes => b"vector_sizes",
            Lexeme::PaddingValues => b"padding_values",
            Lexeme::PaddingDimensions => b"padding_dimensions",
            Lexeme::PadToMultipleOf => b"pad_to_multiple_of",
            Lexeme::CopyBackOp => b"copy_back_op",
            Lexeme::AnyOp => b"!transform.any_op",
            Lexeme::TransformMain => b"@__transform_main",
            Lexeme::QuotedNone => b"\"none\"",
            Lexeme::FuseElementwiseOps => b"\"linalg-fuse-elementwise-ops\"",
        }
    }
}
