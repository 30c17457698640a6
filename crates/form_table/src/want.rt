//! The table of forms: what stands in the text of each operation, in order.

ghost use Rattle.std.specs.Prelude.{◌≡◌};
ghost use Rattle.form_table.specs.Form.{constant_form, empty_form, extract_slice_form, generic_form, fill_form, product_form, transpose_form, broadcast_form, generic_tail, form, tail};

use text_format::{Class, Lexeme};

/// What an entry is.
#[derive(Clone, Copy)]
pub enum Element {
    /// A token of the class.
    Leaf(Class),
    /// A number, which may have a minus.
    Literal,
    /// A value or a number.
    Index,
    /// A map, by its alias or written out.
    Map,
}

/// What an entry is for, which tells what it must keep.
#[derive(Clone, Copy)]
pub enum Role {
    /// A value that is used.
    Used,
    /// The type of the operand of this number; of entries behind another, those from it on.
    TypeOf(usize),
    ResultType,
    /// The type of the output, the last value that is used.
    OutputType,
    /// The operation holds it.
    Held,
    /// It is this number, as many times as the list before it has entries.
    Repeated(u32),
}

/// What stands next in the text of an operation.
#[derive(Clone, Copy)]
pub enum Want {
    /// A token that the form fixes.
    Fixed(Lexeme),
    /// A blank, where text is written.
    Space,
    /// A token that the form fixes, and whose place is kept.
    Kept(Lexeme),
    One(Element, Role),
    /// Entries between commas, maybe none, up to the closing token.
    Listed(Element, Lexeme, Role),
    /// Entries, each behind a comma, as long as one comes next.
    More(Element, Role),
    /// The tokens of a dense literal.
    Dense,
    /// Where this token comes next, what follows stands; else as many wants are left out.
    Maybe(Lexeme, usize),
    /// As many wants are left out.
    Jump(usize),
}

/// An operation, by its name.
#[derive(Clone, Copy)]
pub enum Opcode {
    Constant,
    Empty,
    ExtractSlice,
    Generic,
    Fill,
    Matmul,
    BatchMatmul,
    Transpose,
    Broadcast,
}

/// `dense<[1, 2]> : T`, `true`, `false` or `5 : i32`
fn constant_form() -> &'static [Want]
    ensures { result.now ≡ constant_form }
{
    &[
        Want::Space,
        Want::Maybe(Lexeme::Dense, 9),
        Want::Fixed(Lexeme::Dense),
        Want::Fixed(Lexeme::Less),
        Want::Dense,
        Want::Kept(Lexeme::Greater),
        Want::Space,
        Want::Fixed(Lexeme::Colon),
        Want::Space,
        Want::One(Element::Leaf(Class::DenseType), Role::ResultType),
        Want::Jump(11),
        Want::Maybe(Lexeme::True, 2),
        Want::Fixed(Lexeme::True),
        Want::Jump(8),
        Want::Maybe(Lexeme::False, 2),
        Want::Fixed(Lexeme::False),
        Want::Jump(5),
        Want::One(Element::Literal, Role::Held),
        Want::Space,
        Want::Fixed(Lexeme::Colon),
        Want::Space,
        Want::One(Element::Leaf(Class::ElementType), Role::ResultType),
    ]
}

/// `() : T`
fn empty_form() -> &'static [Want]
    ensures { result.now ≡ empty_form }
{
    &[
        Want::Fixed(Lexeme::OpenParenthesis),
        Want::Fixed(Lexeme::CloseParenthesis),
        Want::Space,
        Want::Fixed(Lexeme::Colon),
        Want::Space,
        Want::One(Element::Leaf(Class::TensorType), Role::ResultType),
    ]
}

/// `%s[e, e] [e, e] [1, 1] : T to T`
fn extract_slice_form() -> &'static [Want]
    ensures { result.now ≡ extract_slice_form }
{
    &[
        Want::Space,
        Want::One(Element::Leaf(Class::Value), Role::Used),
        Want::Fixed(Lexeme::OpenBracket),
        Want::Listed(Element::Index, Lexeme::CloseBracket, Role::Held),
        Want::Space,
        Want::Fixed(Lexeme::OpenBracket),
        Want::Listed(Element::Index, Lexeme::CloseBracket, Role::Held),
        Want::Space,
        Want::Fixed(Lexeme::OpenBracket),
        Want::Listed(Element::Literal, Lexeme::CloseBracket, Role::Repeated(1)),
        Want::Space,
        Want::Fixed(Lexeme::Colon),
        Want::Space,
        Want::One(Element::Leaf(Class::TensorType), Role::TypeOf(0)),
        Want::Space,
        Want::Fixed(Lexeme::To),
        Want::Space,
        Want::One(Element::Leaf(Class::TensorType), Role::ResultType),
    ]
}

/// `{indexing_maps = [maps], iterator_types = [words]} ins(%a, %b : T, T) outs(%o : T) {`; the inputs may be left out
fn generic_form() -> &'static [Want]
    ensures { result.now ≡ generic_form }
{
    &[
        Want::Space,
        Want::Fixed(Lexeme::OpenBrace),
        Want::Fixed(Lexeme::IndexingMaps),
        Want::Space,
        Want::Fixed(Lexeme::Equals),
        Want::Space,
        Want::Fixed(Lexeme::OpenBracket),
        Want::Listed(Element::Map, Lexeme::CloseBracket, Role::Held),
        Want::Fixed(Lexeme::Comma),
        Want::Space,
        Want::Fixed(Lexeme::IteratorTypes),
        Want::Space,
        Want::Fixed(Lexeme::Equals),
        Want::Space,
        Want::Fixed(Lexeme::OpenBracket),
        Want::Listed(
            Element::Leaf(Class::Iterator),
            Lexeme::CloseBracket,
            Role::Held,
        ),
        Want::Fixed(Lexeme::CloseBrace),
        Want::Space,
        Want::Maybe(Lexeme::Ins, 11),
        Want::Fixed(Lexeme::Ins),
        Want::Fixed(Lexeme::OpenParenthesis),
        Want::One(Element::Leaf(Class::Value), Role::Used),
        Want::More(Element::Leaf(Class::Value), Role::Used),
        Want::Space,
        Want::Fixed(Lexeme::Colon),
        Want::Space,
        Want::One(Element::Leaf(Class::OperandType), Role::TypeOf(0)),
        Want::More(Element::Leaf(Class::OperandType), Role::TypeOf(1)),
        Want::Kept(Lexeme::CloseParenthesis),
        Want::Space,
        Want::Fixed(Lexeme::Outs),
        Want::Fixed(Lexeme::OpenParenthesis),
        Want::One(Element::Leaf(Class::Value), Role::Used),
        Want::Space,
        Want::Fixed(Lexeme::Colon),
        Want::Space,
        Want::One(Element::Leaf(Class::TensorType), Role::OutputType),
        Want::Fixed(Lexeme::CloseParenthesis),
        Want::Space,
        Want::Fixed(Lexeme::OpenBrace),
    ]
}

/// `ins(%c : E) outs(%o : T) -> T`
fn fill_form() -> &'static [Want]
    ensures { result.now ≡ fill_form }
{
    &[
        Want::Space,
        Want::Fixed(Lexeme::Ins),
        Want::Fixed(Lexeme::OpenParenthesis),
        Want::One(Element::Leaf(Class::Value), Role::Used),
        Want::Space,
        Want::Fixed(Lexeme::Colon),
        Want::Space,
        Want::One(Element::Leaf(Class::ElementType), Role::TypeOf(0)),
        Want::Fixed(Lexeme::CloseParenthesis),
        Want::Space,
        Want::Fixed(Lexeme::Outs),
        Want::Fixed(Lexeme::OpenParenthesis),
        Want::One(Element::Leaf(Class::Value), Role::Used),
        Want::Space,
        Want::Fixed(Lexeme::Colon),
        Want::Space,
        Want::One(Element::Leaf(Class::TensorType), Role::TypeOf(1)),
        Want::Fixed(Lexeme::CloseParenthesis),
        Want::Space,
        Want::Fixed(Lexeme::Arrow),
        Want::Space,
        Want::One(Element::Leaf(Class::TensorType), Role::ResultType),
    ]
}

/// `ins(%a, %b : T, T) outs(%o : T) -> T`
fn product_form() -> &'static [Want]
    ensures { result.now ≡ product_form }
{
    &[
        Want::Space,
        Want::Fixed(Lexeme::Ins),
        Want::Fixed(Lexeme::OpenParenthesis),
        Want::One(Element::Leaf(Class::Value), Role::Used),
        Want::Fixed(Lexeme::Comma),
        Want::Space,
        Want::One(Element::Leaf(Class::Value), Role::Used),
        Want::Space,
        Want::Fixed(Lexeme::Colon),
        Want::Space,
        Want::One(Element::Leaf(Class::TensorType), Role::TypeOf(0)),
        Want::Fixed(Lexeme::Comma),
        Want::Space,
        Want::One(Element::Leaf(Class::TensorType), Role::TypeOf(1)),
        Want::Fixed(Lexeme::CloseParenthesis),
        Want::Space,
        Want::Fixed(Lexeme::Outs),
        Want::Fixed(Lexeme::OpenParenthesis),
        Want::One(Element::Leaf(Class::Value), Role::Used),
        Want::Space,
        Want::Fixed(Lexeme::Colon),
        Want::Space,
        Want::One(Element::Leaf(Class::TensorType), Role::TypeOf(2)),
        Want::Fixed(Lexeme::CloseParenthesis),
        Want::Space,
        Want::Fixed(Lexeme::Arrow),
        Want::Space,
        Want::One(Element::Leaf(Class::TensorType), Role::ResultType),
    ]
}

/// `ins(%a : T) outs(%o : T) permutation = [1, 0]`
fn transpose_form() -> &'static [Want]
    ensures { result.now ≡ transpose_form }
{
    &[
        Want::Space,
        Want::Fixed(Lexeme::Ins),
        Want::Fixed(Lexeme::OpenParenthesis),
        Want::One(Element::Leaf(Class::Value), Role::Used),
        Want::Space,
        Want::Fixed(Lexeme::Colon),
        Want::Space,
        Want::One(Element::Leaf(Class::TensorType), Role::TypeOf(0)),
        Want::Fixed(Lexeme::CloseParenthesis),
        Want::Space,
        Want::Fixed(Lexeme::Outs),
        Want::Fixed(Lexeme::OpenParenthesis),
        Want::One(Element::Leaf(Class::Value), Role::Used),
        Want::Space,
        Want::Fixed(Lexeme::Colon),
        Want::Space,
        Want::One(Element::Leaf(Class::TensorType), Role::OutputType),
        Want::Fixed(Lexeme::CloseParenthesis),
        Want::Space,
        Want::Fixed(Lexeme::Permutation),
        Want::Space,
        Want::Fixed(Lexeme::Equals),
        Want::Space,
        Want::Fixed(Lexeme::OpenBracket),
        Want::Listed(Element::Literal, Lexeme::CloseBracket, Role::Held),
    ]
}

/// `ins(%a : T) outs(%o : T) dimensions = [0]`
fn broadcast_form() -> &'static [Want]
    ensures { result.now ≡ broadcast_form }
{
    &[
        Want::Space,
        Want::Fixed(Lexeme::Ins),
        Want::Fixed(Lexeme::OpenParenthesis),
        Want::One(Element::Leaf(Class::Value), Role::Used),
        Want::Space,
        Want::Fixed(Lexeme::Colon),
        Want::Space,
        Want::One(Element::Leaf(Class::TensorType), Role::TypeOf(0)),
        Want::Fixed(Lexeme::CloseParenthesis),
        Want::Space,
        Want::Fixed(Lexeme::Outs),
        Want::Fixed(Lexeme::OpenParenthesis),
        Want::One(Element::Leaf(Class::Value), Role::Used),
        Want::Space,
        Want::Fixed(Lexeme::Colon),
        Want::Space,
        Want::One(Element::Leaf(Class::TensorType), Role::OutputType),
        Want::Fixed(Lexeme::CloseParenthesis),
        Want::Space,
        Want::Fixed(Lexeme::Dimensions),
        Want::Space,
        Want::Fixed(Lexeme::Equals),
        Want::Space,
        Want::Fixed(Lexeme::OpenBracket),
        Want::Listed(Element::Literal, Lexeme::CloseBracket, Role::Held),
    ]
}

/// `} -> T`, behind the region
fn generic_tail() -> &'static [Want]
    ensures { result.now ≡ generic_tail }
{
    &[
        Want::Fixed(Lexeme::CloseBrace),
        Want::Space,
        Want::Fixed(Lexeme::Arrow),
        Want::Space,
        Want::One(Element::Leaf(Class::TensorType), Role::ResultType),
    ]
}

/// What stands behind the name, up to the region where the operation has one.
pub fn form(name: Opcode) -> &'static [Want]
    ensures { result.now ≡ form name }
{
    match name {
        Opcode::Constant => constant_form(),
        Opcode::Empty => empty_form(),
        Opcode::ExtractSlice => extract_slice_form(),
        Opcode::Generic => generic_form(),
        Opcode::Fill => fill_form(),
        Opcode::Matmul | Opcode::BatchMatmul => product_form(),
        Opcode::Transpose => transpose_form(),
        Opcode::Broadcast => broadcast_form(),
    }
}

/// What stands behind the region.
pub fn tail(name: Opcode) -> &'static [Want]
    ensures { result.now ≡ tail name }
{
    match name {
        Opcode::Generic => generic_tail(),
        _ => &[],
    }
}
