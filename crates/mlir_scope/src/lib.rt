//! What is in scope where a tree is resolved, and what its smallest parts stand for: names, values, types, maps, numbers, words.
//!
//! `read_params` takes a function's parameters into its [`Scope`], and `read_alias` an alias of a map into the [`Aliases`] of a
//! file. A name is looked up in [`Names`], a value by `value_id`, `type_of`, `typed_as` and `operand`, a map by `read_map`. Each
//! answers what its tree stands for, or the first fault of the tree.
//!
//! Names in scope are in specs/Names.antt, the values that they stand for in specs/Scope.antt, types in specs/Types.antt, maps and
//! their aliases in specs/Maps.antt, numbers in specs/Literals.antt, and the names of operations in specs/Words.antt.
#![tactic(auto)]

mod literals;
mod maps;
mod name_list;
mod names;
mod typing;
mod values;
mod words;

pub use literals::{
    digits_value, elem_at, is_negative, most_of, one_bit, read_literal, sign_place, signed_by,
};
pub use maps::{Alias, Aliases, read_alias, read_map, read_map_with_symbols, use_start};
pub use name_list::NameList;
pub use names::{Meaning, Names, Scope};
pub use typing::{copy_type, counted, same_elem, type_at};
pub use values::{fresh, operand, read_params, type_of, typed_as, value_id};
pub use words::{
    Cast, binary_named, binary_text, cast_named, cast_text, predicate_named, predicate_text,
};
