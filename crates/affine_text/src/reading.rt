//! Reading the text of a map.

pub mod collected;
pub mod fault;
pub mod gathering;
pub mod level;
pub mod multiple;
pub mod names;
pub mod number;
pub mod parse;
pub mod place;
pub mod reader;
