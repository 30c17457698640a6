//! The small types that every crate above uses.
//!
//! - `Memory` is the one answer for want of memory.
//! - `List` and `Name` hold items and text, and contracts see them as lists.
//! - `Width::new` makes the width of an integer type; `ElemTy` is the type of an element. `all_ones`
//!   and `sign_bit` are the values of a width that read -1 and the least number.
//! - `is_in_range` and `is_coefficient` test the numbers of a linear form.
//! - `Which` names a limit.
//!
//! `specs/Types.antt` has the values of a type, and `specs/Numbers.antt` which numbers a linear form
//! may have. `specs/formers` lets a type stand in a `List` of itself.
#![tactic(auto)]

mod bits;
mod limit;
mod list;
mod memory;
mod name;
mod numbers;
mod types;

pub use bits::{all_ones, sign_bit};
pub use limit::Which;
pub use list::List;
pub use memory::Memory;
pub use name::Name;
pub use numbers::{is_coefficient, is_in_range};
pub use types::{ElemTy, Width};
