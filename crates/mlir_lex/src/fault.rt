//! The faults of a tree.

ghost use Rattle.std.specs.Prelude.{◌≡◌};
ghost use Rattle.mlir_lex.specs.Faults.{reach_of, fault_error, stop_by};

use crate::read_error::ReadError;
use mlir_base::{Memory, Which};
use text_format::{Reason, Stopped};

/// A fault of a tree's names, types or numbers, with the place of its token.
#[derive(Clone, Copy)]
pub enum Fault {
    /// A list has more or fewer entries than its partner: at the surplus comma or the early closer.
    Syntax(u32),
    /// What MLIR has and the profile hasn't.
    Unsupported(u32),
    /// A name is used that isn't defined in scope.
    UnknownName(u32),
    /// A name is defined while it is in scope.
    Twice(u32),
    /// A written type isn't the one of its value.
    TypeDiffers(u32),
    /// A literal is outside the range of its place, which the token at the second place decides: its type, or the literal itself.
    Number(u32, u32),
    /// A number passes its limit.
    Limit(Which, u32),
}

impl Fault {
    /// The last token that the fault speaks of.
    pub fn reach(self) -> u32
        ensures { result ≡ reach_of self }
    {
        match self {
            Fault::Syntax(at) => at,
            Fault::Unsupported(at) => at,
            Fault::UnknownName(at) => at,
            Fault::Twice(at) => at,
            Fault::TypeDiffers(at) => at,
            Fault::Number(_, by) => by,
            Fault::Limit(_, at) => at,
        }
    }

    /// The refusal that names it.
    pub fn error(self) -> ReadError
        ensures { result ≡ fault_error self }
    {
        match self {
            Fault::Syntax(at) => ReadError::Syntax(at),
            Fault::Unsupported(at) => ReadError::Unsupported(at),
            Fault::UnknownName(at) => ReadError::UnknownName(at),
            Fault::Twice(at) => ReadError::Twice(at),
            Fault::TypeDiffers(at) => ReadError::TypeDiffers(at),
            Fault::Number(at, _) => ReadError::Number(at),
            Fault::Limit(which, _) => ReadError::Limit { which },
        }
    }
}

/// Why a tree isn't resolved.
#[derive(Clone, Copy)]
pub enum Refused {
    At(Fault),
    Memory,
}

impl From<Memory> for Refused {
    ghost use Rattle.mlir_lex.specs.declared.fault.Refused.TheVariants as refusals;

    ghost from_gives = { λ _ e. e ≡ refusals.Memory };

    fn from(_e: Memory) -> Refused {
        Refused::Memory
    }
}

/// The refusal of a text at which reading stopped.
pub fn stop_error(stopped: Stopped) -> ReadError
    ensures { result ≡ stop_by stopped.at stopped.why }
{
    match stopped.why {
        Reason::Syntax => ReadError::Syntax(stopped.at),
        Reason::Unsupported => ReadError::Unsupported(stopped.at),
    }
}
