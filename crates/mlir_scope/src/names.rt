//! Names in scope.

ghost use Rattle.std.specs.Prelude.{◌≡◌, ◌<◌, ◌≤◌, ◌^◌, ◌∷◌, ◌++◌, [], None, length, take, IfOk, OnErr, OnOk, IfSome, option_copied, is_some, suc};
ghost use Rattle.std.specs.Option.{IsSomeAnd};
ghost use Rattle.mlir_scope.specs.Names.{find, entry, IsFront};
ghost use Rattle.mlir_scope.specs.declared.names.Meaning.{Meaning as Meant};

use mlir_base::{ElemTy, Memory};
use mlir_ir::Ty;
use payload_ops::Arg;
use std::alloc::Global;
use std::collections::HashMap;
use std::marker::Model;

/// What a name in scope stands for.
#[derive(Drop)]
pub enum Meaning {
    /// A value of the function, with its number and its type.
    Held(u32, Ty),
    /// A scalar constant of the function, with its number, its type and its value.
    Constant(u32, ElemTy, u64),
    /// An argument or a step of a payload, with its type.
    Local(Arg, ElemTy),
}

#[derive(Drop)]
struct Named<'a> {
    name: &'a [u8],
    means: Meaning,
}

impl<'a> Model for Named<'a> {
    ghost use Rattle.mlir_scope.specs.Names.{Entry, entry_code};

    ghost Value = { Entry };

    ghost coded = { entry_code };

    ghost view = { λ e. record { name = e.name.now; means = e.means } };
}

/// Takes the last away, and answers its name.
fn pop_name<'a>(entries: &mut Vec<Named<'a>>) -> Option<&'a [u8]>
    requires { 0 < length entries.old.items }
    ensures { IsSomeAnd result (λ n. (m : Meant) × (entries.old.items ≡ entries.new.items ++ entry n.now m ∷ [])) }
{
    match entries.pop() {
        Some(last) => Some(last.name),
        None => None,
    }
}

/// The names in scope.
#[derive(Drop)]
pub struct Names<'a> {
    entries: Vec<Named<'a>>,
    index: HashMap<&'a [u8], usize>,
}

impl<'a> Model for Names<'a> {
    ghost use Rattle.std.specs.Prelude.{◌≡◌, ℕ, List, []};
    ghost use Rattle.std.specs.Str.{bytes_eq};
    ghost use Rattle.std.specs.HashMap.{get_by};
    ghost use Rattle.std.specs.Coded.{coded_list};
    ghost use Rattle.mlir_scope.specs.Names.{Entry, entry_code, spot, FreshFrom};

    ghost Value = { List Entry };

    ghost coded = { coded_list entry_code };

    ghost view = { λ s. s.entries.items };

    ghost invariant = { λ s. ((q : List ℕ) → get_by (λ k. bytes_eq q k.now) s.index ≡ spot 0 s.entries.items q) × FreshFrom [] s.entries.items };
}

impl<'a> Names<'a> {
    pub fn new(alloc: Global) -> Names<'a>
        ensures { result ≡ [] }
    {
        Names {
            entries: Vec::new(alloc),
            index: HashMap::new(alloc),
        }
    }

    pub fn find(&self, name: &[u8]) -> Option<&Meaning>
        ensures { option_copied result ≡ find self.now name.now }
    {
        match self.index.get(&name) {
            Some(at) => Some(&self.entries[*at].means),
            None => None,
        }
    }

    pub fn define(&mut self, name: &'a [u8], means: Meaning) -> Result<(), Memory>
        requires { find self.old name.now ≡ None }
        ensures ok { OnOk result (self.new ≡ self.old ++ entry name.now means ∷ []) }
    {
        let at = self.entries.len();
        match self.index.insert(name, at) {
            Ok(_) => {}
            Err(_) => return Err(Memory),
        }
        match self.entries.push(Named { name, means }) {
            Ok(()) => Ok(()),
            Err(_) => {
                self.index.remove(&name);
                Err(Memory)
            }
        }
    }

    pub fn len(&self) -> usize
        ensures { result ≡ length self.now }
    {
        self.entries.len()
    }

    /// Leaves the name that was defined last.
    fn leave_one(&mut self)
        requires { 0 < length self.old }
        ensures { IsFront self.new self.old }
    {
        if let Some(name) = pop_name(&mut self.entries) {
            self.index.remove(&name);
        }
    }

    /// Leaves the names that were defined after the first so many.
    pub fn leave(&mut self, count: usize)
        requires { count ≤ length self.old }
        ensures { self.new ≡ take count self.old }
    {
        while self.len() > count {
            self.leave_one();
        }
    }
}

/// The names in scope, and the next numbers.
#[derive(Drop)]
pub struct Scope<'a> {
    pub env: Names<'a>,
    pub values: u32,
    pub ops: u32,
}
