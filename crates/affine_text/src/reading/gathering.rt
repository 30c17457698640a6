//! What a reader has gathered of a map's results.

ghost use Rattle.std.specs.Prelude.{◌≡◌, ◌≤◌, ◌<◌, ◌-◌, ◌∷◌, true, length, OnOk, IfOk};
ghost use Rattle.affine_text.specs.Multiples.{is_collected};
ghost use Rattle.affine_text.specs.Meaning.{and_then};
ghost use Rattle.affine_text.specs.Reading.{nothing_gathered, with_factor, with_level, turned, unturned, opened, closed, ended, next_product, next_result, close_by};
ghost use Rattle.affine_text.specs.Feeding.{Answers, EndsSum};

use crate::reading::collected::{Product, Sum};
use crate::reading::fault::{MapError, NoProduct};
use crate::reading::level::Level;
use affine_maps::Expr;
use mlir_base::{List, Memory};
use std::alloc::Global;
use std::marker::Model;
use std::mem::replace;

/// The results so far, and the levels of the expression that isn't read to its end. Parentheses nest
/// at most 64 deep.
#[derive(Drop)]
pub struct Gathering {
    alloc: Global,
    /// The levels around the innermost, from the outermost on.
    outer: Vec<Level>,
    level: Level,
    /// The place of the last token of the factor that came last.
    last: u32,
    results: List<Expr>,
}

impl Model for Gathering {
    ghost use Rattle.std.specs.Prelude.{◌≤◌, length, reverse};
    ghost use Rattle.affine_text.specs.Reading.{Gathered};
    ghost use Rattle.affine_text.specs.Codes.{gathered_code};

    ghost Value = { Gathered };

    ghost coded = { gathered_code };

    ghost view = { λ g. record { outer = reverse g.outer.items; level = g.level; last = g.last; results = g.results } };

    ghost invariant = { λ g. length g.outer.items ≤ 64 };
}

impl Gathering {
    pub fn new(alloc: Global) -> Gathering
        ensures { result ≡ nothing_gathered }
    {
        Gathering {
            alloc,
            outer: Vec::new(alloc),
            level: Level::new(alloc),
            last: 0,
            results: List::new(alloc),
        }
    }

    /// How many parentheses are open.
    pub fn depth(&self) -> usize
        ensures count { result ≡ length self.now.outer }
        ensures within { result ≤ 64 }
    {
        self.outer.len()
    }

    /// Turns the sign of the next factor.
    pub fn turn(&mut self)
        ensures { self.new ≡ with_level self.old (turned self.old.level) }
    {
        self.level.negative = !self.level.negative;
    }

    /// Takes the next factor as it is.
    pub fn unturn(&mut self)
        ensures { self.new ≡ with_level self.old (unturned self.old.level) }
    {
        self.level.negative = false;
    }

    /// A factor whose last token stands at this place.
    #[tactic(auto, unfolding(crate::specs::Reading::with_factor))]
    pub fn take_factor(&mut self, factor: Product, at: u32) -> Result<(), MapError>
        ensures value { Answers (with_factor self.old at factor) result self.new }
        ensures depth { OnOk result (length self.new.outer ≡ length self.old.outer) }
    {
        let level = replace(&mut self.level, Level::new(self.alloc));
        match level.take_factor(factor) {
            Ok(level) => {
                self.level = level;
                self.last = at;
                Ok(())
            }
            Err(NoProduct::Form) => Err(MapError::Form(at)),
            Err(NoProduct::Range) => Err(MapError::Range(at)),
        }
    }

    /// Ends the innermost expression, whose last token is that of its last factor.
    fn end_sum(&mut self) -> Result<Sum, MapError>
        ensures { EndsSum self.old result self.new }
    {
        let level = replace(&mut self.level, Level::new(self.alloc));
        match level.end_product() {
            Ok(Some(sum)) => Ok(sum),
            Ok(None) => Err(MapError::Range(self.last)),
            Err(_) => Err(MapError::Memory),
        }
    }

    /// The same, as a form.
    fn end_form(&mut self) -> Result<Expr, MapError>
        ensures value { EndsSum self.old result self.new }
        ensures collected { IfOk result (λ e. is_collected e ≡ true) }
    {
        match self.end_sum() {
            Ok(sum) => match sum.into_form() {
                Ok(form) => Ok(form),
                Err(_) => Err(MapError::Memory),
            },
            Err(e) => Err(e),
        }
    }

    /// Ends a product before the next, which is added or subtracted.
    pub fn next_product(&mut self, subtracts: bool) -> Result<(), MapError>
        ensures value { Answers (next_product subtracts self.old) result self.new }
        ensures depth { OnOk result (length self.new.outer ≡ length self.old.outer) }
    {
        match self.end_sum() {
            Ok(sum) => {
                self.level = Level::from_sum(self.alloc, sum, subtracts);
                Ok(())
            }
            Err(e) => Err(e),
        }
    }

    /// Ends a result.
    pub fn next_result(&mut self) -> Result<(), MapError>
        ensures value { Answers (next_result self.old) result self.new }
        ensures depth { OnOk result (length self.new.outer ≡ length self.old.outer) }
    {
        match self.end_form() {
            Ok(form) => match self.results.push(form) {
                Ok(()) => Ok(()),
                Err(_) => Err(MapError::Memory),
            },
            Err(e) => Err(e),
        }
    }

    /// Opens a parenthesis.
    pub fn open(&mut self) -> Result<(), Memory>
        requires { length self.old.outer < 64 }
        ensures { OnOk result (self.new ≡ opened self.old) }
    {
        let outer = replace(&mut self.level, Level::new(self.alloc));
        match self.outer.push(outer) {
            Ok(()) => Ok(()),
            Err(_) => Err(Memory),
        }
    }

    /// Ends the innermost expression as a factor of the level around it.
    fn close_group(&mut self, outer: Level, at: u32) -> Result<(), MapError>
        ensures value { Answers (and_then (ended self.old) (closed (outer ∷ self.old.outer) self.old at)) result self.new }
        ensures depth { OnOk result (length self.new.outer ≡ length self.old.outer) }
    {
        match self.end_form() {
            Ok(form) => {
                self.level = outer;
                self.take_factor(Product::of_form(self.alloc, form), at)
            }
            Err(e) => Err(e),
        }
    }

    /// Closes the innermost parenthesis, at this place, or else ends a result.
    pub fn close(&mut self, at: u32) -> Result<(), MapError>
        ensures value { Answers (close_by (length self.old.outer) self.old at) result self.new }
        ensures depth { OnOk result (length self.new.outer ≡ length self.old.outer - 1) }
    {
        match self.outer.pop() {
            Some(outer) => self.close_group(outer, at),
            None => self.next_result(),
        }
    }

    pub fn into_results(self) -> List<Expr>
        ensures { result ≡ self.results }
    {
        self.results
    }
}
