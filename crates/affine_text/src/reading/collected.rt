//! Products and sums that grow, with their terms collected.

ghost use Rattle.std.specs.Prelude.{◌≡◌, ◌+ℤ◌, ◌*ℤ◌, ◌≤◌, ◌^◌, unsigned_abs, true, IfOk, OnOk};
ghost use Rattle.std.specs.Bool.{OnTrue, OnFalse};
ghost use Rattle.mlir_base.specs.Numbers.{is_in_range};
ghost use Rattle.affine_text.specs.Collected.{constant_form, dimension_form, terms_in_range, coefficient, with_coefficient, negative_form};
ghost use Rattle.affine_text.specs.Meaning.{zero_form};
ghost use Rattle.affine_text.specs.Multiples.{ascends, times_terms, is_collected, is_sum, value_of, IsMultiple, with_terms, with_constant, Multiplies, AddsTerm, AddsTerms, Adds};

use crate::reading::fault::NoProduct;
use crate::reading::multiple::{Multiple, is_zero, product};
use affine_maps::Expr;
use mlir_base::{List, Memory, is_in_range};
use std::alloc::Global;
use std::collections::BTreeMap;
use std::marker::Model;

/// A product of forms of which at most one has terms.
#[derive(Drop)]
pub struct Product {
    multiple: Multiple,
}

impl Model for Product {
    ghost use Rattle.affine_maps.specs.declared.map.Expr.{Expr as Form};
    ghost use Rattle.affine_maps.specs.Shape.{expr_code};
    ghost use Rattle.affine_text.specs.Multiples.{value_of, IsMultiple};

    ghost Value = { Form };

    ghost coded = { expr_code };

    ghost view = { λ p. value_of p.multiple };

    ghost invariant = { λ p. IsMultiple p.multiple };
}

impl Product {
    pub fn of_number(alloc: Global, number: i64) -> Product
        requires { is_in_range number ≡ true }
        ensures { result ≡ constant_form number }
    {
        Product {
            multiple: Multiple::of_number(alloc, number),
        }
    }

    pub fn of_dimension(alloc: Global, dimension: u32) -> Result<Product, Memory>
        ensures { IfOk result (λ p. p ≡ dimension_form dimension) }
    {
        let multiple = Multiple::of_dimension(alloc, dimension)?;
        Ok(Product { multiple })
    }

    pub fn of_form(alloc: Global, form: Expr) -> Product
        requires { is_collected form ≡ true }
        ensures { result ≡ form }
    {
        Product {
            multiple: Multiple::of_form(alloc, form),
        }
    }

    /// The product with its sign turned.
    pub fn negated(self) -> Product
        ensures { result ≡ negative_form self }
    {
        Product {
            multiple: self.multiple.negated(),
        }
    }

    pub fn times(self, other: Product) -> Result<Product, NoProduct>
        ensures { Multiplies self other result }
    {
        match self.multiple.times(other.multiple) {
            Ok(multiple) => Ok(Product { multiple }),
            Err(e) => Err(e),
        }
    }
}

/// A sum that grows, with its terms collected.
#[derive(Drop)]
pub struct Sum {
    alloc: Global,
    constant: i64,
    terms: BTreeMap<u32, i64>,
}

impl Model for Sum {
    ghost use Rattle.std.specs.Prelude.{◌≡◌, true};
    ghost use Rattle.affine_maps.specs.declared.map.Expr.{Expr as Form};
    ghost use Rattle.affine_maps.specs.Shape.{expr_code};
    ghost use Rattle.affine_text.specs.Multiples.{is_sum};

    ghost Value = { Form };

    ghost coded = { expr_code };

    ghost view = { λ s. record { constant = s.constant; terms = s.terms.entries } };

    ghost invariant = { λ s. is_sum (record { constant = s.constant; terms = s.terms.entries }) ≡ true };
}

impl Sum {
    pub fn new(alloc: Global) -> Sum
        ensures { result ≡ zero_form }
    {
        Sum {
            alloc,
            constant: 0,
            terms: BTreeMap::new(alloc),
        }
    }

    /// Says what every sum keeps.
    fn keeps_range(&self)
        ensures { is_sum self.now ≡ true }
    {
        let _constant = self.constant;
    }

    #[tactic(auto, unfolding(crate::specs::Collected::coefficient))]
    fn coefficient(&self, dimension: u32) -> i64
        ensures exact { result ≡ coefficient self.now.terms dimension }
        ensures in_range { is_in_range result ≡ true }
    {
        self.terms.get(&dimension).copied().unwrap_or(0)
    }

    #[tactic(auto, unfolding(crate::specs::Collected::with_coefficient))]
    fn set(&mut self, dimension: u32, coefficient: i64) -> Result<(), Memory>
        requires { is_in_range coefficient ≡ true }
        ensures { OnOk result (self.new ≡ with_terms self.old (with_coefficient self.old.terms dimension coefficient)) }
    {
        if is_zero(coefficient) {
            self.terms.remove(&dimension);
            return Ok(());
        }
        match self.terms.insert(dimension, coefficient) {
            Ok(_) => Ok(()),
            Err(_) => Err(Memory),
        }
    }

    /// Adds a term. False where its coefficient leaves plus and minus 2^31.
    #[tactic(auto, unfolding(crate::specs::Collected::plus_term))]
    fn add_term(&mut self, dimension: u32, number: i64) -> Result<bool, Memory>
        requires { is_in_range number ≡ true }
        ensures { AddsTerm self.old dimension number result self.new }
    {
        let total = self.coefficient(dimension) + number;
        if !is_in_range(total) {
            return Ok(false);
        }
        self.set(dimension, total)?;
        Ok(true)
    }

    /// Adds one term of a multiple. False where its coefficient leaves plus and minus 2^31.
    fn add_one(&mut self, multiple: &Multiple, term: &(u32, i64)) -> Result<bool, Memory>
        requires multiple { IsMultiple multiple.now }
        requires small { is_in_range term.now.1 ≡ true }
        requires in_range { is_in_range (multiple.now.by *ℤ term.now.1) ≡ true }
        ensures { AddsTerm self.old term.now.0 (multiple.now.by *ℤ term.now.1) result self.new }
    {
        let number = product(multiple.by, term.1);
        self.add_term(term.0, number)
    }

    /// Adds the terms of a multiple. False where a coefficient leaves plus and minus 2^31.
    fn add_terms(&mut self, multiple: &Multiple) -> Result<bool, Memory>
        requires { IsMultiple multiple.now }
        ensures { AddsTerms self.old (times_terms multiple.now.by multiple.now.form.terms) result self.new }
    {
        for term in multiple.form.terms.as_slice() {
            if !self.add_one(multiple, term)? {
                return Ok(false);
            }
        }
        Ok(true)
    }

    /// Adds a number to the constant. False where it leaves plus and minus 2^31.
    fn add_constant(&mut self, number: i64) -> bool
        requires { is_in_range number ≡ true }
        ensures exact { result ≡ is_in_range (self.old.constant +ℤ number) }
        ensures done { OnTrue result (self.new ≡ with_constant self.old (self.old.constant +ℤ number)) }
        ensures kept { OnFalse result (self.new ≡ self.old) }
    {
        let constant = self.constant + number;
        if !is_in_range(constant) {
            return false;
        }
        self.constant = constant;
        true
    }

    fn add_multiple(&mut self, multiple: &Multiple) -> Result<bool, Memory>
        requires { IsMultiple multiple.now }
        ensures { Adds self.old (value_of multiple.now) result self.new }
    {
        self.keeps_range();
        if is_zero(multiple.by) {
            return Ok(true);
        }
        let number = product(multiple.by, multiple.form.constant);
        if !self.add_constant(number) {
            return Ok(false);
        }
        if !self.add_terms(multiple)? {
            return Ok(false);
        }
        self.keeps_range();
        Ok(true)
    }

    /// Adds the product. False where a number of the sum leaves plus and minus 2^31.
    pub fn add(&mut self, product: &Product) -> Result<bool, Memory>
        ensures { Adds self.old product.now result self.new }
    {
        self.add_multiple(&product.multiple)
    }

    /// Says that its terms stand in order.
    fn keeps_order(&self)
        ensures { is_collected self.now ≡ true }
    {
        let _constant = self.constant;
        let _count = self.terms.len();
    }

    fn into_parts(self) -> Result<Expr, Memory>
        ensures { IfOk result (λ e. e ≡ self) }
    {
        let constant = self.constant;
        let mut terms = List::new(self.alloc);
        for (dimension, coefficient) in self.terms {
            terms.push((dimension, coefficient))?;
        }
        Ok(Expr { constant, terms })
    }

    pub fn into_form(self) -> Result<Expr, Memory>
        ensures value { IfOk result (λ e. e ≡ self) }
        ensures collected { IfOk result (λ e. is_collected e ≡ true) }
    {
        self.keeps_order();
        self.into_parts()
    }
}
