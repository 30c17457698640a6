ghost use Rattle.std.specs.Prelude.{◌≡◌, ℕ, ◌↔◌, IsTrue, IsSome, IfSome, ◌<ℤ◌, ◌≤ℤ◌, pos, map, length, ◌<◌, ◌≤◌};
ghost use Rattle.index_forms.specs.Forms.{normal, coefficient, top, collected, Falls};
ghost use Rattle.index_forms.specs.Limit.{within, in_limit, IsForm, AreForms};
ghost use Rattle.index_forms.specs.Facts.{IsFact, normal_fact, normal_facts, FactsFrom, Differ, AllDiffer, Distinct, AreKnown, AreNormal};
ghost use Rattle.index_forms.specs.Same.{NoneFrom};

use crate::form::{Fact, LIMIT, LinForm};
use crate::normal::{coefficient, is_in_limit, normal_terms};
use mlir_base::List;
use std::alloc::Global;
use std::marker::Model;
use std::mem;

/// Tells whether each of these atoms is below `count` or has the coefficient 0.
fn none_from(count: u64, atoms: &[(u32, i64)], terms: &[(u32, i64)]) -> bool
    ensures { IsTrue result ↔ NoneFrom count atoms.now terms.now }
{
    for atom in atoms {
        if count <= atom.0 as u64 {
            let sum = coefficient(terms, atom.0);
            if sum < 0 || 0 < sum {
                return false;
            }
        }
    }
    true
}

/// Tells whether falling terms have atoms below `count` alone.
fn is_below(count: u64, terms: &[(u32, i64)]) -> bool
    requires { Falls (top terms.now) terms.now }
    ensures { IsTrue result ↔ Falls count terms.now }
{
    terms.len() == 0 || (terms[0].0 as u64) < count
}

/// Makes a form normal. False exactly where it then has an atom not below `count` or a number past the
/// limit.
fn form_fits(count: u64, f: &mut LinForm, alloc: Global) -> bool
    ensures fits { IsTrue result ↔ IsForm count (normal f.old) }
    ensures value { IsTrue result → f.new ≡ normal f.old }
{
    let terms = mem::replace(&mut f.terms, List::new(alloc));
    match normal_terms(terms.into_vec()) {
        Some(terms) => {
            let fits = is_in_limit(f.constant as i128) && is_below(count, terms.as_slice());
            f.terms = terms;
            fits
        }
        None => false,
    }
}

/// The same for each of these forms.
fn forms_fit(count: u64, forms: &mut [LinForm], alloc: Global) -> bool
    ensures fits { IsTrue result ↔ AreForms count (map normal forms.old) }
    ensures value { IsTrue result → forms.new ≡ map normal forms.old }
{
    for form in forms.iter_mut() {
        if !form_fits(count, form, alloc) {
            return false;
        }
    }
    true
}

/// The same for the forms of a minimum, of which there is at least one.
fn minimum_fits(count: u64, terms: &mut List<LinForm>, alloc: Global) -> bool
    ensures fits { IsTrue result ↔ ((0 < length (map normal terms.old)) × AreForms count (map normal terms.old)) }
    ensures value { IsTrue result → terms.new ≡ map normal terms.old }
{
    let mut forms = mem::replace(terms, List::new(alloc)).into_vec();
    let fits = forms.len() > 0 && forms_fit(count, forms.as_mut_slice(), alloc);
    *terms = List::from_vec(forms);
    fits
}

/// Tells whether a number may be a loop's step.
fn is_step(step: i64) -> bool
    ensures { IsTrue result ↔ ((pos 0 <ℤ step) × IsTrue (in_limit step)) }
{
    0 < step && step <= LIMIT
}

/// Tells whether a number may be the most of an extent.
fn is_most(most: i64) -> bool
    ensures { IsTrue result ↔ ((pos 0 ≤ℤ most) × IsTrue (in_limit most)) }
{
    0 <= most && most <= LIMIT
}

/// The fact with normal forms. `None` exactly where it may not be that of the atom `count`.
fn fitting(count: u64, fact: Fact, alloc: Global) -> Option<Fact>
    ensures fits { IsSome result ↔ IsFact count (normal_fact fact) }
    ensures value { IfSome result (λ f. f ≡ normal_fact fact) }
{
    match fact {
        Fact::Loop {
            mut lower,
            mut upper,
            step,
        } => {
            if !form_fits(count, &mut lower, alloc) {
                return None;
            }
            if form_fits(count, &mut upper, alloc) && is_step(step) {
                Some(Fact::Loop { lower, upper, step })
            } else {
                None
            }
        }
        Fact::Least { mut terms } => {
            if minimum_fits(count, &mut terms, alloc) {
                Some(Fact::Least { terms })
            } else {
                None
            }
        }
        Fact::Extent { most } => {
            if is_most(most) {
                Some(Fact::Extent { most })
            } else {
                None
            }
        }
    }
}

/// Makes the forms of a fact normal. False exactly where it may not be that of the atom `count`.
fn fact_fits(count: u64, fact: &mut Fact, alloc: Global) -> bool
    ensures fits { IsTrue result ↔ IsFact count (normal_fact fact.old) }
    ensures value { IsTrue result → fact.new ≡ normal_fact fact.old }
{
    let old = mem::replace(fact, Fact::Extent { most: 0 });
    match fitting(count, old, alloc) {
        Some(new) => {
            *fact = new;
            true
        }
        None => false,
    }
}

/// Makes the forms of facts normal. False exactly where one may not be that of its atom.
fn facts_fit(facts: &mut [Fact], alloc: Global) -> bool
    ensures fits { IsTrue result ↔ FactsFrom 0 (normal_facts facts.old) }
    ensures value { IsTrue result → facts.new ≡ normal_facts facts.old }
{
    let mut count = 0u64;
    for fact in facts.iter_mut() {
        if !fact_fits(count, fact, alloc) {
            return false;
        }
        count += 1;
    }
    true
}

fn same_term(a: &(u32, i64), b: &(u32, i64)) -> bool
    ensures { IsTrue result ↔ (a.now ≡ b.now) }
{
    if a.1 < b.1 || b.1 < a.1 {
        return false;
    }
    a.0 == b.0
}

fn same_terms(a: &[(u32, i64)], b: &[(u32, i64)]) -> bool
    ensures { IsTrue result ↔ (a.now ≡ b.now) }
{
    if a.len() != b.len() {
        return false;
    }
    for i in 0..a.len() {
        if !same_term(&a[i], &b[i]) {
            return false;
        }
    }
    true
}

/// Tells whether two forms are the same.
fn same_form(a: &LinForm, b: &LinForm) -> bool
    ensures { IsTrue result ↔ (a.now ≡ b.now) }
{
    if a.constant < b.constant || b.constant < a.constant {
        return false;
    }
    same_terms(a.terms.as_slice(), b.terms.as_slice())
}

/// Tells whether two minima have the same terms.
fn same_forms(a: &[LinForm], b: &[LinForm]) -> bool
    ensures { IsTrue result ↔ (a.now ≡ b.now) }
{
    if a.len() != b.len() {
        return false;
    }
    for i in 0..a.len() {
        if !same_form(&a[i], &b[i]) {
            return false;
        }
    }
    true
}

/// Tells whether two facts are no minima with equal lists of terms.
fn differ(f: &Fact, g: &Fact) -> bool
    ensures { IsTrue result ↔ Differ f.now g.now }
{
    match (f, g) {
        (Fact::Least { terms }, Fact::Least { terms: others }) => {
            !same_forms(terms.as_slice(), others.as_slice())
        }
        (Fact::Least { .. }, Fact::Loop { .. }) => true,
        (Fact::Least { .. }, Fact::Extent { .. }) => true,
        (Fact::Loop { .. }, _) => true,
        (Fact::Extent { .. }, _) => true,
    }
}

/// Tells whether a fact differs so from each of these, as one that is no minimum does.
fn all_differ(f: &Fact, others: &[Fact]) -> bool
    ensures { IsTrue result ↔ AllDiffer f.now others.now }
{
    match f {
        Fact::Least { .. } => {}
        Fact::Loop { .. } => return true,
        Fact::Extent { .. } => return true,
    }
    for other in others {
        if !differ(f, other) {
            return false;
        }
    }
    true
}

/// Tells whether no two minima have equal lists of terms.
fn are_distinct(facts: &[Fact]) -> bool
    ensures { IsTrue result ↔ Distinct facts.now }
{
    for i in 0..facts.len() {
        if !all_differ(&facts[i], &facts[i + 1..]) {
            return false;
        }
    }
    true
}

/// What is known of each atom, with normal forms: the k-th fact is that of atom k. `Facts::new` makes it.
#[derive(Drop)]
pub struct Facts {
    facts: List<Fact>,
}

impl Model for Facts {
    ghost use Rattle.std.specs.Prelude.{List as Sequence};
    ghost use Rattle.index_forms.specs.Facts.{AreNormal};
    ghost use Rattle.index_forms.specs.declared.form.Fact.{Fact as Known};

    ghost Value = { Sequence Known };

    ghost view = { λ f. f.facts };

    ghost invariant = { λ f. AreNormal f.facts };
}

impl Facts {
    /// The facts of the atoms, in order, made normal in place. `None` exactly where a form of a fact uses an atom whose
    /// number is not smaller than the fact's, a step is below 1, `most` is negative, a minimum has no
    /// term, two minima have equal lists of terms, or a number leaves plus and minus 2^62.
    pub fn new(facts: List<Fact>) -> Option<Facts>
        ensures valid { IsSome result ↔ AreKnown facts }
        ensures value { IfSome result (λ m. m ≡ normal_facts facts) }
    {
        let mut all = facts.into_vec();
        let alloc = *all.allocator();
        if !facts_fit(all.as_mut_slice(), alloc) {
            return None;
        }
        if !are_distinct(all.as_slice()) {
            return None;
        }
        Some(Facts {
            facts: List::from_vec(all),
        })
    }

    /// Tells whether each atom of a form has a fact, as `upper` and `lower` ask.
    pub fn covers(&self, f: &LinForm) -> bool
        ensures { IsTrue result ↔ Falls (length self.now) (normal f.now).terms }
    {
        let terms = f.terms.as_slice();
        none_from(self.as_slice().len() as u64, terms, terms)
    }

    /// The facts, in order.
    pub(crate) fn as_slice(&self) -> &[Fact]
        ensures value { result.now ≡ self.now }
        ensures kept { AreNormal self.now }
    {
        self.facts.as_slice()
    }
}
