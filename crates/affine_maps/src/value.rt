ghost use Rattle.std.specs.Prelude.{◌≡◌, ◌≤◌, ◌<◌, ◌^◌, ◌+ℤ◌, ◌*ℤ◌, length, unsigned_abs, IsTrue, map};
ghost use Rattle.std.specs.List.{list_all};
ghost use Rattle.mlir_base.specs.Numbers.{is_in_range};
ghost use Rattle.affine_maps.specs.Map.{expr_fits, IsMap};
ghost use Rattle.affine_maps.specs.Value.{coordinate, is_coordinate, value_at, map_value};

use crate::map::{AffineMap, Expr};

/// Tells whether each number lies within plus and minus 2^20, as `AffineMap::at` asks of a point.
pub fn are_coordinates(point: &[i64]) -> bool
    ensures { result ≡ list_all is_coordinate point.now }
{
    for at in point {
        if at.unsigned_abs() > 1 << 20 {
            return false;
        }
    }
    true
}

/// The value of a term at a point.
fn term_value(term: (u32, i64), point: &[i64]) -> i64
    requires dimension { term.0 < length point.now }
    requires coefficient { IsTrue (is_in_range term.1) }
    requires near { IsTrue (list_all is_coordinate point.now) }
    ensures value { result ≡ term.1 *ℤ coordinate point.now term.0 }
    ensures small { unsigned_abs result ≤ 2 ^ 51 }
{
    let at = point[term.0 as usize];
    term.1 * at
}

/// The value of an expression of a map with `dims` dimensions at a point.
fn expr_value(dims: u32, expr: &Expr, point: &[i64]) -> i64
    requires few { dims ≤ 1024 }
    requires fits { IsTrue (expr_fits dims expr.now) }
    requires point { length point.now ≡ dims }
    requires near { IsTrue (list_all is_coordinate point.now) }
    ensures { result ≡ value_at expr.now point.now }
{
    let mut sum = expr.constant;
    for term in expr.terms.as_slice() {
        let value = term_value(*term, point);
        sum += value;
    }
    sum
}

fn write_values(dims: u32, exprs: &[Expr], point: &[i64], into: &mut [i64])
    requires few { dims ≤ 1024 }
    requires fits { IsTrue (list_all (expr_fits dims) exprs.now) }
    requires point { length point.now ≡ dims }
    requires near { IsTrue (list_all is_coordinate point.now) }
    requires into { length into.old ≡ length exprs.now }
    ensures { into.new ≡ map (λ e. value_at e point.now) exprs.now }
{
    for (i, expr) in exprs.iter().enumerate() {
        into[i] = expr_value(dims, expr, point);
    }
}

impl AffineMap {
    /// Writes the map's value at a point, one number per result (Affine manual, "Affine Maps"). The
    /// map has at most 1,024 dimensions, `point` a coordinate for each, within plus and minus 2^20,
    /// and `into` a place for each result.
    pub fn at(&self, point: &[i64], into: &mut [i64])
        requires few { self.now.dims ≤ 1024 }
        requires point { length point.now ≡ self.now.dims }
        requires near { IsTrue (list_all is_coordinate point.now) }
        requires into { length into.old ≡ length self.now.results }
        ensures { into.new ≡ map_value self.now point.now }
    {
        let results = self.results();
        write_values(self.dims(), results.as_slice(), point, into);
    }
}
