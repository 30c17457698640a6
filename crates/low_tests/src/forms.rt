use affine_maps::{AffineMap, Expr, are_coordinates, compose};
use index_forms::{Fact, Facts, LinForm, equal, lower, upper};
use mlir_base::{List, Memory, Name};
use std::alloc::Global;

#[test]
fn lists_and_names_hold_what_is_given(rt: HostRuntime) -> Result<(), Memory> {
    let mut list = List::new(rt.alloc());
    list.push(3u8)?;
    list.push(5u8)?;
    assert!(rt; list.as_slice() == [3, 5].as_slice());
    assert!(rt; Name::new(rt.alloc(), "f")?.as_str() == "f");
    assert!(rt; Name::from_ascii(rt.alloc(), b"g")?.as_str() == "g");
    Ok(())
}

/// A constant and a coefficient times number 0.
fn terms(alloc: Global, coefficient: i64) -> Result<List<(u32, i64)>, Memory> {
    let mut terms = List::new(alloc);
    terms.push((0u32, coefficient))?;
    Ok(terms)
}

/// (d0) -> (d0 * coefficient + constant), and `None` for a coefficient that a map can't have.
fn line(alloc: Global, coefficient: i64, constant: i64) -> Result<Option<AffineMap>, Memory> {
    let terms = terms(alloc, coefficient)?;
    let mut results = List::new(alloc);
    results.push(Expr { constant, terms })?;
    Ok(AffineMap::new(1, results))
}

/// The value of the composition of two such maps at 4, and `None` where there is none.
fn value(alloc: Global, outer: (i64, i64), inner: (i64, i64)) -> Result<Option<i64>, Memory> {
    let Some(outer) = line(alloc, outer.0, outer.1)? else {
        return Ok(None);
    };
    let Some(inner) = line(alloc, inner.0, inner.1)? else {
        return Ok(None);
    };
    if inner.results().len() != outer.dims() as usize {
        return Ok(None);
    }
    let Some(whole) = compose(alloc, &outer, &inner)? else {
        return Ok(None);
    };
    let point = [4i64];
    let mut into = [0i64];
    if whole.dims() == 1 && whole.results().len() == 1 && are_coordinates(&point) {
        whole.at(&point, &mut into);
    }
    Ok(Some(into[0]))
}

#[test]
fn maps_compose(rt: HostRuntime) -> Result<(), Memory> {
    let rows = [
        ((2i64, 1i64), (3i64, -5i64), Some(15i64)),
        ((0, 1), (3, -5), None),
        ((1 << 30, 0), (3, 0), None),
    ];
    for (outer, inner, answer) in rows {
        assert!(rt; value(rt.alloc(), outer, inner)? == answer);
    }
    Ok(())
}

/// Atom 0 is at most 5, and atom 1 runs from 0 to below atom 0. The bounds of `by` times atom 0 or 1.
fn bounds(alloc: Global, atom: u32, by: i64) -> Result<(Option<i64>, Option<i64>), Memory> {
    let mut facts = List::new(alloc);
    facts.push(Fact::Extent { most: 5 })?;
    facts.push(Fact::Loop {
        lower: LinForm {
            constant: 0,
            terms: List::new(alloc),
        },
        upper: LinForm {
            constant: 0,
            terms: terms(alloc, 1)?,
        },
        step: 1,
    })?;
    let mut terms = List::new(alloc);
    terms.push((atom, by))?;
    let form = LinForm { constant: 0, terms };
    match Facts::new(facts) {
        Some(facts) if facts.covers(&form) && equal(&form, &form) => {
            Ok((lower(alloc, &facts, &form)?, upper(alloc, &facts, &form)?))
        }
        _ => Ok((None, None)),
    }
}

#[test]
fn forms_are_bounded(rt: HostRuntime) -> Result<(), Memory> {
    let rows = [
        (0u32, 2i64, (Some(0i64), Some(10i64))),
        (1, -1, (Some(-4), Some(0))),
        (2, 1, (None, None)),
    ];
    for (atom, by, answer) in rows {
        let found = bounds(rt.alloc(), atom, by)?;
        assert!(rt; found.0 == answer.0);
        assert!(rt; found.1 == answer.1);
    }
    Ok(())
}

/// Atom 0 is at most 5, and each of the next `count` atoms is the least of the one before alone.
fn row(alloc: Global, count: u32) -> Result<List<Fact>, Memory> {
    let mut facts = List::new(alloc);
    facts.push(Fact::Extent { most: 5 })?;
    for before in 0..count {
        let mut terms = List::new(alloc);
        terms.push((before, 1i64))?;
        let mut forms = List::new(alloc);
        forms.push(LinForm { constant: 0, terms })?;
        facts.push(Fact::Least { terms: forms })?;
    }
    Ok(facts)
}

/// The upper bound of the last of so many minima.
fn last_of_row(alloc: Global, count: u32) -> Result<Option<i64>, Memory> {
    let mut terms = List::new(alloc);
    terms.push((count, 1i64))?;
    let form = LinForm { constant: 0, terms };
    match Facts::new(row(alloc, count)?) {
        Some(facts) if facts.covers(&form) => upper(alloc, &facts, &form),
        _ => Ok(None),
    }
}

#[test]
fn four_thousand_forms_are_met(rt: HostRuntime) -> Result<(), Memory> {
    assert!(rt; last_of_row(rt.alloc(), 4094)? == Some(5));
    assert!(rt; last_of_row(rt.alloc(), 4095)? == None);
    Ok(())
}

/// Coefficients of an atom are gathered: 3 - 2 of atom 1, which is the least of 4 and atom 0 twice.
#[test]
fn forms_of_facts_are_gathered(rt: HostRuntime) -> Result<(), Memory> {
    let mut twice = List::new(rt.alloc());
    twice.push((0u32, 3i64))?;
    twice.push((0, -1))?;
    let mut forms = List::new(rt.alloc());
    forms.push(LinForm {
        constant: 4,
        terms: List::new(rt.alloc()),
    })?;
    forms.push(LinForm {
        constant: 0,
        terms: twice,
    })?;
    let mut facts = List::new(rt.alloc());
    facts.push(Fact::Extent { most: 1 })?;
    facts.push(Fact::Least { terms: forms })?;
    let mut terms = List::new(rt.alloc());
    terms.push((1u32, 3i64))?;
    terms.push((1, -2))?;
    let form = LinForm { constant: 0, terms };
    match Facts::new(facts) {
        Some(facts) if facts.covers(&form) => {
            assert!(rt; upper(rt.alloc(), &facts, &form)? == Some(2));
        }
        _ => assert!(rt; false),
    }
    Ok(())
}
