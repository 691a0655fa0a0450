use crate::made::polynomial;
use sg_laurent::{Laurent, Term};
use sg_num::{Field, Rat, Row, Stop};
use sg_products::{descending_terms, shifted};
use sg_ratfun::RatFun;
use smallvec::SmallVec;
use std::alloc::Global;

// The polynomial of these whole coefficients, the lowest first.
fn function(alloc: Global, list: &[i128]) -> Result<RatFun<Rat>, Stop> {
    let p = polynomial(alloc, list)?;
    RatFun::from_poly(alloc, p)
}

// The element with one more term: this coefficient at this exponent of one product.
fn with_term(
    alloc: Global,
    x: Laurent<RatFun<Rat>>,
    e: i128,
    list: &[i128],
) -> Result<Laurent<RatFun<Rat>>, Stop> {
    let coeff = function(alloc, list)?;
    let exps = SmallVec::from_slice(alloc, &[e])?;
    let r = x.with_term(alloc, 1, Term { exps, coeff })?;
    Ok(r)
}

// k x + 6 / x
fn element(alloc: Global) -> Result<Laurent<RatFun<Rat>>, Stop> {
    let x = with_term(alloc, Laurent::zero(alloc, 1), 1, &[0, 1])?;
    with_term(alloc, x, -1, &[6])
}

// The element with k + 1 for k, where the product goes to a times itself; 0 where a is 0.
fn moved(
    alloc: Global,
    a: RatFun<Rat>,
    e: &Laurent<RatFun<Rat>>,
) -> Result<Laurent<RatFun<Rat>>, Stop> {
    if a.is_zero() {
        return Ok(Laurent::zero(alloc, 1));
    }
    let alphas = [a];
    let r = shifted(alloc, &alphas, e)?;
    Ok(r)
}

fn next_element(alloc: Global) -> Result<Laurent<RatFun<Rat>>, Stop> {
    let two = function(alloc, &[2])?;
    let e = element(alloc)?;
    moved(alloc, two, &e)
}

// Whether the coefficient at the exponent is the polynomial.
fn has(alloc: Global, x: &Laurent<RatFun<Rat>>, e: i128, list: &[i128]) -> Result<bool, Stop> {
    let want = function(alloc, list)?;
    let c = x.coefficient(alloc, 1, &[e])?;
    let same = c.same(alloc, &want)?;
    Ok(same)
}

// 2^k: k 2^k + 6 / 2^k goes to (2 k + 2) 2^k + 3 / 2^k.
#[test]
fn shifts_powers_of_two(rt: HostRuntime) {
    let r = next_element(rt.alloc());
    assert!(rt; r.is_ok());
    if let Ok(r) = r {
        for (e, list) in [(1, [2, 2].as_slice()), (0, &[]), (-1, &[3])] {
            assert!(rt; matches!(has(rt.alloc(), &r, e, list), Ok(true)), "{e}");
        }
    }
}

fn exponents_of(alloc: Global) -> Result<Row<i128>, Stop> {
    let alphas = [function(alloc, &[2])?];
    let e = element(alloc)?;
    let mut row = Row::new(alloc);
    for t in descending_terms(alloc, &alphas, &e)?.into_vec() {
        for e in t.exps.as_slice() {
            row.push(*e)?;
        }
    }
    Ok(row)
}

#[test]
fn lists_terms(rt: HostRuntime) {
    let row = exponents_of(rt.alloc());
    assert!(rt; matches!(&row, Ok(r) if r.as_slice() == [1, -1].as_slice()));
}
