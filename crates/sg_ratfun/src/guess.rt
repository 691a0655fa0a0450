//! Rational functions that may be roots of a polynomial over them: guesses, of which nothing is promised.
ghost use Rattle.std.specs.Prelude.{IfErr};
ghost use Rattle.sg_num.specs.Stopped.{KeepsWideStep};

use crate::ratfun::RatFun;
use sg_num::{Field, Rat, Row, Stop};
use sg_poly::Poly;
use std::alloc::Global;

// How many numbers are tried for a place.
const TRIES: usize = 64;

// Roots that are linear in the variable: guesses at two places fix one, and a third place is a filter.
pub(crate) fn guessed<F: Field>(alloc: Global, p: &[RatFun<F>]) -> Result<Row<RatFun<F>>, Stop>
    ensures wide { IfErr result KeepsWideStep }
{
    let Some(first) = place_from(alloc, p, 1)? else {
        return Ok(Row::new(alloc));
    };
    let Some(second) = place_from(alloc, p, first.next)? else {
        return Ok(Row::new(alloc));
    };
    let Some(third) = place_from(alloc, p, second.next)? else {
        return Ok(Row::new(alloc));
    };
    let r = joined(alloc, &first, &second, &third)?;
    Ok(r)
}

// A place: a number for the variable, as an element, and the guesses there.
#[derive(Drop)]
struct Place<F: Field> {
    at: F,
    roots: Row<F>,
    next: i128,
}

// The first place from `from` on at which all coefficients have values; None where none is found soon.
fn place_from<F: Field>(
    alloc: Global,
    p: &[RatFun<F>],
    from: i128,
) -> Result<Option<Place<F>>, Stop>
    ensures wide { IfErr result KeepsWideStep }
{
    let mut x = from;
    for _ in 0..TRIES {
        let at = F::from_rat(alloc, Rat::whole(x))?;
        x = x.saturating_add(1);
        if let Some(values) = values_at(alloc, p, &at)? {
            let roots = F::linear_roots(alloc, values.as_slice())?;
            return Ok(Some(Place { at, roots, next: x }));
        }
    }
    Ok(None)
}

// The values of all coefficients at `x`; None where one has none, or the last is 0.
fn values_at<F: Field>(alloc: Global, p: &[RatFun<F>], x: &F) -> Result<Option<Row<F>>, Stop>
    ensures wide { IfErr result KeepsWideStep }
{
    let mut row = Row::new(alloc);
    for i in 0..p.len() {
        let Some(value) = p[i].value(alloc, x)? else {
            return Ok(None);
        };
        if i + 1 == p.len() && value.is_zero() {
            return Ok(None);
        }
        row.push(value)?;
    }
    Ok(Some(row))
}

// All functions through a root at the first place and one at the second.
fn joined<F: Field>(
    alloc: Global,
    first: &Place<F>,
    second: &Place<F>,
    third: &Place<F>,
) -> Result<Row<RatFun<F>>, Stop>
    ensures wide { IfErr result KeepsWideStep }
{
    let mut row = Row::new(alloc);
    for i in 0..first.roots.len() {
        for j in 0..second.roots.len() {
            if let Some(root) = through(
                alloc,
                first,
                second,
                third,
                first.roots.get(i),
                second.roots.get(j),
            )? {
                row.push(root)?;
            }
        }
    }
    Ok(row)
}

// The function that is linear in the variable and has these values at two places, if its value at the third is a guess there.
fn through<F: Field>(
    alloc: Global,
    first: &Place<F>,
    second: &Place<F>,
    third: &Place<F>,
    r: &F,
    s: &F,
) -> Result<Option<RatFun<F>>, Stop>
    ensures wide { IfErr result KeepsWideStep }
{
    let run = second.at.sub(alloc, &first.at)?;
    if run.is_zero() {
        return Ok(None);
    }
    let slope = s.sub(alloc, r)?.div(alloc, &run)?;
    let start = r.sub(alloc, &slope.mul(alloc, &first.at)?)?;
    let there = start.add(alloc, &slope.mul(alloc, &third.at)?)?;
    if !contains(alloc, &third.roots, &there)? {
        return Ok(None);
    }
    let root = linear_in_variable(alloc, slope, start)?;
    Ok(Some(root))
}

// Whether an element is in the list.
fn contains<F: Field>(alloc: Global, list: &Row<F>, x: &F) -> Result<bool, Stop>
    ensures wide { IfErr result KeepsWideStep }
{
    for i in 0..list.len() {
        if list.get(i).same(alloc, x)? {
            return Ok(true);
        }
    }
    Ok(false)
}

// a n + b, for the variable n.
fn linear_in_variable<F: Field>(alloc: Global, a: F, b: F) -> Result<RatFun<F>, Stop>
    ensures wide { IfErr result KeepsWideStep }
{
    let mut row = Row::new(alloc);
    row.push(b)?;
    row.push(a)?;
    let num = Poly::from_coeffs(alloc, row)?;
    let r = RatFun::from_poly(alloc, num)?;
    Ok(r)
}
