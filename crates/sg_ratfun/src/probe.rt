ghost use Rattle.std.specs.Prelude.{◌≡◌, suc, ◌<◌, ◌≤◌, ◌+◌, [], ◌∷◌, ◌++◌, length, map, take, drop, IfOk, IfErr, IfSome, IsFalse, false};
ghost use Rattle.sg_algebra.proofs.Value.{zero_value};
ghost use Rattle.sg_algebra.proofs.Place.{Pairwise, HasValue};
ghost use Rattle.sg_num.specs.Probe.{IsProbe};
ghost use Rattle.sg_num.specs.Stopped.{KeepsWideStep};
ghost use Rattle.sg_num.specs.Value.{number};
ghost use Rattle.sg_poly.specs.Polynomials.{polynomial_at};
ghost use Rattle.sg_ratfun.specs.Fractions.{ratio, quotient_at};
ghost use Rattle.sg_ratfun.specs.Gathered.{coefficients, ItemsAt};

use crate::ratfun::RatFun;
use sg_num::{Field, Probe, Rat, Row, Stop, horner, push_copies};
use std::alloc::{AllocError, Global};

// The probe of a list of fractions: the field's own probe of all coefficients, and a number for the variable.
pub(crate) fn probed<F: Field>(alloc: Global, list: &Row<RatFun<F>>) -> Result<Probe, Stop>
    ensures value { IfOk result (λ p. IsProbe (suc F.vars) (ratio F.val) list.now p.args p.values) }
    ensures wide { IfErr result KeepsWideStep }
{
    let coeffs = gathered(alloc, list)?;
    let inner = F::probe(alloc, &coeffs)?;
    let place = found(alloc, list, &inner)?;
    let mut args = inner.args;
    args.push(place.at)?;
    Ok(Probe {
        args,
        values: place.values,
    })
}

// The coefficients of all numerators and denominators.
fn gathered<F: Field>(alloc: Global, list: &Row<RatFun<F>>) -> Result<Row<F>, Stop>
    ensures value { IfOk result (λ r. map F.val r ≡ map F.val (coefficients list.now)) }
    ensures wide { IfErr result KeepsWideStep }
{
    let mut row = Row::new(alloc);
    for i in 0..list.len() {
        let item = list.get(i);
        push_copies(alloc, &mut row, item.upper().coeffs())?;
        push_copies(alloc, &mut row, item.lower().coeffs())?;
    }
    Ok(row)
}

// A number for the last variable, and the values there.
#[derive(Drop)]
struct Place {
    at: i128,
    values: Row<Rat>,
}

// The first of 0, 1, 2, .. at which all items have values, and those that aren't 0 a value other than 0.
fn found<F: Field>(alloc: Global, list: &Row<RatFun<F>>, inner: &Probe) -> Result<Place, Stop>
    requires { Pairwise (λ c r. HasValue F.vars c inner.now.args (number r)) (map F.val (coefficients list.now)) inner.now.values }
    ensures value { IfOk result (λ p. ItemsAt (ratio F.val) list.now (inner.now.args ++ p.at ∷ []) p.values) }
    ensures wide { IfErr result KeepsWideStep }
{
    for at in 0..i128::MAX {
        if let Some(values) = all_at(alloc, list, inner, at)? {
            return Ok(Place { at, values });
        }
    }
    if let Some(values) = all_at(alloc, list, inner, i128::MAX)? {
        return Ok(Place {
            at: i128::MAX,
            values,
        });
    }
    let _next = Rat::whole(i128::MAX).plus(Rat::whole(1))?;
    Err(Stop::Memory(AllocError))
}

// The values of all items at the numbers of the probe and `x`; None where an item has none, or the value 0, though it isn't 0.
fn all_at<F: Field>(
    alloc: Global,
    list: &Row<RatFun<F>>,
    inner: &Probe,
    x: i128,
) -> Result<Option<Row<Rat>>, Stop>
    requires { Pairwise (λ c r. HasValue F.vars c inner.now.args (number r)) (map F.val (coefficients list.now)) inner.now.values }
    ensures value { IfOk result (λ o. IfSome o (λ out. ItemsAt (ratio F.val) list.now (inner.now.args ++ x ∷ []) out)) }
    ensures wide { IfErr result KeepsWideStep }
{
    let values = inner.values.as_slice();
    let place = Rat::whole(x);
    let mut out = Row::new(alloc);
    let mut at = 0;
    for i in 0..list.len() {
        let item = list.get(i);
        let upper = item.upper();
        let lower = item.lower();
        let n = upper.coeffs().len();
        let m = lower.coeffs().len();
        match item_from(alloc, values, at, n, m, upper.is_zero(), place)? {
            None => return Ok(None),
            Some(v) => {
                out.push(v)?;
                at = at + n + m;
            }
        }
    }
    Ok(Some(out))
}

// The same, where the `n` values of the upper coefficients stand from `at` on, and the `m` of the lower ones behind them.
fn item_from(
    alloc: Global,
    values: &[Rat],
    at: usize,
    n: usize,
    m: usize,
    zero: bool,
    x: Rat,
) -> Result<Option<Rat>, Stop>
    requires { (at + n) + m ≤ length values.now }
    ensures defined { IfOk result (λ o. IfSome o (λ _. ¬ (polynomial_at number (take m (drop (at + n) values.now)) (number x) ≡ zero_value))) }
    ensures value { IfOk result (λ o. IfSome o (λ v.
        number v ≡ quotient_at number (take n (drop at values.now)) (take m (drop (at + n) values.now)) (number x))) }
    ensures nonzero { IfOk result (λ o. IfSome o (λ v. zero ≡ false → ¬ (number v ≡ zero_value))) }
    ensures wide { IfErr result KeepsWideStep }
{
    let middle = at + n;
    let upper = &values[at..middle];
    let lower = &values[middle..middle + m];
    let o = item_at(alloc, upper, lower, zero, x)?;
    Ok(o)
}

// The quotient of the values of two polynomials; None where the lower one's is 0, or the upper one's, though the item isn't 0.
fn item_at(
    alloc: Global,
    upper: &[Rat],
    lower: &[Rat],
    zero: bool,
    x: Rat,
) -> Result<Option<Rat>, Stop>
    ensures defined { IfOk result (λ o. IfSome o (λ _. ¬ (polynomial_at number lower.now (number x) ≡ zero_value))) }
    ensures value { IfOk result (λ o. IfSome o (λ v. number v ≡ quotient_at number upper.now lower.now (number x))) }
    ensures nonzero { IfOk result (λ o. IfSome o (λ v. zero ≡ false → ¬ (number v ≡ zero_value))) }
    ensures wide { IfErr result KeepsWideStep }
{
    let below = horner(alloc, lower, &x)?;
    if below.is_zero() {
        return Ok(None);
    }
    let v = horner(alloc, upper, &x)?.over(below)?;
    if zero {
        return Ok(Some(v));
    }
    if v.is_zero() {
        return Ok(None);
    }
    Ok(Some(v))
}
