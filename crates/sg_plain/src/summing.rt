ghost use Rattle.std.specs.Prelude.{◌≡◌, ◌≤◌, ◌+◌, ◌*◌, ◌^◌, length, pos, ◌-ℤ◌, ◌*ℤ◌, neg_ℤ, unsigned_abs, IfOk, OnOk, [], ◌∷◌, ◌++◌};
ghost use Rattle.sg_algebra.specs.Coefficients.{Each, eval};
ghost use Rattle.sg_algebra.proofs.Whole.{ℤR};
ghost use Rattle.sg_plain.specs.Lowest.{turned, IsSummed};
ghost use Rattle.sg_plain.specs.Plain.{quartic_at};
ghost use Rattle.sg_plain.specs.Sums.{sum_terms};

use crate::products::{dot, multiplied, opposite, plus};
use crate::quartic::Quartic;
use crate::reducing::reduced;
use sg_canonical::Common;
use sg_num::Row;
use std::alloc::{AllocError, Global};

/// The sum of a polynomial from a on, in whole arithmetic, over 60 and then in lowest terms.
pub fn summed(alloc: Global, q: Quartic, a: i64) -> Result<Common, AllocError>
    requires { unsigned_abs a ≤ 64 }
    ensures size { IfOk result (λ w. Each (λ v. unsigned_abs v ≤ 1267650600228229401496703205376) w.numbers) }
    ensures sum { IfOk result (λ w. IsSummed (λ k. quartic_at q.constant q.linear q.square q.cube q.fourth k) a w.numbers w.denominator) }
{
    let list = sixtieths(
        alloc,
        &[q.constant, q.linear, q.square, q.cube, q.fourth],
        a,
    )?;
    let w = reduced(alloc, list.as_slice(), 60)?;
    Ok(w)
}

// The numerators over 60, the highest first.
fn sixtieths(alloc: Global, c: &[i128], a: i64) -> Result<Row<i128>, AllocError>
    requires small { Each (λ v. unsigned_abs v ≤ 70368744177664) c.now }
    requires five { length c.now ≡ 5 }
    requires near { unsigned_abs a ≤ 64 }
    ensures size { IfOk result (λ r. Each (λ v. unsigned_abs v ≤ 1267650600228229401496703205376) r) }
    ensures terms { IfOk result (λ r. r ≡ turned (sum_terms c.now) ++ (neg_ℤ ((a -ℤ pos 1) *ℤ eval ℤR (sum_terms c.now) (a -ℤ pos 1)) ∷ [])) }
{
    let terms = sum_terms(alloc, c)?;
    let list = with_lowest(alloc, terms.as_slice(), before(a))?;
    Ok(list)
}

// The number before a.
fn before(a: i64) -> i128
    requires { unsigned_abs a ≤ 64 }
    ensures value { result ≡ a -ℤ pos 1 }
    ensures near { unsigned_abs result ≤ 65 }
{
    a as i128 - 1
}

// The numerators over 60 of the sum of a polynomial, from the first power on.
fn sum_terms(alloc: Global, c: &[i128]) -> Result<Row<i128>, AllocError>
    requires small { Each (λ v. unsigned_abs v ≤ 70368744177664) c.now }
    requires five { length c.now ≡ 5 }
    ensures terms { IfOk result (λ r. r ≡ sum_terms c.now) }
    ensures size { IfOk result (λ r. Each (λ v. unsigned_abs v ≤ 2305843009213693952) r) }
{
    let mut terms = Row::new(alloc);
    terms.push(dot(&[60, 30, 10, 0, -2], c))?;
    terms.push(dot(&[0, 30, 30, 15, 0], c))?;
    terms.push(dot(&[0, 0, 20, 30, 20], c))?;
    terms.push(dot(&[0, 0, 0, 15, 30], c))?;
    terms.push(dot(&[0, 0, 0, 0, 12], c))?;
    Ok(terms)
}

// The value at a small number, by Horner's rule.
fn at(terms: &[i128], x: i128) -> i128
    requires small { Each (λ v. unsigned_abs v ≤ 2305843009213693952) terms.now }
    requires few { length terms.now ≤ 5 }
    requires near { unsigned_abs x ≤ 65 }
    ensures value { result ≡ eval ℤR terms.now x }
    ensures size { unsigned_abs result ≤ 2305843009213693952 * 66 ^ length terms.now }
{
    match terms.split_first() {
        None => 0,
        Some((c, above)) => {
            let v = at(above, x);
            plus(*c, multiplied(x, v))
        }
    }
}

// The terms from the last down, and a last one with which the value at b is 0.
fn with_lowest(alloc: Global, terms: &[i128], b: i128) -> Result<Row<i128>, AllocError>
    requires small { Each (λ v. unsigned_abs v ≤ 2305843009213693952) terms.now }
    requires few { length terms.now ≤ 5 }
    requires near { unsigned_abs b ≤ 65 }
    ensures terms { IfOk result (λ r. r ≡ turned terms.now ++ (neg_ℤ (b *ℤ eval ℤR terms.now b) ∷ [])) }
    ensures size { IfOk result (λ r. Each (λ v. unsigned_abs v ≤ 1267650600228229401496703205376) r) }
{
    let mut list = Row::new(alloc);
    push_turned(terms, &mut list)?;
    list.push(opposite_at(terms, b))?;
    Ok(list)
}

// Adds the terms, the last first.
fn push_turned(terms: &[i128], out: &mut Row<i128>) -> Result<(), AllocError>
    ensures { OnOk result (out.new ≡ out.old ++ turned terms.now) }
{
    match terms.split_first() {
        None => Ok(()),
        Some((c, above)) => {
            push_turned(above, out)?;
            out.push(*c)?;
            Ok(())
        }
    }
}

// The opposite of x times the value at x.
fn opposite_at(terms: &[i128], x: i128) -> i128
    requires small { Each (λ v. unsigned_abs v ≤ 2305843009213693952) terms.now }
    requires few { length terms.now ≤ 5 }
    requires near { unsigned_abs x ≤ 65 }
    ensures value { result ≡ neg_ℤ (x *ℤ eval ℤR terms.now x) }
    ensures size { unsigned_abs result ≤ 1267650600228229401496703205376 }
{
    opposite(multiplied(x, at(terms, x)))
}
