//! Monic polynomials with exponents, refined until no two of them have a common divisor: at no shift, or as they are.
ghost use Rattle.std.specs.Prelude.{◌≡◌, ℕ, ◌<◌, [], ◌∷◌, length, map, pos, All, AllPairs, get_or, OnOk, IfOk, IfErr, IfSome, IfNone, IsTrue, ◌↔◌, ℤ};
ghost use Rattle.sg_algebra.proofs.Polynomial.{poly, zero_polynomial};
ghost use Rattle.sg_algebra.proofs.Rational.{whole_value};
ghost use Rattle.sg_algebra.proofs.Shift.{moved};
ghost use Rattle.sg_num.specs.Stopped.{KeepsWideStep};
ghost use Rattle.sg_poly.specs.Divisors.{IsMonic};
ghost use Rattle.sg_poly.specs.Polynomials.{polynomial};
ghost use Rattle.sg_spread.specs.Shifts.{Meets};
ghost use Rattle.sg_relations.specs.declared.factors.Shifts.{Shifts};
ghost use Rattle.sg_relations.specs.Factors.{HasWidth, IsFactor, IsProper, AreUnmet, ArePairwise, AreAlike, product_at, IsShift, IsMeeting, IsMeetingHere, IsStep, IsSplit};

use crate::numbers::sums;
use sg_num::{Field, Row, Stop, whole_difference};
use sg_poly::Poly;
use sg_spread::spread;
use std::alloc::Global;

/// A monic polynomial, and its exponent in each of some elements.
#[derive(Drop)]
pub(crate) struct Factor<F: Field> {
    pub(crate) base: Poly<F>,
    pub(crate) exps: Row<i128>,
}

/// At which shifts common divisors are looked for: at all, or at 0 alone.
#[derive(Clone, Copy, Drop)]
pub(crate) enum Shifts {
    All,
    Zero,
}

// Whether two polynomials have a common divisor of positive degree.
fn have_common<F: Field>(alloc: Global, a: &Poly<F>, b: &Poly<F>) -> Result<bool, Stop>
    requires { ¬ (polynomial F.val a.now ≡ zero_polynomial) }
    ensures value { IfOk result (λ r. IsTrue r ↔ Meets (map F.val a.now) (map F.val b.now) (pos 0)) }
    ensures wide { IfErr result KeepsWideStep }
{
    let common = a.gcd(alloc, b)?;
    Ok(common.coeffs().len() > 1)
}

// The first factor that has a common divisor with w as they are.
fn meeting_here<F: Field>(
    alloc: Global,
    standing: &[Factor<F>],
    w: &Poly<F>,
) -> Result<Option<usize>, Stop>
    requires { ¬ (polynomial F.val w.now ≡ zero_polynomial) }
    ensures met { IfOk result (λ o. IfSome o (IsMeetingHere F.val standing.now w.now)) }
    ensures none { IfOk result (λ o. IfNone o (All (λ c. ¬ Meets (map F.val w.now) (map F.val c.base) (pos 0)) standing.now)) }
    ensures wide { IfErr result KeepsWideStep }
{
    for j in 0..standing.len() {
        if have_common(alloc, w, &standing[j].base)? {
            return Ok(Some(j));
        }
    }
    Ok(None)
}

// The first factor that has a common divisor with w at a shift, and the least such shift.
fn meeting_far<F: Field>(
    alloc: Global,
    standing: &[Factor<F>],
    w: &Poly<F>,
) -> Result<Option<(usize, i128)>, Stop>
    requires some { ¬ (polynomial F.val w.now ≡ zero_polynomial) }
    requires proper { All (IsProper F.val) standing.now }
    ensures met { IfOk result (λ o. IfSome o (λ p. IsMeeting F.val standing.now w.now p.0 p.1)) }
    ensures none { IfOk result (λ o. IfNone o (All (λ c. (m : ℤ) → ¬ Meets (map F.val w.now) (map F.val c.base) m) standing.now)) }
    ensures wide { IfErr result KeepsWideStep }
{
    for j in 0..standing.len() {
        let shifts = spread(alloc, w, &standing[j].base)?;
        if !shifts.is_empty() {
            return Ok(Some((j, *shifts.get(0))));
        }
    }
    Ok(None)
}

// The first factor that has a common divisor with w, and at which shift.
fn meeting<F: Field>(
    alloc: Global,
    shifts: Shifts,
    standing: &[Factor<F>],
    w: &Poly<F>,
) -> Result<Option<(usize, i128)>, Stop>
    requires some { ¬ (polynomial F.val w.now ≡ zero_polynomial) }
    requires proper { All (IsProper F.val) standing.now }
    ensures met { IfOk result (λ o. IfSome o (λ p. IsMeeting F.val standing.now w.now p.0 p.1)) }
    ensures shift { IfOk result (λ o. IfSome o (λ p. IsShift shifts p.1)) }
    ensures none { IfOk result (λ o. IfNone o (All (λ c. AreUnmet F.val shifts w.now c) standing.now)) }
    ensures wide { IfErr result KeepsWideStep }
{
    if let Some(j) = meeting_here(alloc, standing, w)? {
        return Ok(Some((j, 0)));
    }
    match shifts {
        Shifts::Zero => Ok(None),
        Shifts::All => meeting_far(alloc, standing, w),
    }
}

// The two factors without their common divisor at a shift, and that with the sum of the exponents, wait.
fn split<F: Field>(
    alloc: Global,
    w: Factor<F>,
    b: Factor<F>,
    m: i128,
    waiting: &mut Row<Factor<F>>,
) -> Result<(), Stop>
    requires own { IsFactor F.val w }
    requires other { IsFactor F.val b }
    requires width { length w.exps ≡ length b.exps }
    requires met { Meets (map F.val w.base) (map F.val b.base) m }
    ensures value { OnOk result ((s : Shifts) → IsShift s m → IsSplit F.val s (length w.exps) w b waiting.old waiting.new) }
    ensures wide { IfErr result KeepsWideStep }
{
    let there = b.base.shift_by(alloc, m)?;
    let common = w.base.gcd(alloc, &there)?;
    let back = whole_difference(0, m)?;
    let here = common.shift_by(alloc, back)?;
    let exps = sums(alloc, w.exps.as_slice(), b.exps.as_slice())?;
    let rest_of_w = w.base.exact(alloc, &common)?;
    let rest_of_b = b.base.exact(alloc, &here)?;
    waiting.push(Factor { base: common, exps })?;
    waiting.push(Factor {
        base: rest_of_b,
        exps: b.exps,
    })?;
    waiting.push(Factor {
        base: rest_of_w,
        exps: w.exps,
    })?;
    Ok(())
}

// One step: a factor that is 1 is dropped; one that has a common divisor with none that stand stands from now on; else it and
// the one that it meets are split.
fn step<F: Field>(
    alloc: Global,
    shifts: Shifts,
    w: Factor<F>,
    waiting: &mut Row<Factor<F>>,
    standing: &mut Row<Factor<F>>,
) -> Result<(), Stop>
    requires monic { All (IsFactor F.val) waiting.old }
    requires proper { All (IsProper F.val) standing.old }
    requires pairwise { ArePairwise F.val shifts standing.old }
    requires own { IsFactor F.val w }
    requires waiting_width { All (HasWidth (length w.exps)) waiting.old }
    requires standing_width { All (HasWidth (length w.exps)) standing.old }
    ensures value { OnOk result (IsStep F.val shifts (length w.exps) w waiting.old standing.old waiting.new standing.new) }
    ensures wide { IfErr result KeepsWideStep }
{
    if w.base.coeffs().len() < 2 {
        return Ok(());
    }
    let found = meeting(alloc, shifts, standing.as_slice(), &w.base)?;
    match found {
        None => {
            standing.push(w)?;
            Ok(())
        }
        Some((j, m)) => {
            let b = standing.remove(j);
            split(alloc, w, b, m, waiting)?;
            Ok(())
        }
    }
}

/// Monic polynomials of positive degree with exponents, no two of which have a common divisor at the shifts that are looked
/// at, and whose products are those of the factors given, up to r(k+1)/r(k) where all shifts are looked at. (Bernstein 2005 and
/// others: a coprime base by greatest common divisors alone.)
pub(crate) fn refined<F: Field>(
    alloc: Global,
    shifts: Shifts,
    count: usize,
    factors: Row<Factor<F>>,
) -> Result<Row<Factor<F>>, Stop>
    requires monic { All (IsFactor F.val) factors }
    requires width { All (HasWidth count) factors }
    ensures proper { IfOk result (All (IsProper F.val)) }
    ensures width { IfOk result (All (HasWidth count)) }
    ensures pairwise { IfOk result (ArePairwise F.val shifts) }
    ensures kept { IfOk result (λ r. (i : ℕ) → AreAlike shifts (product_at F.val factors i) (product_at F.val r i)) }
    ensures wide { IfErr result KeepsWideStep }
{
    let mut waiting = factors;
    let mut standing = Row::new(alloc);
    while !waiting.is_empty() {
        let last = waiting.len() - 1;
        let w = waiting.remove(last);
        step(alloc, shifts, w, &mut waiting, &mut standing)?;
    }
    Ok(standing)
}
