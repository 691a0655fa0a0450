ghost use Rattle.std.specs.Prelude.{◌≡◌, ◌+◌, ◌-◌, ◌<◌, ◌++◌, ◌↔◌, ℤ, ◌<ℤ◌, AllPairs, Contains, length, map, take, drop, OnOk, IfOk, IfErr, IsTrue};
ghost use Rattle.sg_algebra.proofs.Coprime.{Coprime};
ghost use Rattle.sg_algebra.proofs.Degree.{Monic};
ghost use Rattle.sg_algebra.proofs.Polynomial.{PolynomialR, poly, zero_polynomial};
ghost use Rattle.sg_algebra.proofs.Rational.{whole_value};
ghost use Rattle.sg_algebra.proofs.Shift.{moved};
ghost use Rattle.sg_algebra.proofs.ValueField.{ValueR};
ghost use Rattle.sg_num.specs.Stopped.{KeepsWideStep};
ghost use Rattle.sg_num.specs.Value.{number};
ghost use Rattle.sg_num.specs.Roots.{IsRoot};
ghost use Rattle.sg_spread.specs.Shifts.{Meets, AreShifts, AreCoprimeAt, IsConfirmed};
ghost use Rattle.sg_spread.specs.Powers.{IsVanishing};

use crate::certificate::certificate;
use crate::split::roots_of;
use sg_num::{Field, Rat, Row, Stop, push_copies};
use sg_poly::Poly;
use std::alloc::Global;

/// The same, by an elimination alone: the last resort.
pub(crate) fn eliminated<F: Field>(
    alloc: Global,
    a: &Poly<F>,
    b: &Poly<F>,
) -> Result<Row<i128>, Stop>
    requires left { ¬ (poly (map F.val a.now) ≡ zero_polynomial) }
    requires right { ¬ (poly (map F.val b.now) ≡ zero_polynomial) }
    ensures ascending { IfOk result (AllPairs ◌<ℤ◌) }
    ensures shifts { IfOk result (λ r. (m : ℤ) → Contains r m ↔ Meets (map F.val a.now) (map F.val b.now) m) }
    ensures wide { IfErr result KeepsWideStep }
{
    let left = a.monic(alloc)?;
    let right = b.monic(alloc)?;
    if left.coeffs().len() < 2 {
        return Ok(Row::new(alloc));
    }
    if right.coeffs().len() < 2 {
        return Ok(Row::new(alloc));
    }
    let all = candidates(alloc, &left, &right)?;
    let shifts = confirmed(alloc, a, b, all.as_slice())?;
    Ok(shifts)
}

// Whole numbers in ascending order, among them each m at which two monic polynomials a(k) and b(k+m) aren't coprime. All
// steps are taken over the fractions, at values of the coefficients.
fn candidates<F: Field>(alloc: Global, a: &Poly<F>, b: &Poly<F>) -> Result<Row<i128>, Stop>
    requires some { 1 < length a.now }
    requires others { 1 < length b.now }
    requires left { Monic (ValueR F.vars) (length a.now - 1) (map F.val a.now) }
    requires right { Monic (ValueR F.vars) (length b.now - 1) (map F.val b.now) }
    ensures ascending { IfOk result (AllPairs ◌<ℤ◌) }
    ensures all { IfOk result (λ r. (m : ℤ) → ¬ AreCoprimeAt (map F.val a.now) (map F.val b.now) m → Contains r m) }
    ensures wide { IfErr result KeepsWideStep }
{
    let list = joined(alloc, a.coeffs(), b.coeffs())?;
    let probe = F::probe(alloc, &list)?;
    let p = vanishing(alloc, probe.values.as_slice(), a.coeffs().len())?;
    let roots = roots_of(alloc, &p)?;
    Ok(roots)
}

// The items of both, one list after the other.
pub(crate) fn joined<F: Field>(alloc: Global, a: &[F], b: &[F]) -> Result<Row<F>, Stop>
    ensures value { IfOk result (λ r. map F.val r ≡ map F.val a.now ++ map F.val b.now) }
    ensures wide { IfErr result KeepsWideStep }
{
    let mut row = Row::new(alloc);
    push_copies(alloc, &mut row, a)?;
    push_copies(alloc, &mut row, b)?;
    Ok(row)
}

// A polynomial other than 0 that is 0 wherever two monic polynomials over the fractions meet: the first n numbers are the
// coefficients of the one, the others those of the other.
fn vanishing(alloc: Global, values: &[Rat], n: usize) -> Result<Poly<Rat>, Stop>
    requires some { 1 < n }
    requires others { n + 1 < length values.now }
    ensures some { IfOk result (λ p. ¬ (poly (map number p) ≡ zero_polynomial)) }
    ensures roots { IfOk result (IsVanishing n values.now) }
    ensures wide { IfErr result KeepsWideStep }
{
    let (a, b) = values.split_at(n);
    let list = certificate(alloc, a, b)?;
    let p = Poly::from_coeffs(alloc, list)?;
    Ok(p)
}

// Those of the candidates at which the two meet.
pub(crate) fn confirmed<F: Field>(
    alloc: Global,
    a: &Poly<F>,
    b: &Poly<F>,
    candidates: &[i128],
) -> Result<Row<i128>, Stop>
    requires some { ¬ (poly (map F.val a.now) ≡ zero_polynomial) }
    requires ascending { AllPairs ◌<ℤ◌ candidates.now }
    ensures value { IfOk result (λ r. AreShifts (map F.val a.now) (map F.val b.now) candidates.now r) }
    ensures wide { IfErr result KeepsWideStep }
{
    let mut shifts = Row::new(alloc);
    for i in 0..candidates.len() {
        let m = candidates[i];
        confirm(alloc, a, b, m, &mut shifts)?;
    }
    Ok(shifts)
}

// Adds a number where the two meet there.
fn confirm<F: Field>(
    alloc: Global,
    a: &Poly<F>,
    b: &Poly<F>,
    m: i128,
    shifts: &mut Row<i128>,
) -> Result<(), Stop>
    requires some { ¬ (poly (map F.val a.now) ≡ zero_polynomial) }
    ensures value { OnOk result (IsConfirmed (map F.val a.now) (map F.val b.now) m shifts.old shifts.new) }
    ensures wide { IfErr result KeepsWideStep }
{
    if meet(alloc, a, b, m)? {
        shifts.push(m)?;
    }
    Ok(())
}

// Whether a(k) and b(k+m) have a common divisor of positive degree.
fn meet<F: Field>(alloc: Global, a: &Poly<F>, b: &Poly<F>, m: i128) -> Result<bool, Stop>
    requires some { ¬ (poly (map F.val a.now) ≡ zero_polynomial) }
    ensures value { IfOk result (λ r. IsTrue r ↔ Meets (map F.val a.now) (map F.val b.now) m) }
    ensures wide { IfErr result KeepsWideStep }
{
    let shifted = b.shift_by(alloc, m)?;
    let common = a.gcd(alloc, &shifted)?;
    Ok(common.coeffs().len() > 1)
}
