ghost use Rattle.std.specs.Prelude.{◌≡◌, ◌+◌, ◌-◌, ◌<◌, ◌++◌, ◌↔◌, ℤ, ◌<ℤ◌, AllPairs, Contains, length, map, take, drop, OnOk, IfOk, IfErr, IsTrue};
ghost use Rattle.sg_algebra.proofs.Coprime.{Coprime};
ghost use Rattle.sg_algebra.proofs.Degree.{Monic};
ghost use Rattle.sg_algebra.proofs.Polynomial.{PolynomialR, poly, zero_polynomial};
ghost use Rattle.sg_algebra.proofs.Rational.{whole_value};
ghost use Rattle.sg_algebra.proofs.Shift.{moved};
ghost use Rattle.sg_algebra.proofs.ValueField.{ValueR};
ghost use Rattle.sg_num.specs.Stopped.{KeepsWideStep};
ghost use Rattle.sg_num.specs.Value.{number};
ghost use Rattle.sg_num.specs.Roots.{IsRoot};
ghost use Rattle.sg_spread.specs.Shifts.{Meets, AreShifts, IsConfirmed};

use crate::elimination::{confirmed, joined};
use crate::meetings::shifts_of_values;
use sg_num::{Field, Row, Stop};
use sg_poly::Poly;
use std::alloc::Global;

/// The shifts at which two polynomials meet, in ascending order: the whole m, of any size, for which a(k) and b(k+m) have a
/// common divisor of positive degree. They are looked for at values of the coefficients: whole roots are split off, whose
/// differences are shifts, and what is left is taken by an elimination (Abramov 1971; the resultant in m would serve as
/// well). Over a field with variables each is confirmed by a greatest common divisor. It stops at a kept step that doesn't
/// fit or because it is out of memory.
pub fn spread<F: Field>(alloc: Global, a: &Poly<F>, b: &Poly<F>) -> Result<Row<i128>, Stop>
    requires left { ¬ (poly (map F.val a.now) ≡ zero_polynomial) }
    requires right { ¬ (poly (map F.val b.now) ≡ zero_polynomial) }
    ensures ascending { IfOk result (AllPairs ◌<ℤ◌) }
    ensures shifts { IfOk result (λ r. (m : ℤ) → Contains r m ↔ Meets (map F.val a.now) (map F.val b.now) m) }
    ensures wide { IfErr result KeepsWideStep }
{
    let left = a.monic(alloc)?;
    let right = b.monic(alloc)?;
    if left.coeffs().len() < 2 {
        return Ok(Row::new(alloc));
    }
    if right.coeffs().len() < 2 {
        return Ok(Row::new(alloc));
    }
    let list = joined(alloc, left.coeffs(), right.coeffs())?;
    let probe = F::probe(alloc, &list)?;
    let all = shifts_of_values(alloc, probe.values.as_slice(), left.coeffs().len())?;
    if probe.args.is_empty() {
        return Ok(all);
    }
    let shifts = confirmed(alloc, a, b, all.as_slice())?;
    Ok(shifts)
}
