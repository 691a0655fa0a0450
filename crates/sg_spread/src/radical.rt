//! Polynomials over the fractions without their repeated factors.
ghost use Rattle.std.specs.Prelude.{◌≡◌, ℤ, ◌<ℤ◌, ◌↔◌, AllPairs, Contains, map, IfOk, IfErr};
ghost use Rattle.sg_algebra.proofs.Polynomial.{zero_polynomial};
ghost use Rattle.sg_num.specs.Stopped.{KeepsWideStep};
ghost use Rattle.sg_num.specs.Value.{number};
ghost use Rattle.sg_poly.specs.Polynomials.{polynomial};
ghost use Rattle.sg_dispersion_theory.proofs.Radical.{IsRadical};
ghost use Rattle.sg_spread.specs.Shifts.{Meets};

use crate::elimination::eliminated;
use sg_num::{Rat, Row, Stop};
use sg_poly::Poly;
use std::alloc::Global;

/// The shifts at which two polynomials over the fractions meet, by an elimination once repeated factors are taken out.
pub(crate) fn eliminated_without_repeated(
    alloc: Global,
    a: &Poly<Rat>,
    b: &Poly<Rat>,
) -> Result<Row<i128>, Stop>
    requires left { ¬ (polynomial number a.now ≡ zero_polynomial) }
    requires right { ¬ (polynomial number b.now ≡ zero_polynomial) }
    ensures ascending { IfOk result (AllPairs ◌<ℤ◌) }
    ensures shifts { IfOk result (λ r. (m : ℤ) → Contains r m ↔ Meets (map number a.now) (map number b.now) m) }
    ensures wide { IfErr result KeepsWideStep }
{
    let left = radical(alloc, a)?;
    let right = radical(alloc, b)?;
    let shifts = eliminated(alloc, &left, &right)?;
    Ok(shifts)
}

// The polynomial, which isn't 0, without its repeated factors; where a step towards that doesn't fit, as it is.
fn radical(alloc: Global, p: &Poly<Rat>) -> Result<Poly<Rat>, Stop>
    requires { ¬ (polynomial number p.now ≡ zero_polynomial) }
    ensures radical { IfOk result (λ r. IsRadical (map number p.now) (map number r)) }
    ensures wide { IfErr result KeepsWideStep }
{
    match without_repeated(alloc, p) {
        Ok(r) => Ok(r),
        Err(Stop::Wide(_)) => {
            let same = p.copy(alloc)?;
            Ok(same)
        }
        Err(stop) => Err(stop),
    }
}

// The polynomial over its greatest common divisor with its derivative.
fn without_repeated(alloc: Global, p: &Poly<Rat>) -> Result<Poly<Rat>, Stop>
    requires { ¬ (polynomial number p.now ≡ zero_polynomial) }
    ensures radical { IfOk result (λ r. IsRadical (map number p.now) (map number r)) }
    ensures wide { IfErr result KeepsWideStep }
{
    let slope = p.derivative(alloc)?;
    let common = p.gcd(alloc, &slope)?;
    let r = p.exact(alloc, &common)?;
    Ok(r)
}
