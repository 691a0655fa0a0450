ghost use Rattle.std.specs.Prelude.{◌≡◌, ◌<◌, ◌≤◌, length, map, IfOk, IfErr};
ghost use Rattle.sg_algebra.proofs.Coprime.{Coprime};
ghost use Rattle.sg_algebra.proofs.Polynomial.{PolynomialR, zero_polynomial, one_polynomial};
ghost use Rattle.sg_num.specs.Stopped.{KeepsWideStep};
ghost use Rattle.sg_poly.specs.Divisors.{IsMonic};
ghost use Rattle.sg_poly.specs.Polynomials.{polynomial};
ghost use Rattle.sg_constant.specs.Multiples.{IsMultiple, IsScaled, IsLess, IsRest};

use crate::polynomials::nothing;
use sg_num::{Field, Stop};
use sg_poly::Poly;
use std::alloc::{AllocError, Global};

// Two polynomials of which the second is the first times another one, up to a multiple of the modulus.
#[derive(Drop)]
struct Multiple<F: Field> {
    value: Poly<F>,
    factor: Poly<F>,
}

// A polynomial t with t u - 1 divided by w, where u and w are coprime (Euclid).
pub(crate) fn inverse<F: Field>(alloc: Global, u: &Poly<F>, w: &Poly<F>) -> Result<Poly<F>, Stop>
    requires monic { IsMonic (map F.val w.now) }
    requires apart { Coprime (PolynomialR F.vars) (polynomial F.val w.now) (polynomial F.val u.now) }
    ensures value { IfOk result (λ t. IsMultiple (polynomial F.val w.now) (polynomial F.val u.now) one_polynomial (polynomial F.val t)) }
    ensures wide { IfErr result KeepsWideStep }
{
    let mut b = started(alloc, u, w)?;
    let mut a = Multiple {
        value: w.copy(alloc)?,
        factor: nothing(alloc)?,
    };
    while !b.value.is_zero() {
        let divisor = normal(alloc, &b)?;
        b = rest(alloc, &a, &divisor)?;
        a = divisor;
    }
    Ok(a.factor)
}

// The rest of u by w, as u times 1.
fn started<F: Field>(alloc: Global, u: &Poly<F>, w: &Poly<F>) -> Result<Multiple<F>, Stop>
    requires { ¬ (polynomial F.val w.now ≡ zero_polynomial) }
    ensures value { IfOk result (λ r. IsRest (polynomial F.val u.now) (polynomial F.val w.now) (polynomial F.val r.value)) }
    ensures factor { IfOk result (λ r. polynomial F.val r.factor ≡ one_polynomial) }
    ensures wide { IfErr result KeepsWideStep }
{
    let (_quotient, value) = u.div_rem(alloc, w)?;
    let factor = Poly::one(alloc)?;
    Ok(Multiple { value, factor })
}

// The same with leading coefficient 1.
fn normal<F: Field>(alloc: Global, m: &Multiple<F>) -> Result<Multiple<F>, Stop>
    requires { ¬ (polynomial F.val m.now.value ≡ zero_polynomial) }
    ensures scaled { IfOk result (λ r. IsScaled (polynomial F.val m.now.value) (polynomial F.val m.now.factor)
        (polynomial F.val r.value) (polynomial F.val r.factor)) }
    ensures monic { IfOk result (λ r. IsMonic (map F.val r.value)) }
    ensures shorter { IfOk result (λ r. length r.value ≤ length m.now.value) }
    ensures wide { IfErr result KeepsWideStep }
{
    let value = m.value.monic(alloc)?;
    let one = F::one(alloc)?;
    let list = m.value.coeffs();
    match list.last() {
        Some(last) => {
            let c = one.div(alloc, last)?;
            let factor = m.factor.scale(alloc, &c)?;
            Ok(Multiple { value, factor })
        }
        None => Err(Stop::Memory(AllocError)),
    }
}

// The rest of the division of the one by the other.
fn rest<F: Field>(alloc: Global, a: &Multiple<F>, b: &Multiple<F>) -> Result<Multiple<F>, Stop>
    requires { ¬ (polynomial F.val b.now.value ≡ zero_polynomial) }
    ensures less { IfOk result (λ r. IsLess (polynomial F.val a.now.value) (polynomial F.val a.now.factor)
        (polynomial F.val b.now.value) (polynomial F.val b.now.factor) (polynomial F.val r.value) (polynomial F.val r.factor)) }
    ensures smaller { IfOk result (λ r. length r.value < length b.now.value) }
    ensures wide { IfErr result KeepsWideStep }
{
    let (quotient, value) = a.value.div_rem(alloc, &b.value)?;
    let product = quotient.mul(alloc, &b.factor)?;
    let factor = a.factor.sub(alloc, &product)?;
    Ok(Multiple { value, factor })
}
