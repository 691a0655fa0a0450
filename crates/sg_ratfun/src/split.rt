ghost use Rattle.std.specs.Prelude.{◌≡◌, ◌-◌, length, map, IfOk, IfErr};
ghost use Rattle.sg_algebra.proofs.Value.{inv_value, zero_value};
ghost use Rattle.sg_algebra.proofs.Coprime.{Coprime};
ghost use Rattle.sg_algebra.proofs.Polynomial.{PolynomialR, coefficient, ◌*ᵖ◌, zero_polynomial};
ghost use Rattle.sg_num.specs.Stopped.{KeepsWideStep};
ghost use Rattle.sg_poly.specs.Divisors.{IsMonic};
ghost use Rattle.sg_poly.specs.Polynomials.{polynomial};

use sg_num::{Field, Stop};
use sg_poly::Poly;
use std::alloc::Global;

// Two polynomials without what they have in common, and that.
#[derive(Drop)]
pub(crate) struct Cofactors<F: Field> {
    pub(crate) left: Poly<F>,
    pub(crate) right: Poly<F>,
    pub(crate) common: Poly<F>,
}

// The two polynomials, the second of which isn't 0, over their greatest common divisor; a constant other than 0 has none with any.
pub(crate) fn split<F: Field>(alloc: Global, p: &Poly<F>, q: &Poly<F>) -> Result<Cofactors<F>, Stop>
    requires { ¬ (polynomial F.val q.now ≡ zero_polynomial) }
    ensures left { IfOk result (λ s. polynomial F.val p.now ≡ polynomial F.val s.left *ᵖ polynomial F.val s.common) }
    ensures right { IfOk result (λ s. polynomial F.val q.now ≡ polynomial F.val s.right *ᵖ polynomial F.val s.common) }
    ensures coprime { IfOk result (λ s. Coprime (PolynomialR F.vars) (polynomial F.val s.left) (polynomial F.val s.right)) }
    ensures monic { IfOk result (λ s. IsMonic (map F.val s.common)) }
    ensures wide { IfErr result KeepsWideStep }
{
    if p.coeffs().len() == 1 {
        let whole = apart(alloc, p, q)?;
        return Ok(whole);
    }
    if q.coeffs().len() < 2 {
        let whole = apart(alloc, p, q)?;
        return Ok(whole);
    }
    let common = p.gcd(alloc, q)?;
    let left = p.exact(alloc, &common)?;
    let right = q.exact(alloc, &common)?;
    Ok(Cofactors {
        left,
        right,
        common,
    })
}

// Coprime polynomials have nothing in common.
fn apart<F: Field>(alloc: Global, p: &Poly<F>, q: &Poly<F>) -> Result<Cofactors<F>, Stop>
    requires { Coprime (PolynomialR F.vars) (polynomial F.val p.now) (polynomial F.val q.now) }
    ensures left { IfOk result (λ s. polynomial F.val p.now ≡ polynomial F.val s.left *ᵖ polynomial F.val s.common) }
    ensures right { IfOk result (λ s. polynomial F.val q.now ≡ polynomial F.val s.right *ᵖ polynomial F.val s.common) }
    ensures coprime { IfOk result (λ s. Coprime (PolynomialR F.vars) (polynomial F.val s.left) (polynomial F.val s.right)) }
    ensures monic { IfOk result (λ s. IsMonic (map F.val s.common)) }
    ensures wide { IfErr result KeepsWideStep }
{
    let common = Poly::one(alloc)?;
    let left = p.copy(alloc)?;
    let right = q.copy(alloc)?;
    Ok(Cofactors {
        left,
        right,
        common,
    })
}

// One over the last coefficient of a polynomial that isn't 0.
pub(crate) fn lead_inverse<F: Field>(alloc: Global, p: &Poly<F>) -> Result<F, Stop>
    requires { ¬ (polynomial F.val p.now ≡ zero_polynomial) }
    ensures value { IfOk result (λ x. F.val x ≡ inv_value (coefficient (map F.val p.now) (length p.now - 1))) }
    ensures some { IfOk result (λ x. ¬ (coefficient (map F.val p.now) (length p.now - 1) ≡ zero_value)) }
    ensures wide { IfErr result KeepsWideStep }
{
    let list = p.coeffs();
    let lead = &list[list.len() - 1];
    let r = F::one(alloc)?.div(alloc, lead)?;
    Ok(r)
}
