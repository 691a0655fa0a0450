ghost use Rattle.std.specs.Prelude.{◌≡◌, map, IfOk, IfErr};
ghost use Rattle.sg_algebra.proofs.Polynomial.{PolynomialR, zero_polynomial};
ghost use Rattle.sg_num.specs.Stopped.{KeepsWideStep};
ghost use Rattle.sg_poly.specs.Divisors.{IsMonic};
ghost use Rattle.sg_poly.specs.Polynomials.{polynomial};
ghost use Rattle.sg_first_order_theory.proofs.Next.{nextH};
ghost use Rattle.sg_reduction_theory.proofs.Settling.{IsPart};

use sg_num::{Field, Stop};
use sg_poly::Poly;
use std::alloc::Global;

// A factor that divides a power of another polynomial, and the rest, which is coprime to that.
#[derive(Drop)]
pub(crate) struct Parts<F: Field> {
    pub(crate) common: Poly<F>,
    pub(crate) rest: Poly<F>,
}

// w as the product of a factor that divides a power of e, and one that is coprime to e.
pub(crate) fn parted<F: Field>(alloc: Global, w: &Poly<F>, e: &Poly<F>) -> Result<Parts<F>, Stop>
    requires left { ¬ (polynomial F.val w.now ≡ zero_polynomial) }
    requires right { ¬ (polynomial F.val e.now ≡ zero_polynomial) }
    ensures parts { IfOk result (λ r. IsPart (PolynomialR F.vars) (nextH F.vars) (polynomial F.val w.now)
        (polynomial F.val r.common) (polynomial F.val r.rest) (polynomial F.val e.now)) }
    ensures monic { IfOk result (λ r. IsMonic (map F.val r.common)) }
    ensures wide { IfErr result KeepsWideStep }
{
    let mut common = Poly::one(alloc)?;
    let mut rest = w.copy(alloc)?;
    let mut g = rest.gcd(alloc, e)?;
    while g.coeffs().len() > 1 {
        common = common.mul(alloc, &g)?;
        rest = rest.exact(alloc, &g)?;
        g = rest.gcd(alloc, e)?;
    }
    Ok(Parts { common, rest })
}
