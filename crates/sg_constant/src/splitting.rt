ghost use Rattle.std.specs.Prelude.{◌≡◌, ℕ, map, IfOk, IfErr};
ghost use Rattle.sg_algebra.specs.Coefficients.{Each};
ghost use Rattle.sg_algebra.proofs.Coprime.{Coprime};
ghost use Rattle.sg_algebra.proofs.Degree.{Degree};
ghost use Rattle.sg_algebra.proofs.ValueField.{ValueR};
ghost use Rattle.sg_algebra.proofs.Polynomial.{Polynomial, PolynomialR, zero_polynomial, one_polynomial, ◌+ᵖ◌, ◌-ᵖ◌, ◌*ᵖ◌};
ghost use Rattle.sg_num.specs.Stopped.{KeepsWideStep};
ghost use Rattle.sg_poly.specs.Divisors.{◌∣ᵖ◌, IsMonic};
ghost use Rattle.sg_poly.specs.Polynomials.{polynomial};
ghost use Rattle.sg_first_order_theory.proofs.Under.{Under};
ghost use Rattle.sg_reduction_theory.proofs.Steps.{Adds};
ghost use Rattle.sg_constant.specs.Multiples.{IsMultiple};
ghost use Rattle.sg_constant.specs.Shares.{polys, share, over, IsSplit};

use crate::euclid::inverse;
use crate::parting::Parts;
use crate::shares::Share;
use sg_num::{Field, Row, Stop};
use sg_poly::Poly;
use std::alloc::Global;

// The numerators over the two factors.
#[derive(Drop)]
struct Halves<F: Field> {
    left: Row<Poly<F>>,
    right: Row<Poly<F>>,
}

// Two shares.
#[derive(Drop)]
pub(crate) struct Pair<F: Field> {
    pub(crate) first: Share<F>,
    pub(crate) second: Share<F>,
}

// The share with these numerators over the product of the two coprime factors, as a sum of one over each (partial fractions).
pub(crate) fn split<F: Field>(
    alloc: Global,
    uppers: &[Poly<F>],
    factors: Parts<F>,
) -> Result<Pair<F>, Stop>
    requires monic { IsMonic (map F.val factors.common) }
    requires some { ¬ (polynomial F.val factors.rest ≡ zero_polynomial) }
    requires apart { Coprime (PolynomialR F.vars) (polynomial F.val factors.common) (polynomial F.val factors.rest) }
    ensures split { IfOk result (λ r. (w : Polynomial F.vars) → w ≡ polynomial F.val factors.common *ᵖ polynomial F.val factors.rest
        → IsSplit (over (polys F.val uppers.now) w) (share F.val r.first) (share F.val r.second)) }
    ensures first { IfOk result (λ r. r.first.lower ≡ factors.common) }
    ensures second { IfOk result (λ r. r.second.lower ≡ factors.rest) }
    ensures wide { IfErr result KeepsWideStep }
{
    let t = inverse(alloc, &factors.rest, &factors.common)?;
    let parts = numerators(alloc, uppers, &factors.common, &factors.rest, &t)?;
    let first = Share {
        uppers: parts.left,
        lower: factors.common,
    };
    let second = Share {
        uppers: parts.right,
        lower: factors.rest,
    };
    Ok(Pair { first, second })
}

// The numerators over u and over v of those over u v, where t v - 1 is divided by u.
fn numerators<F: Field>(
    alloc: Global,
    uppers: &[Poly<F>],
    u: &Poly<F>,
    v: &Poly<F>,
    t: &Poly<F>,
) -> Result<Halves<F>, Stop>
    requires some { ¬ (polynomial F.val u.now ≡ zero_polynomial) }
    requires inverse { IsMultiple (polynomial F.val u.now) (polynomial F.val v.now) one_polynomial (polynomial F.val t.now) }
    ensures adds { IfOk result (λ r. Adds (polynomial F.val v.now) (polynomial F.val u.now) (polys F.val uppers.now) (polys F.val r.left)
        (polys F.val r.right)) }
    ensures under { IfOk result (λ r. (m : ℕ) → Degree (ValueR F.vars) m (map F.val u.now) → Each (Under m) (polys F.val r.left)) }
    ensures wide { IfErr result KeepsWideStep }
{
    let mut left = Row::new(alloc);
    let mut right = Row::new(alloc);
    for i in 0..uppers.len() {
        let n = &uppers[i];
        let x = left_upper(alloc, n, u, t)?;
        let y = right_upper(alloc, n, &x, u, v)?;
        left.push(x)?;
        right.push(y)?;
    }
    Ok(Halves { left, right })
}

// The numerator over u of n over u v, where t v - 1 is divided by u.
fn left_upper<F: Field>(
    alloc: Global,
    n: &Poly<F>,
    u: &Poly<F>,
    t: &Poly<F>,
) -> Result<Poly<F>, Stop>
    requires { ¬ (polynomial F.val u.now ≡ zero_polynomial) }
    ensures value { IfOk result (λ r. polynomial F.val u.now ∣ᵖ (polynomial F.val r -ᵖ polynomial F.val n.now *ᵖ polynomial F.val t.now)) }
    ensures under { IfOk result (λ r. (m : ℕ) → Degree (ValueR F.vars) m (map F.val u.now) → Under m (polynomial F.val r)) }
    ensures wide { IfErr result KeepsWideStep }
{
    let _divisor = u.coeffs();
    let (_quotient, small) = n.div_rem(alloc, u)?;
    let product = small.mul(alloc, t)?;
    let (_multiple, r) = product.div_rem(alloc, u)?;
    Ok(r)
}

// The numerator over v of n over u v, where that over u is x.
fn right_upper<F: Field>(
    alloc: Global,
    n: &Poly<F>,
    x: &Poly<F>,
    u: &Poly<F>,
    v: &Poly<F>,
) -> Result<Poly<F>, Stop>
    requires some { ¬ (polynomial F.val u.now ≡ zero_polynomial) }
    requires divides { polynomial F.val u.now ∣ᵖ (polynomial F.val n.now -ᵖ polynomial F.val x.now *ᵖ polynomial F.val v.now) }
    ensures value { IfOk result (λ r. polynomial F.val n.now ≡ polynomial F.val x.now *ᵖ polynomial F.val v.now
        +ᵖ polynomial F.val r *ᵖ polynomial F.val u.now) }
    ensures wide { IfErr result KeepsWideStep }
{
    let product = x.mul(alloc, v)?;
    let difference = n.sub(alloc, &product)?;
    let r = difference.exact(alloc, u)?;
    Ok(r)
}
