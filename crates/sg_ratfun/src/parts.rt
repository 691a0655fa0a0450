ghost use Rattle.std.specs.Prelude.{◌≡◌, length, map, IfOk, IfErr};
ghost use Rattle.sg_algebra.proofs.Value.{over_value, ◌+ᵛ◌, ◌-ᵛ◌, ◌*ᵛ◌, ◌/ᵛ◌, one_value};
ghost use Rattle.sg_algebra.proofs.Polynomial.{◌*ᵖ◌, zero_polynomial};
ghost use Rattle.sg_num.specs.Stopped.{KeepsWideStep};
ghost use Rattle.sg_poly.specs.Polynomials.{polynomial};
ghost use Rattle.sg_ratfun.specs.Fractions.{quotient_of, cross_sum, cross_difference};
ghost use Rattle.sg_ratfun.specs.Reduced.{IsReduced};

use crate::split::{lead_inverse, split};
use sg_num::{Field, Stop};
use sg_poly::Poly;
use std::alloc::Global;

// A numerator and a denominator.
#[derive(Drop)]
pub(crate) struct Parts<F: Field> {
    pub(crate) num: Poly<F>,
    pub(crate) den: Poly<F>,
}

// p / q in lowest terms, with a monic denominator.
pub(crate) fn lowest<F: Field>(alloc: Global, p: &Poly<F>, q: &Poly<F>) -> Result<Parts<F>, Stop>
    requires { ¬ (polynomial F.val q.now ≡ zero_polynomial) }
    ensures value { IfOk result (λ r. quotient_of F.val r.num r.den ≡ quotient_of F.val p.now q.now) }
    ensures reduced { IfOk result (λ r. IsReduced (map F.val r.num) (map F.val r.den)) }
    ensures wide { IfErr result KeepsWideStep }
{
    let s = split(alloc, p, q)?;
    let c = lead_inverse(alloc, &s.right)?;
    let num = s.left.scale(alloc, &c)?;
    let den = s.right.monic(alloc)?;
    Ok(Parts { num, den })
}

// (a / b) (c / e), without what is common across.
pub(crate) fn product<F: Field>(
    alloc: Global,
    a: &Poly<F>,
    b: &Poly<F>,
    c: &Poly<F>,
    e: &Poly<F>,
) -> Result<Parts<F>, Stop>
    requires left { IsReduced (map F.val a.now) (map F.val b.now) }
    requires right { IsReduced (map F.val c.now) (map F.val e.now) }
    ensures value { IfOk result (λ r. quotient_of F.val r.num r.den ≡ quotient_of F.val a.now b.now *ᵛ quotient_of F.val c.now e.now) }
    ensures reduced { IfOk result (λ r. IsReduced (map F.val r.num) (map F.val r.den)) }
    ensures wide { IfErr result KeepsWideStep }
{
    let x = split(alloc, a, e)?;
    let y = split(alloc, c, b)?;
    let num = x.left.mul(alloc, &y.left)?;
    let den = y.right.mul(alloc, &x.right)?;
    Ok(Parts { num, den })
}

// a / b + c / e over the least common denominator.
pub(crate) fn sum<F: Field>(
    alloc: Global,
    a: &Poly<F>,
    b: &Poly<F>,
    c: &Poly<F>,
    e: &Poly<F>,
) -> Result<Parts<F>, Stop>
    requires left { IsReduced (map F.val a.now) (map F.val b.now) }
    requires right { IsReduced (map F.val c.now) (map F.val e.now) }
    ensures value { IfOk result (λ r. quotient_of F.val r.num r.den ≡ quotient_of F.val a.now b.now +ᵛ quotient_of F.val c.now e.now) }
    ensures reduced { IfOk result (λ r. IsReduced (map F.val r.num) (map F.val r.den)) }
    ensures wide { IfErr result KeepsWideStep }
{
    let s = split(alloc, b, e)?;
    let n = crossed_sum(alloc, a, &s.left, c, &s.right)?;
    let t = split(alloc, &n, &s.common)?;
    let den = product_of_three(alloc, &s.left, &s.right, &t.right)?;
    Ok(Parts { num: t.left, den })
}

// a / b - c / e over the least common denominator.
pub(crate) fn difference<F: Field>(
    alloc: Global,
    a: &Poly<F>,
    b: &Poly<F>,
    c: &Poly<F>,
    e: &Poly<F>,
) -> Result<Parts<F>, Stop>
    requires left { IsReduced (map F.val a.now) (map F.val b.now) }
    requires right { IsReduced (map F.val c.now) (map F.val e.now) }
    ensures value { IfOk result (λ r. quotient_of F.val r.num r.den ≡ quotient_of F.val a.now b.now -ᵛ quotient_of F.val c.now e.now) }
    ensures reduced { IfOk result (λ r. IsReduced (map F.val r.num) (map F.val r.den)) }
    ensures wide { IfErr result KeepsWideStep }
{
    let s = split(alloc, b, e)?;
    let n = crossed_difference(alloc, a, &s.left, c, &s.right)?;
    let t = split(alloc, &n, &s.common)?;
    let den = product_of_three(alloc, &s.left, &s.right, &t.right)?;
    Ok(Parts { num: t.left, den })
}

// (a / b) / (c / e), for a c that isn't 0.
pub(crate) fn quotient<F: Field>(
    alloc: Global,
    a: &Poly<F>,
    b: &Poly<F>,
    c: &Poly<F>,
    e: &Poly<F>,
) -> Result<Parts<F>, Stop>
    requires left { IsReduced (map F.val a.now) (map F.val b.now) }
    requires right { IsReduced (map F.val c.now) (map F.val e.now) }
    requires some { ¬ (polynomial F.val c.now ≡ zero_polynomial) }
    ensures value { IfOk result (λ r. quotient_of F.val r.num r.den ≡ quotient_of F.val a.now b.now /ᵛ quotient_of F.val c.now e.now) }
    ensures reduced { IfOk result (λ r. IsReduced (map F.val r.num) (map F.val r.den)) }
    ensures wide { IfErr result KeepsWideStep }
{
    let i = inverted(alloc, c, e)?;
    let r = product(alloc, a, b, &i.num, &i.den)?;
    Ok(r)
}

// a e + c b
fn crossed_sum<F: Field>(
    alloc: Global,
    a: &Poly<F>,
    b: &Poly<F>,
    c: &Poly<F>,
    e: &Poly<F>,
) -> Result<Poly<F>, Stop>
    ensures value { IfOk result (λ n. polynomial F.val n ≡ cross_sum F.val a.now b.now c.now e.now) }
    ensures wide { IfErr result KeepsWideStep }
{
    let x = a.mul(alloc, e)?;
    let y = c.mul(alloc, b)?;
    let n = x.add(alloc, &y)?;
    Ok(n)
}

// The product of the three polynomials.
fn product_of_three<F: Field>(
    alloc: Global,
    a: &Poly<F>,
    b: &Poly<F>,
    c: &Poly<F>,
) -> Result<Poly<F>, Stop>
    ensures value { IfOk result (λ m. polynomial F.val m ≡ (polynomial F.val a.now *ᵖ polynomial F.val b.now) *ᵖ polynomial F.val c.now) }
    ensures wide { IfErr result KeepsWideStep }
{
    let x = a.mul(alloc, b)?;
    let m = x.mul(alloc, c)?;
    Ok(m)
}

// a e - c b
fn crossed_difference<F: Field>(
    alloc: Global,
    a: &Poly<F>,
    b: &Poly<F>,
    c: &Poly<F>,
    e: &Poly<F>,
) -> Result<Poly<F>, Stop>
    ensures value { IfOk result (λ n. polynomial F.val n ≡ cross_difference F.val a.now b.now c.now e.now) }
    ensures wide { IfErr result KeepsWideStep }
{
    let x = a.mul(alloc, e)?;
    let y = c.mul(alloc, b)?;
    let n = x.sub(alloc, &y)?;
    Ok(n)
}

// e / c, with a monic denominator, for a c that isn't 0.
fn inverted<F: Field>(alloc: Global, c: &Poly<F>, e: &Poly<F>) -> Result<Parts<F>, Stop>
    requires reduced { IsReduced (map F.val c.now) (map F.val e.now) }
    requires some { ¬ (polynomial F.val c.now ≡ zero_polynomial) }
    ensures value { IfOk result (λ r. quotient_of F.val r.num r.den *ᵛ quotient_of F.val c.now e.now ≡ one_value) }
    ensures reduced { IfOk result (λ r. IsReduced (map F.val r.num) (map F.val r.den)) }
    ensures wide { IfErr result KeepsWideStep }
{
    let k = lead_inverse(alloc, c)?;
    let num = e.scale(alloc, &k)?;
    let den = c.monic(alloc)?;
    Ok(Parts { num, den })
}
