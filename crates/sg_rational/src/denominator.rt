ghost use Rattle.std.specs.Prelude.{◌≡◌, ℕ, ◌<◌, map, length, get_or, [], IfOk, IfErr};
ghost use Rattle.sg_algebra.proofs.Polynomial.{zero_polynomial, ◌*ᵖ◌};
ghost use Rattle.sg_num.specs.Stopped.{KeepsWideStep};
ghost use Rattle.sg_poly.specs.Divisors.{◌∣ᵖ◌};
ghost use Rattle.sg_poly.specs.Polynomials.{polynomial};

use sg_num::{Field, Stop};
use sg_poly::Poly;
use sg_ratfun::RatFun;
use std::alloc::Global;

// A common multiple of the denominators, of least degree.
pub(crate) fn common_denominator<F: Field>(
    alloc: Global,
    a: &RatFun<F>,
    fs: &[RatFun<F>],
) -> Result<Poly<F>, Stop>
    ensures some { IfOk result (λ v. ¬ (polynomial F.val v ≡ zero_polynomial)) }
    ensures first { IfOk result (λ v. polynomial F.val a.now.1 ∣ᵖ polynomial F.val v) }
    ensures others { IfOk result (λ v. (i : ℕ) → i < length fs.now → polynomial F.val (get_or fs.now i ([], [])).1 ∣ᵖ polynomial F.val v) }
    ensures wide { IfErr result KeepsWideStep }
{
    let mut v = a.den(alloc)?;
    for i in 0..fs.len() {
        let q = fs[i].den(alloc)?;
        v = common_multiple(alloc, &v, &q)?;
    }
    Ok(v)
}

// A common multiple of two polynomials, of least degree.
fn common_multiple<F: Field>(alloc: Global, p: &Poly<F>, q: &Poly<F>) -> Result<Poly<F>, Stop>
    requires left { ¬ (polynomial F.val p.now ≡ zero_polynomial) }
    requires right { ¬ (polynomial F.val q.now ≡ zero_polynomial) }
    ensures some { IfOk result (λ r. ¬ (polynomial F.val r ≡ zero_polynomial)) }
    ensures left { IfOk result (λ r. polynomial F.val p.now ∣ᵖ polynomial F.val r) }
    ensures right { IfOk result (λ r. polynomial F.val q.now ∣ᵖ polynomial F.val r) }
    ensures wide { IfErr result KeepsWideStep }
{
    let common = p.gcd(alloc, q)?;
    let part = q.exact(alloc, &common)?;
    let r = p.mul(alloc, &part)?;
    Ok(r)
}

// The polynomial that a multiple of the denominator times the fraction is.
pub(crate) fn cleared<F: Field>(alloc: Global, v: &Poly<F>, f: &RatFun<F>) -> Result<Poly<F>, Stop>
    requires { polynomial F.val f.now.1 ∣ᵖ polynomial F.val v.now }
    ensures value { IfOk result (λ r. polynomial F.val r *ᵖ polynomial F.val f.now.1 ≡ polynomial F.val v.now *ᵖ polynomial F.val f.now.0) }
    ensures some { IfOk result (λ _. ¬ (polynomial F.val f.now.1 ≡ zero_polynomial)) }
    ensures wide { IfErr result KeepsWideStep }
{
    let q = f.den(alloc)?;
    let part = v.exact(alloc, &q)?;
    let p = f.num(alloc)?;
    let r = part.mul(alloc, &p)?;
    Ok(r)
}
