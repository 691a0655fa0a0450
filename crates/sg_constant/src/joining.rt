ghost use Rattle.std.specs.Prelude.{◌≡◌, length, IfOk, IfErr};
ghost use Rattle.sg_algebra.proofs.Polynomial.{zero_polynomial, ◌+ᵖ◌, ◌*ᵖ◌};
ghost use Rattle.sg_num.specs.Stopped.{KeepsWideStep};
ghost use Rattle.sg_poly.specs.Polynomials.{polynomial};
ghost use Rattle.sg_reduction_theory.proofs.Steps.{Adds};
ghost use Rattle.sg_constant.specs.Shares.{polys, share, IsJoined};

use crate::shares::Share;
use sg_num::{Field, Row, Stop};
use sg_poly::Poly;
use std::alloc::Global;

// The sum of two shares, over their denominators' common multiple of least degree.
pub(crate) fn joined<F: Field>(alloc: Global, s: &Share<F>, t: &Share<F>) -> Result<Share<F>, Stop>
    requires left { ¬ (polynomial F.val s.now.lower ≡ zero_polynomial) }
    requires right { ¬ (polynomial F.val t.now.lower ≡ zero_polynomial) }
    requires same { length s.now.uppers ≡ length t.now.uppers }
    ensures joined { IfOk result (λ r. IsJoined (share F.val s.now) (share F.val t.now) (share F.val r)) }
    ensures wide { IfErr result KeepsWideStep }
{
    let g = s.lower.gcd(alloc, &t.lower)?;
    let x = t.lower.exact(alloc, &g)?;
    let y = s.lower.exact(alloc, &g)?;
    let uppers = sums(alloc, s.uppers.as_slice(), &x, t.uppers.as_slice(), &y)?;
    let lower = s.lower.mul(alloc, &x)?;
    Ok(Share { uppers, lower })
}

// The sums of the one times x and the other times y.
fn sums<F: Field>(
    alloc: Global,
    left: &[Poly<F>],
    x: &Poly<F>,
    right: &[Poly<F>],
    y: &Poly<F>,
) -> Result<Row<Poly<F>>, Stop>
    requires { length left.now ≡ length right.now }
    ensures adds { IfOk result (λ r. Adds (polynomial F.val x.now) (polynomial F.val y.now) (polys F.val r) (polys F.val left.now) (polys F.val right.now)) }
    ensures wide { IfErr result KeepsWideStep }
{
    let mut sums = Row::new(alloc);
    for i in 0..left.len() {
        sums.push(sum(alloc, &left[i], x, &right[i], y)?)?;
    }
    Ok(sums)
}

// a x + b y.
fn sum<F: Field>(
    alloc: Global,
    a: &Poly<F>,
    x: &Poly<F>,
    b: &Poly<F>,
    y: &Poly<F>,
) -> Result<Poly<F>, Stop>
    ensures value { IfOk result (λ r. polynomial F.val r ≡ polynomial F.val a.now *ᵖ polynomial F.val x.now
        +ᵖ polynomial F.val b.now *ᵖ polynomial F.val y.now) }
    ensures wide { IfErr result KeepsWideStep }
{
    let left = a.mul(alloc, x)?;
    let right = b.mul(alloc, y)?;
    let r = left.add(alloc, &right)?;
    Ok(r)
}
