ghost use Rattle.std.specs.Prelude.{◌≡◌, ℕ, ℤ, suc, pos, neg_ℤ, ◌<ℤ◌, ◌≤ℤ◌, ◌-◌, ◌<◌, ◌≤◌, map, Contains, IfOk, IfErr};
ghost use Rattle.sg_algebra.proofs.Divides.{iter};
ghost use Rattle.sg_algebra.proofs.Polynomial.{PolynomialR, PolynomialD, poly, zero_polynomial};
ghost use Rattle.sg_algebra.proofs.Rational.{whole_value};
ghost use Rattle.sg_algebra.proofs.Shift.{moved};
ghost use Rattle.sg_algebra.proofs.ValueField.{ValueR};
ghost use Rattle.sg_num.specs.Stopped.{KeepsWideStep};
ghost use Rattle.sg_poly.specs.Divisors.{IsMonic, IsGcd};
ghost use Rattle.sg_poly.specs.Polynomials.{polynomial};
ghost use Rattle.sg_first_order_theory.proofs.Next.{next, nextH};
ghost use Rattle.sg_first_order_theory.proofs.Reduction.{images};
ghost use Rattle.sg_rational.specs.Reductions.{Apart, IsReduction, Advances};

use sg_num::{Field, Stop};
use sg_poly::Poly;
use sg_spread::spread;
use std::alloc::{AllocError, Global};

// The longest product that is begun.
const LIMIT: i128 = 1_048_576;

// An equation a y(k+1) - b y = c for y = lower g, where c is `factor` times the right side of the equation for g.
#[derive(Drop)]
pub(crate) struct Equation<F: Field> {
    pub(crate) a: Poly<F>,
    pub(crate) b: Poly<F>,
    pub(crate) lower: Poly<F>,
    pub(crate) factor: Poly<F>,
}

// The equation a g(k+1) - b g = c reduced until a(k) is coprime to b(k+1), b(k+2), .. (Abramov 1995): then each solution y
// is a polynomial. The shifts at which a and b meet are taken in descending order.
pub(crate) fn reduced<F: Field>(alloc: Global, a: Poly<F>, b: Poly<F>) -> Result<Equation<F>, Stop>
    requires left { ¬ (polynomial F.val a ≡ zero_polynomial) }
    requires right { ¬ (polynomial F.val b ≡ zero_polynomial) }
    ensures value { IfOk result (λ r. IsReduction (polynomial F.val a) (polynomial F.val b)
        (polynomial F.val r.a) (polynomial F.val r.b) (polynomial F.val r.lower) (polynomial F.val r.factor)) }
    ensures apart { IfOk result (λ r. (m : ℕ) → Apart (polynomial F.val r.a) (polynomial F.val r.b) (suc m)) }
    ensures wide { IfErr result KeepsWideStep }
{
    let shifts = spread(alloc, &a, &b)?;
    let lower = Poly::one(alloc)?;
    let factor = Poly::one(alloc)?;
    let given = Equation {
        a,
        b,
        lower,
        factor,
    };
    let r = all_steps(alloc, given, shifts.as_slice())?;
    Ok(r)
}

// The equation after all shifts of a list, from the last one on.
fn all_steps<F: Field>(
    alloc: Global,
    given: Equation<F>,
    shifts: &[i128],
) -> Result<Equation<F>, Stop>
    requires left { ¬ (polynomial F.val given.a ≡ zero_polynomial) }
    ensures value { IfOk result (λ r. Advances
        (polynomial F.val given.a) (polynomial F.val given.b) (polynomial F.val given.lower) (polynomial F.val given.factor)
        (polynomial F.val r.a) (polynomial F.val r.b) (polynomial F.val r.lower) (polynomial F.val r.factor)) }
    ensures apart { IfOk result (λ r. (h : ℕ) → Contains shifts.now (pos (suc h)) → Apart (polynomial F.val r.a) (polynomial F.val r.b) (suc h)) }
    ensures wide { IfErr result KeepsWideStep }
{
    let mut r = given;
    let mut i = shifts.len();
    while i > 0 {
        i -= 1;
        let m = shifts[i];
        r = step(alloc, r, m)?;
    }
    Ok(r)
}

// One turn; nothing is done for a shift that isn't positive.
fn step<F: Field>(alloc: Global, given: Equation<F>, m: i128) -> Result<Equation<F>, Stop>
    requires left { ¬ (polynomial F.val given.a ≡ zero_polynomial) }
    ensures value { IfOk result (λ r. Advances
        (polynomial F.val given.a) (polynomial F.val given.b) (polynomial F.val given.lower) (polynomial F.val given.factor)
        (polynomial F.val r.a) (polynomial F.val r.b) (polynomial F.val r.lower) (polynomial F.val r.factor)) }
    ensures apart { IfOk result (λ r. (h : ℕ) → m ≡ pos (suc h) → Apart (polynomial F.val r.a) (polynomial F.val r.b) (suc h)) }
    ensures wide { IfErr result KeepsWideStep }
{
    if m <= 0 {
        return Ok(given);
    }
    if m > LIMIT {
        return Err(Stop::Memory(AllocError));
    }
    let r = shifted(alloc, &given, count(m))?;
    Ok(r)
}

// The equation after a positive shift.
fn shifted<F: Field>(alloc: Global, given: &Equation<F>, n: u32) -> Result<Equation<F>, Stop>
    requires some { 0 < n }
    requires left { ¬ (polynomial F.val given.now.a ≡ zero_polynomial) }
    ensures value { IfOk result (λ r. Advances
        (polynomial F.val given.now.a) (polynomial F.val given.now.b) (polynomial F.val given.now.lower) (polynomial F.val given.now.factor)
        (polynomial F.val r.a) (polynomial F.val r.b) (polynomial F.val r.lower) (polynomial F.val r.factor)) }
    ensures apart { IfOk result (λ r. Apart (polynomial F.val r.a) (polynomial F.val r.b) n) }
    ensures wide { IfErr result KeepsWideStep }
{
    let moved = ahead(alloc, &given.b, n)?;
    let e = given.a.gcd(alloc, &moved)?;
    let r = taken(alloc, given, &e, n)?;
    Ok(r)
}

// The equation after what a(k) and b(k+n) have in common is taken out of both, e = d(k+n) of a and d of b.
fn taken<F: Field>(
    alloc: Global,
    given: &Equation<F>,
    e: &Poly<F>,
    n: u32,
) -> Result<Equation<F>, Stop>
    requires some { 0 < n }
    requires common { IsGcd (polynomial F.val e.now) (polynomial F.val given.now.a)
        (iter (PolynomialR F.vars) (nextH F.vars) n (polynomial F.val given.now.b)) }
    requires monic { IsMonic (map F.val e.now) }
    ensures value { IfOk result (λ r. Advances
        (polynomial F.val given.now.a) (polynomial F.val given.now.b) (polynomial F.val given.now.lower) (polynomial F.val given.now.factor)
        (polynomial F.val r.a) (polynomial F.val r.b) (polynomial F.val r.lower) (polynomial F.val r.factor)) }
    ensures apart { IfOk result (λ r. Apart (polynomial F.val r.a) (polynomial F.val r.b) n) }
    ensures wide { IfErr result KeepsWideStep }
{
    let d = back(alloc, e, n)?;
    let a = given.a.exact(alloc, e)?;
    let b = given.b.exact(alloc, &d)?;
    let between = product(alloc, &d, n)?;
    let factor = given.factor.mul(alloc, &between)?;
    let both = d.mul(alloc, &between)?;
    let lower = given.lower.mul(alloc, &both)?;
    Ok(Equation {
        a,
        b,
        lower,
        factor,
    })
}

// The product d(k+1) d(k+2) .. d(k+n-1).
fn product<F: Field>(alloc: Global, d: &Poly<F>, n: u32) -> Result<Poly<F>, Stop>
    requires { 0 < n }
    ensures value { IfOk result (λ r. polynomial F.val r ≡ next (images (PolynomialD F.vars) (nextH F.vars) (polynomial F.val d.now) (n - 1))) }
    ensures wide { IfErr result KeepsWideStep }
{
    let mut product = Poly::one(alloc)?;
    for i in 1..n {
        let factor = ahead(alloc, d, i)?;
        product = product.mul(alloc, &factor)?;
    }
    Ok(product)
}

// The polynomial at k + n.
fn ahead<F: Field>(alloc: Global, p: &Poly<F>, n: u32) -> Result<Poly<F>, Stop>
    ensures value { IfOk result (λ r. polynomial F.val r ≡ iter (PolynomialR F.vars) (nextH F.vars) n (polynomial F.val p.now)) }
    ensures wide { IfErr result KeepsWideStep }
{
    let r = p.shift_by(alloc, n as i128)?;
    Ok(r)
}

// The polynomial at k - n.
fn back<F: Field>(alloc: Global, p: &Poly<F>, n: u32) -> Result<Poly<F>, Stop>
    ensures value { IfOk result (λ r. polynomial F.val r ≡ poly (moved (ValueR F.vars) (whole_value F.vars (neg_ℤ (pos n))) (map F.val p.now))) }
    ensures wide { IfErr result KeepsWideStep }
{
    let r = p.shift_by(alloc, -(n as i128))?;
    Ok(r)
}

// The number as an unsigned one.
fn count(m: i128) -> u32
    requires low { pos 0 <ℤ m }
    requires high { m ≤ℤ pos 1_048_576 }
    ensures value { m ≡ pos result }
    ensures some { 0 < result }
{
    m as u32
}
