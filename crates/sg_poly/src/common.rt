//! Common divisors: linear factors that the field guesses are divided off, and what is left goes through Euclid's divisions.
ghost use Rattle.std.specs.Prelude.{◌≡◌, ◌≤◌, ◌<◌, length, map, All, IfOk, IfErr, IfSome, IsTrue};
ghost use Rattle.sg_algebra.proofs.Value.{zero_value};
ghost use Rattle.sg_algebra.proofs.Polynomial.{zero_polynomial};
ghost use Rattle.sg_num.specs.Stopped.{KeepsWideStep};
ghost use Rattle.sg_poly.specs.Divisors.{IsGcd, IsMonic, IsQuotient};
ghost use Rattle.sg_poly.specs.Polynomials.{polynomial, polynomial_at};
ghost use Rattle.sg_poly.specs.Splits.{AreRests, AreLess};

use crate::poly::Poly;
use sg_num::{Field, Row, Stop};
use std::alloc::Global;

impl<F: Field> Poly<F> {
    /// The monic greatest common divisor of the two, of which not both are 0: linear factors that the field can guess are
    /// divided off first, and what is left goes through Euclid's divisions.
    pub fn gcd(&self, alloc: Global, other: &Poly<F>) -> Result<Poly<F>, Stop>
        requires { ¬ ((polynomial F.val self.now ≡ zero_polynomial) × (polynomial F.val other.now ≡ zero_polynomial)) }
        ensures divisor { IfOk result (λ r. IsGcd (polynomial F.val r) (polynomial F.val self.now) (polynomial F.val other.now)) }
        ensures monic { IfOk result (λ r. IsMonic (map F.val r)) }
        ensures wide { IfErr result KeepsWideStep }
    {
        let rests = without_guessed(alloc, self, other)?;
        let rest = common_of_rests(alloc, &rests)?;
        let product = rests.common.mul(alloc, &rest)?;
        let r = product.monic(alloc)?;
        Ok(r)
    }

    /// Roots that the field can guess, each of which is one; others may be missing.
    pub fn rational_roots(&self, alloc: Global) -> Result<Row<F>, Stop>
        ensures roots { IfOk result (All (λ x. polynomial_at F.val self.now (F.val x) ≡ zero_value)) }
        ensures wide { IfErr result KeepsWideStep }
    {
        let mut roots = Row::new(alloc);
        let tried = guesses(alloc, self)?;
        for i in 0..tried.len() {
            if is_root(alloc, self, tried.get(i))? {
                roots.push(tried.get(i).copy(alloc)?)?;
            }
        }
        Ok(roots)
    }
}

// What is left of two polynomials without some factors, and the product of those that both had.
#[derive(Drop)]
struct Rests<F: Field> {
    common: Poly<F>,
    left: Poly<F>,
    right: Poly<F>,
}

// The two without the linear factors that are guessed, first of the second, then of what is left of the first. Where one of
// them has a degree below 2, Euclid's first division does as well.
fn without_guessed<F: Field>(alloc: Global, p: &Poly<F>, q: &Poly<F>) -> Result<Rests<F>, Stop>
    ensures value { IfOk result (λ r. AreRests F.val r.common r.left r.right p.now q.now) }
    ensures wide { IfErr result KeepsWideStep }
{
    let start = whole(alloc, p, q)?;
    let rests = without_roots_of_right(alloc, start)?;
    let r = without_roots_of_left(alloc, rests)?;
    Ok(r)
}

// The two as they are.
fn whole<F: Field>(alloc: Global, p: &Poly<F>, q: &Poly<F>) -> Result<Rests<F>, Stop>
    ensures value { IfOk result (λ r. AreRests F.val r.common r.left r.right p.now q.now) }
    ensures wide { IfErr result KeepsWideStep }
{
    let common = Poly::one(alloc)?;
    let left = p.copy(alloc)?;
    let right = q.copy(alloc)?;
    Ok(Rests {
        common,
        left,
        right,
    })
}

// The two without the linear factors that are guessed of the second.
fn without_roots_of_right<F: Field>(alloc: Global, rests: Rests<F>) -> Result<Rests<F>, Stop>
    ensures value { IfOk result (λ r. AreLess F.val rests.common rests.left rests.right r.common r.left r.right) }
    ensures wide { IfErr result KeepsWideStep }
{
    if !are_long(&rests) {
        return Ok(rests);
    }
    let times = rests.right.coeffs().len();
    let roots = guesses(alloc, &rests.right)?;
    let r = without_each(alloc, rests, roots.as_slice(), times)?;
    Ok(r)
}

// The two without the linear factors that are guessed of the first.
fn without_roots_of_left<F: Field>(alloc: Global, rests: Rests<F>) -> Result<Rests<F>, Stop>
    ensures value { IfOk result (λ r. AreLess F.val rests.common rests.left rests.right r.common r.left r.right) }
    ensures wide { IfErr result KeepsWideStep }
{
    if !are_long(&rests) {
        return Ok(rests);
    }
    let times = rests.left.coeffs().len();
    let roots = guesses(alloc, &rests.left)?;
    let r = without_each(alloc, rests, roots.as_slice(), times)?;
    Ok(r)
}

// Whether both have a degree above 1.
fn are_long<F: Field>(rests: &Rests<F>) -> bool {
    rests.left.coeffs().len() > 2 && rests.right.coeffs().len() > 2
}

// The field's guesses; none where a step of guessing doesn't fit.
fn guesses<F: Field>(alloc: Global, p: &Poly<F>) -> Result<Row<F>, Stop>
    ensures wide { IfErr result KeepsWideStep }
{
    match F::linear_roots(alloc, p.coeffs()) {
        Ok(roots) => Ok(roots),
        Err(Stop::Wide(_)) => Ok(Row::new(alloc)),
        Err(stop) => Err(stop),
    }
}

// The two without the linear factors of these roots, as often as they divide one of the two, up to `times` times.
fn without_each<F: Field>(
    alloc: Global,
    rests: Rests<F>,
    roots: &[F],
    times: usize,
) -> Result<Rests<F>, Stop>
    ensures value { IfOk result (λ r. AreLess F.val rests.common rests.left rests.right r.common r.left r.right) }
    ensures wide { IfErr result KeepsWideStep }
{
    let mut left = rests;
    for i in 0..roots.len() {
        left = without(alloc, left, &roots[i], times)?;
    }
    Ok(left)
}

// The two without k - root, at most `times` times.
fn without<F: Field>(
    alloc: Global,
    rests: Rests<F>,
    root: &F,
    times: usize,
) -> Result<Rests<F>, Stop>
    ensures value { IfOk result (λ r. AreLess F.val rests.common rests.left rests.right r.common r.left r.right) }
    ensures wide { IfErr result KeepsWideStep }
{
    let factor = Poly::linear(alloc, root)?;
    let mut left = rests;
    for _ in 0..times {
        match without_once(alloc, &left, &factor)? {
            None => return Ok(left),
            Some(next) => left = next,
        }
    }
    Ok(left)
}

// The two without a linear factor, once, where it divides one of them; None where it divides neither, or a division doesn't fit.
fn without_once<F: Field>(
    alloc: Global,
    rests: &Rests<F>,
    factor: &Poly<F>,
) -> Result<Option<Rests<F>>, Stop>
    requires some { ¬ (polynomial F.val factor.now ≡ zero_polynomial) }
    requires linear { length factor.now ≤ 2 }
    ensures value { IfOk result (λ o. IfSome o (λ r. AreLess F.val rests.now.common rests.now.left rests.now.right r.common r.left r.right)) }
    ensures wide { IfErr result KeepsWideStep }
{
    let Some(left) = tried(alloc, &rests.left, factor)? else {
        return Ok(None);
    };
    let Some(right) = tried(alloc, &rests.right, factor)? else {
        return Ok(None);
    };
    if left.rest.is_zero() {
        if right.rest.is_zero() {
            let common = rests.common.mul(alloc, factor)?;
            return Ok(Some(Rests {
                common,
                left: left.quotient,
                right: right.quotient,
            }));
        }
        let common = rests.common.copy(alloc)?;
        let kept = rests.right.copy(alloc)?;
        return Ok(Some(Rests {
            common,
            left: left.quotient,
            right: kept,
        }));
    }
    if right.rest.is_zero() {
        let common = rests.common.copy(alloc)?;
        let kept = rests.left.copy(alloc)?;
        return Ok(Some(Rests {
            common,
            left: kept,
            right: right.quotient,
        }));
    }
    Ok(None)
}

// A quotient and a rest.
#[derive(Drop)]
struct Divided<F: Field> {
    quotient: Poly<F>,
    rest: Poly<F>,
}

// The division by a factor; None where a step of it doesn't fit.
fn tried<F: Field>(alloc: Global, p: &Poly<F>, factor: &Poly<F>) -> Result<Option<Divided<F>>, Stop>
    requires { ¬ (polynomial F.val factor.now ≡ zero_polynomial) }
    ensures value { IfOk result (λ o. IfSome o (λ t. IsQuotient F.val p.now factor.now t.quotient t.rest)) }
    ensures smaller { IfOk result (λ o. IfSome o (λ t. length t.rest < length factor.now)) }
    ensures wide { IfErr result KeepsWideStep }
{
    match p.div_rem(alloc, factor) {
        Ok((quotient, rest)) => Ok(Some(Divided { quotient, rest })),
        Err(Stop::Wide(_)) => Ok(None),
        Err(stop) => Err(stop),
    }
}

// A greatest common divisor of what is left, of which not both are 0: the first division is by the shorter one.
fn common_of_rests<F: Field>(alloc: Global, rests: &Rests<F>) -> Result<Poly<F>, Stop>
    requires { ¬ ((polynomial F.val rests.now.left ≡ zero_polynomial) × (polynomial F.val rests.now.right ≡ zero_polynomial)) }
    ensures divisor { IfOk result (λ r. IsGcd (polynomial F.val r) (polynomial F.val rests.now.left) (polynomial F.val rests.now.right)) }
    ensures wide { IfErr result KeepsWideStep }
{
    if rests.left.coeffs().len() < rests.right.coeffs().len() {
        let turned = euclid(alloc, &rests.right, &rests.left)?;
        return Ok(turned);
    }
    let r = euclid(alloc, &rests.left, &rests.right)?;
    Ok(r)
}

// A greatest common divisor of two polynomials, of which not both are 0: by Euclid's divisions, each by a monic divisor.
fn euclid<F: Field>(alloc: Global, p: &Poly<F>, q: &Poly<F>) -> Result<Poly<F>, Stop>
    requires { ¬ ((polynomial F.val p.now ≡ zero_polynomial) × (polynomial F.val q.now ≡ zero_polynomial)) }
    ensures divisor { IfOk result (λ r. IsGcd (polynomial F.val r) (polynomial F.val p.now) (polynomial F.val q.now)) }
    ensures wide { IfErr result KeepsWideStep }
{
    let mut a = p.copy(alloc)?;
    let mut b = q.copy(alloc)?;
    while !b.is_zero() {
        let divisor = b.monic(alloc)?;
        let (quotient, rest) = a.div_rem(alloc, &divisor)?;
        a = divisor;
        b = rest;
    }
    let r = a.monic(alloc)?;
    Ok(r)
}

// Whether the value at `x` is seen to be 0; where a step doesn't fit it isn't.
fn is_root<F: Field>(alloc: Global, p: &Poly<F>, x: &F) -> Result<bool, Stop>
    ensures value { IfOk result (λ r. IsTrue r → polynomial_at F.val p.now (F.val x.now) ≡ zero_value) }
    ensures wide { IfErr result KeepsWideStep }
{
    match p.eval(alloc, x) {
        Ok(v) => Ok(v.is_zero()),
        Err(Stop::Wide(_)) => Ok(false),
        Err(stop) => Err(stop),
    }
}
