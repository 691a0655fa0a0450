ghost use Rattle.std.specs.Prelude.{◌≡◌, [], ◌∷◌, length, map, IfOk, IfErr, IfSome, IfNone, ℤ};
ghost use Rattle.sg_algebra.proofs.Value.{Value, over_value, zero_value, one_value};
ghost use Rattle.sg_algebra.proofs.Embedding.{constant_value};
ghost use Rattle.sg_algebra.proofs.Rational.{whole_value};
ghost use Rattle.sg_algebra.proofs.Polynomial.{coefficient, zero_polynomial, one_polynomial};
ghost use Rattle.sg_num.specs.Stopped.{KeepsWideStep};
ghost use Rattle.sg_poly.specs.Divisors.{IsMonic};
ghost use Rattle.sg_poly.specs.Polynomials.{polynomial, polynomial_at};
ghost use Rattle.sg_ratfun.specs.Fractions.{ratio, quotient_of, quotient_at, moved_ratio};
ghost use Rattle.sg_ratfun.specs.Reduced.{IsReduced};

use crate::parts::{Parts, lowest};
use sg_num::{Field, Stop};
use sg_poly::Poly;
use std::alloc::Global;
use std::marker::Model;

/// A fraction of polynomials in lowest terms with a monic denominator. Contracts see the two lists of coefficients; its value
/// is `over_value` of their values.
#[derive(Drop)]
pub struct RatFun<F: Field> {
    num: Poly<F>,
    den: Poly<F>,
}

impl<F: Field> Model for RatFun<F> {
    ghost use Rattle.std.specs.Prelude.{List, map};
    ghost use Rattle.sg_ratfun.specs.Reduced.{IsReduced};

    ghost Value = { List F × List F };

    ghost view = { λ r. (r.num, r.den) };

    ghost invariant = { λ r. IsReduced (map F.val r.num) (map F.val r.den) };
}

impl<F: Field> RatFun<F> {
    /// The fraction `num / den`, whose denominator isn't 0, in lowest terms: without the greatest common divisor, which Euclid's
    /// divisions find, and with a monic denominator.
    pub fn new(alloc: Global, num: Poly<F>, den: Poly<F>) -> Result<RatFun<F>, Stop>
        requires { ¬ (polynomial F.val den ≡ zero_polynomial) }
        ensures value { IfOk result (λ r. ratio F.val r ≡ quotient_of F.val num den) }
        ensures reduced { IfOk result (λ r. IsReduced (map F.val r.0) (map F.val r.1)) }
        ensures wide { IfErr result KeepsWideStep }
    {
        let parts = lowest(alloc, &num, &den)?;
        Ok(RatFun::of(parts))
    }

    /// The polynomial as a fraction, over 1.
    pub fn from_poly(alloc: Global, num: Poly<F>) -> Result<RatFun<F>, Stop>
        ensures value { IfOk result (λ r. ratio F.val r ≡ over_value (map F.val num) (one_value ∷ [])) }
        ensures num { IfOk result (λ r. r.0 ≡ num) }
        ensures den { IfOk result (λ r. polynomial F.val r.1 ≡ one_polynomial) }
        ensures wide { IfErr result KeepsWideStep }
    {
        let den = Poly::one(alloc)?;
        Ok(RatFun::of(Parts { num, den }))
    }

    /// The constant as a fraction.
    pub fn from_constant(alloc: Global, c: F) -> Result<RatFun<F>, Stop>
        ensures value { IfOk result (λ r. ratio F.val r ≡ constant_value F.vars (F.val c)) }
        ensures wide { IfErr result KeepsWideStep }
    {
        let num = Poly::constant(alloc, c)?;
        let den = Poly::one(alloc)?;
        Ok(RatFun::of(Parts { num, den }))
    }

    /// The constant that it is; None exactly where it is no constant.
    pub fn constant(&self, alloc: Global) -> Result<Option<F>, Stop>
        ensures some { IfOk result (λ o. IfSome o (λ c. ratio F.val self.now ≡ constant_value F.vars (F.val c))) }
        ensures none { IfOk result (λ o. IfNone o ((c : Value F.vars) → ¬ (ratio F.val self.now ≡ constant_value F.vars c))) }
        ensures wide { IfErr result KeepsWideStep }
    {
        let p = self.upper().coeffs();
        let q = self.lower().coeffs();
        if p.len() > 1 {
            return Ok(None);
        }
        if q.len() > 1 {
            return Ok(None);
        }
        let c = first_or_zero(alloc, p)?;
        Ok(Some(c))
    }

    // The fraction of these parts.
    pub(crate) fn of(parts: Parts<F>) -> RatFun<F>
        requires { IsReduced (map F.val parts.num) (map F.val parts.den) }
        ensures { result ≡ (parts.num, parts.den) }
    {
        RatFun {
            num: parts.num,
            den: parts.den,
        }
    }

    // The numerator.
    pub(crate) fn upper(&self) -> &Poly<F>
        ensures value { result.now ≡ self.now.0 }
        ensures reduced { IsReduced (map F.val self.now.0) (map F.val self.now.1) }
    {
        &self.num
    }

    // The denominator.
    pub(crate) fn lower(&self) -> &Poly<F>
        ensures value { result.now ≡ self.now.1 }
        ensures reduced { IsReduced (map F.val self.now.0) (map F.val self.now.1) }
    {
        &self.den
    }

    /// The numerator in lowest terms.
    pub fn num(&self, alloc: Global) -> Result<Poly<F>, Stop>
        ensures value { IfOk result (λ p. polynomial F.val p ≡ polynomial F.val self.now.0) }
        ensures reduced { IsReduced (map F.val self.now.0) (map F.val self.now.1) }
        ensures wide { IfErr result KeepsWideStep }
    {
        let p = self.upper().copy(alloc)?;
        Ok(p)
    }

    /// The denominator in lowest terms, which is monic.
    pub fn den(&self, alloc: Global) -> Result<Poly<F>, Stop>
        ensures value { IfOk result (λ p. polynomial F.val p ≡ polynomial F.val self.now.1) }
        ensures monic { IfOk result (λ p. IsMonic (map F.val p)) }
        ensures reduced { IsReduced (map F.val self.now.0) (map F.val self.now.1) }
        ensures wide { IfErr result KeepsWideStep }
    {
        let p = self.lower().copy(alloc)?;
        Ok(p)
    }

    /// How many coefficients the denominator has: its degree, and one more. It takes no memory.
    pub fn den_len(&self) -> usize
        ensures value { result ≡ length self.now.1 }
        ensures reduced { IsReduced (map F.val self.now.0) (map F.val self.now.1) }
    {
        self.lower().coeffs().len()
    }

    /// The value at `x`; None exactly where the denominator is 0 there.
    pub fn value(&self, alloc: Global, x: &F) -> Result<Option<F>, Stop>
        ensures some { IfOk result (λ o. IfSome o (λ v. F.val v ≡ quotient_at F.val self.now.0 self.now.1 (F.val x.now))) }
        ensures defined { IfOk result (λ o. IfSome o (λ _. ¬ (polynomial_at F.val self.now.1 (F.val x.now) ≡ zero_value))) }
        ensures none { IfOk result (λ o. IfNone o (polynomial_at F.val self.now.1 (F.val x.now) ≡ zero_value)) }
        ensures wide { IfErr result KeepsWideStep }
    {
        let below = self.lower().eval(alloc, x)?;
        if below.is_zero() {
            return Ok(None);
        }
        let v = self.upper().eval(alloc, x)?.div(alloc, &below)?;
        Ok(Some(v))
    }

    /// The fraction at k + m.
    pub fn shift_by(&self, alloc: Global, m: i128) -> Result<RatFun<F>, Stop>
        ensures value { IfOk result (λ r. ratio F.val r ≡ moved_ratio F.val (whole_value F.vars m) self.now) }
        ensures reduced { IfOk result (λ r. IsReduced (map F.val r.0) (map F.val r.1)) }
        ensures own { IsReduced (map F.val self.now.0) (map F.val self.now.1) }
        ensures wide { IfErr result KeepsWideStep }
    {
        let num = self.upper().shift_by(alloc, m)?;
        let den = self.lower().shift_by(alloc, m)?;
        Ok(RatFun::of(Parts { num, den }))
    }
}

// The first coefficient, 0 where there is none.
fn first_or_zero<F: Field>(alloc: Global, p: &[F]) -> Result<F, Stop>
    ensures value { IfOk result (λ r. F.val r ≡ coefficient (map F.val p.now) 0) }
    ensures wide { IfErr result KeepsWideStep }
{
    if p.is_empty() {
        return F::zero(alloc);
    }
    p[0].copy(alloc)
}
