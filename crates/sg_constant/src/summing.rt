ghost use Rattle.std.specs.Prelude.{◌≡◌, ℕ, suc, pos, ◌-◌, ◌<◌, length, map, IfOk, IfErr};
ghost use Rattle.sg_algebra.proofs.Ring.{nat};
ghost use Rattle.sg_algebra.proofs.Value.{zero_value};
ghost use Rattle.sg_algebra.proofs.ValueField.{ValueR};
ghost use Rattle.sg_algebra.proofs.Polynomial.{coefficient, constant, EndsNonzero, ◌-ᵖ◌, ◌*ᵖ◌};
ghost use Rattle.sg_num.specs.Stopped.{KeepsWideStep};
ghost use Rattle.sg_poly.specs.Polynomials.{polynomial};
ghost use Rattle.sg_first_order_theory.proofs.Next.{next};
ghost use Rattle.sg_reduction_theory.proofs.Leading.{IsTerm, IsLeading};

use crate::polynomials::nothing;
use sg_num::{Field, Rat, Stop};
use sg_poly::Poly;
use std::alloc::Global;

// A polynomial y with a y(k+1) - y = p, from its first term on.
pub(crate) fn summed<F: Field>(alloc: Global, a: &F, p: &Poly<F>) -> Result<Poly<F>, Stop>
    ensures value { IfOk result (λ y. constant (F.val a.now) *ᵖ next (polynomial F.val y) -ᵖ polynomial F.val y ≡ polynomial F.val p.now) }
    ensures wide { IfErr result KeepsWideStep }
{
    let one = F::one(alloc)?;
    let b = a.sub(alloc, &one)?;
    let mut y = nothing(alloc)?;
    let mut rest = p.copy(alloc)?;
    'terms: while rest.coeffs().len() > 0 {
        let term = first_term(alloc, &b, &rest)?;
        y = y.add(alloc, &term)?;
        rest = without(alloc, a, &rest, &term)?;
    }
    Ok(y)
}

// The first term of a polynomial y with a y(k+1) - y = p, where p isn't 0; b is a - 1.
fn first_term<F: Field>(alloc: Global, b: &F, p: &Poly<F>) -> Result<Poly<F>, Stop>
    requires { 0 < length p.now }
    ensures value { IfOk result (λ t. IsLeading (length p.now - 1) (F.val b.now) (coefficient (map F.val p.now) (length p.now - 1)) (map F.val t)) }
    ensures ends { IfOk result (λ _. EndsNonzero (map F.val p.now)) }
    ensures wide { IfErr result KeepsWideStep }
{
    let list = p.coeffs();
    let n = list.len() - 1;
    let t = leading(alloc, b, n, &list[n])?;
    Ok(t)
}

// The first term of a polynomial y with a y(k+1) - y = p, where p has the degree n and the leading coefficient c; b is a - 1.
fn leading<F: Field>(alloc: Global, b: &F, n: usize, c: &F) -> Result<Poly<F>, Stop>
    requires { n < usize.MAX }
    ensures value { IfOk result (λ t. IsLeading n (F.val b.now) (F.val c.now) (map F.val t)) }
    ensures wide { IfErr result KeepsWideStep }
{
    if b.is_zero() {
        let t = summed_power(alloc, n, c)?;
        return Ok(t);
    }
    let t = divided_power(alloc, b, n, c)?;
    Ok(t)
}

// c over the number after n, times k^(n+1).
fn summed_power<F: Field>(alloc: Global, n: usize, c: &F) -> Result<Poly<F>, Stop>
    requires { n < usize.MAX }
    ensures value { IfOk result (λ t. IsTerm (suc n) (nat (ValueR F.vars) (suc n)) (F.val c.now) (map F.val t)) }
    ensures wide { IfErr result KeepsWideStep }
{
    let m: F = number_after(alloc, n)?;
    let q = c.div(alloc, &m)?;
    let t = monomial(alloc, n + 1, q)?;
    Ok(t)
}

// The number after n, as an element.
fn number_after<F: Field>(alloc: Global, n: usize) -> Result<F, Stop>
    ensures value { IfOk result (λ r. F.val r ≡ nat (ValueR F.vars) (suc n)) }
    ensures wide { IfErr result KeepsWideStep }
{
    let r = F::from_rat(alloc, Rat::whole(after(n)))?;
    Ok(r)
}

// The number after n.
fn after(n: usize) -> i128
    ensures { result ≡ pos (suc n) }
{
    n as i128 + 1
}

// c k^n.
fn monomial<F: Field>(alloc: Global, n: usize, c: F) -> Result<Poly<F>, Stop>
    ensures top { IfOk result (λ r. coefficient (map F.val r) n ≡ F.val c) }
    ensures past { IfOk result (λ r. (i : ℕ) → n < i → coefficient (map F.val r) i ≡ zero_value) }
    ensures wide { IfErr result KeepsWideStep }
{
    let p = Poly::monomial(alloc, c, n)?;
    Ok(p)
}

// c over b, times k^n.
fn divided_power<F: Field>(alloc: Global, b: &F, n: usize, c: &F) -> Result<Poly<F>, Stop>
    requires { ¬ (F.val b.now ≡ zero_value) }
    ensures value { IfOk result (λ t. IsTerm n (F.val b.now) (F.val c.now) (map F.val t)) }
    ensures wide { IfErr result KeepsWideStep }
{
    let q = c.div(alloc, b)?;
    let t = monomial(alloc, n, q)?;
    Ok(t)
}

// p - (a y(k+1) - y).
fn without<F: Field>(alloc: Global, a: &F, p: &Poly<F>, y: &Poly<F>) -> Result<Poly<F>, Stop>
    ensures value { IfOk result (λ r. polynomial F.val r ≡ polynomial F.val p.now
        -ᵖ (constant (F.val a.now) *ᵖ next (polynomial F.val y.now) -ᵖ polynomial F.val y.now)) }
    ensures wide { IfErr result KeepsWideStep }
{
    let later = y.shift_by(alloc, 1)?;
    let image = later.scale(alloc, a)?;
    let difference = image.sub(alloc, y)?;
    let r = p.sub(alloc, &difference)?;
    Ok(r)
}
