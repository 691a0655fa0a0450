//! Simple polynomials, and the derivative.
ghost use Rattle.std.specs.Prelude.{◌≡◌, ◌≤◌, [], ◌∷◌, ◌++◌, replicate, length, map, IfOk, IfErr};
ghost use Rattle.sg_algebra.proofs.Ring.{nat};
ghost use Rattle.sg_algebra.proofs.Value.{◌*ᵛ◌, neg_value, zero_value, one_value};
ghost use Rattle.sg_algebra.proofs.ValueField.{ValueR};
ghost use Rattle.sg_algebra.proofs.Derivative.{derivative};
ghost use Rattle.sg_algebra.proofs.Polynomial.{poly, constant, coefficient, one_polynomial, zero_polynomial};
ghost use Rattle.sg_num.specs.Stopped.{KeepsWideStep};
ghost use Rattle.sg_poly.specs.Polynomials.{polynomial};

use crate::poly::Poly;
use sg_num::{Field, Rat, Row, Stop};
use std::alloc::Global;

impl<F: Field> Poly<F> {
    /// The polynomial 1.
    pub fn one(alloc: Global) -> Result<Poly<F>, Stop>
        ensures value { IfOk result (λ r. polynomial F.val r ≡ one_polynomial) }
        ensures wide { IfErr result KeepsWideStep }
    {
        let c = F::one(alloc)?;
        let r = Poly::constant(alloc, c)?;
        Ok(r)
    }

    /// The constant polynomial `c`.
    pub fn constant(alloc: Global, c: F) -> Result<Poly<F>, Stop>
        ensures value { IfOk result (λ r. polynomial F.val r ≡ constant (F.val c)) }
        ensures wide { IfErr result KeepsWideStep }
    {
        let mut row = Row::new(alloc);
        row.push(c)?;
        Ok(Poly::trimmed(row))
    }

    /// The polynomial k - root.
    pub fn linear(alloc: Global, root: &F) -> Result<Poly<F>, Stop>
        ensures value { IfOk result (λ r. polynomial F.val r ≡ poly (neg_value (F.val root.now) ∷ one_value ∷ [])) }
        ensures some { IfOk result (λ r. ¬ (polynomial F.val r ≡ zero_polynomial)) }
        ensures linear { IfOk result (λ r. length r ≤ 2) }
        ensures wide { IfErr result KeepsWideStep }
    {
        let opposite = F::zero(alloc)?.sub(alloc, root)?;
        let one = F::one(alloc)?;
        let mut row = Row::new(alloc);
        row.push(opposite)?;
        row.push(one)?;
        Ok(Poly::trimmed(row))
    }

    /// The polynomial c k^n.
    pub fn monomial(alloc: Global, c: F, n: usize) -> Result<Poly<F>, Stop>
        ensures value { IfOk result (λ r. polynomial F.val r ≡ poly (replicate n zero_value ++ F.val c ∷ [])) }
        ensures wide { IfErr result KeepsWideStep }
    {
        let mut row = Row::new(alloc);
        for _ in 0..n {
            row.push(F::zero(alloc)?)?;
        }
        row.push(c)?;
        Ok(Poly::trimmed(row))
    }

    /// The derivative.
    pub fn derivative(&self, alloc: Global) -> Result<Poly<F>, Stop>
        ensures value { IfOk result (λ r. polynomial F.val r ≡ poly (derivative (ValueR F.vars) (map F.val self.now))) }
        ensures wide { IfErr result KeepsWideStep }
    {
        let p = self.coeffs();
        let mut row = Row::new(alloc);
        for i in 0..p.len().saturating_sub(1) {
            row.push(times_whole(alloc, &p[i + 1], i + 1)?)?;
        }
        Ok(Poly::trimmed(row))
    }
}

// `c` times the whole number `n`.
fn times_whole<F: Field>(alloc: Global, c: &F, n: usize) -> Result<F, Stop>
    ensures value { IfOk result (λ r. F.val r ≡ nat (ValueR F.vars) n *ᵛ F.val c.now) }
    ensures wide { IfErr result KeepsWideStep }
{
    let n = F::from_rat(alloc, Rat::whole(n as i128))?;
    let r = n.mul(alloc, c)?;
    Ok(r)
}
