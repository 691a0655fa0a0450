ghost use Rattle.std.specs.Prelude.{◌≡◌, ℕ, ◌<◌, ◌≤◌, length, map, IfOk, IfErr, IfSome, IfNone, IsOk, IsTrue, ◌↔◌};
ghost use Rattle.sg_algebra.specs.Coefficients.{poly_mul, eval};
ghost use Rattle.sg_algebra.proofs.Value.{◌+ᵛ◌, ◌-ᵛ◌, ◌*ᵛ◌, zero_value};
ghost use Rattle.sg_algebra.proofs.ValueField.{ValueR};
ghost use Rattle.sg_algebra.proofs.Polynomial.{poly, coefficient, ◌+ᵖ◌, ◌-ᵖ◌, ◌*ᵖ◌, zero_polynomial, constant, EndsNonzero};
ghost use Rattle.sg_num.specs.Stopped.{KeepsWideStep};
ghost use Rattle.sg_poly.specs.Polynomials.{polynomial, polynomial_at};

use crate::kernel::{difference_at, product_at, rows_same, size_of, sum_at};
use sg_num::{Field, Row, Stop, copies_of, horner};
use std::alloc::{AllocError, Global};
use std::marker::Model;

/// A polynomial: its coefficients from the lowest, the last not 0; the zero polynomial has none. Contracts see the list, and
/// `poly` of the values of its items is the polynomial.
#[derive(Drop)]
pub struct Poly<F: Field> {
    coeffs: Row<F>,
}

impl<F: Field> Model for Poly<F> {
    ghost use Rattle.std.specs.Prelude.{List, map};
    ghost use Rattle.sg_algebra.proofs.Polynomial.{EndsNonzero};

    ghost Value = { List F };

    ghost view = { λ p. p.coeffs };

    ghost invariant = { λ p. EndsNonzero (map F.val p.coeffs) };
}

impl<F: Field> Poly<F> {
    /// The polynomial of these coefficients; those that are 0 at the end are dropped. It takes no memory.
    pub fn from_coeffs(alloc: Global, list: Row<F>) -> Result<Poly<F>, Stop>
        ensures value { IfOk result (λ r. polynomial F.val r ≡ polynomial F.val list) }
        ensures shorter { IfOk result (λ r. length r ≤ length list) }
        ensures ends { IfOk result (λ r. EndsNonzero (map F.val r)) }
        ensures always { IsOk result }
    {
        let r = Poly::trimmed(list);
        Ok(r)
    }

    // The same, without an error.
    pub(crate) fn trimmed(list: Row<F>) -> Poly<F>
        ensures value { polynomial F.val result ≡ polynomial F.val list }
        ensures shorter { length result ≤ length list }
        ensures ends { EndsNonzero (map F.val result) }
    {
        let mut coeffs = list;
        let n = size_of(coeffs.as_slice());
        coeffs.truncate(n);
        Poly { coeffs }
    }

    /// The degree; None exactly for the zero polynomial.
    pub fn degree(&self) -> Option<usize>
        ensures none { IfNone result (polynomial F.val self.now ≡ zero_polynomial) }
        ensures some { IfSome result (λ n. ¬ (coefficient (map F.val self.now) n ≡ zero_value)) }
        ensures last { IfSome result (λ n. (k : ℕ) → n < k → coefficient (map F.val self.now) k ≡ zero_value) }
    {
        let n = self.coeffs.len();
        if n == 0 { None } else { Some(n - 1) }
    }

    /// The coefficient at `i`; None exactly past the degree.
    pub fn coeff(&self, i: usize) -> Option<&F>
        ensures some { IfSome result (λ c. F.val c.now ≡ coefficient (map F.val self.now) i) }
        ensures within { IfSome result (λ c. i < length self.now) }
        ensures none { IfNone result ((k : ℕ) → i ≤ k → coefficient (map F.val self.now) k ≡ zero_value) }
    {
        if i < self.coeffs.len() {
            Some(self.coeffs.get(i))
        } else {
            None
        }
    }

    /// The coefficients, the lowest first.
    pub fn coeffs(&self) -> &[F]
        ensures value { result.now ≡ self.now }
        ensures ends { EndsNonzero (map F.val self.now) }
    {
        self.coeffs.as_slice()
    }

    /// Whether it is the zero polynomial.
    pub fn is_zero(&self) -> bool
        ensures { IsTrue result ↔ (polynomial F.val self.now ≡ zero_polynomial) }
    {
        self.coeffs.is_empty()
    }

    /// The sum.
    pub fn add(&self, alloc: Global, other: &Poly<F>) -> Result<Poly<F>, Stop>
        ensures value { IfOk result (λ r. polynomial F.val r ≡ polynomial F.val self.now +ᵖ polynomial F.val other.now) }
        ensures wide { IfErr result KeepsWideStep }
    {
        let p = self.coeffs.as_slice();
        let q = other.coeffs.as_slice();
        let mut sum = Row::new(alloc);
        for i in 0..p.len().max(q.len()) {
            sum.push(sum_at(alloc, p, q, i)?)?;
        }
        Ok(Poly::trimmed(sum))
    }

    /// The difference.
    pub fn sub(&self, alloc: Global, other: &Poly<F>) -> Result<Poly<F>, Stop>
        ensures value { IfOk result (λ r. polynomial F.val r ≡ polynomial F.val self.now -ᵖ polynomial F.val other.now) }
        ensures wide { IfErr result KeepsWideStep }
    {
        let p = self.coeffs.as_slice();
        let q = other.coeffs.as_slice();
        let mut difference = Row::new(alloc);
        for i in 0..p.len().max(q.len()) {
            difference.push(difference_at(alloc, p, q, i)?)?;
        }
        Ok(Poly::trimmed(difference))
    }

    /// The product, one coefficient after the other.
    pub fn mul(&self, alloc: Global, other: &Poly<F>) -> Result<Poly<F>, Stop>
        ensures value { IfOk result (λ r. polynomial F.val r ≡ polynomial F.val self.now *ᵖ polynomial F.val other.now) }
        ensures wide { IfErr result KeepsWideStep }
    {
        let p = self.coeffs.as_slice();
        let q = other.coeffs.as_slice();
        let mut product = Row::new(alloc);
        let size = match p.len().checked_add(q.len()) {
            Some(size) => size,
            None => return Err(Stop::Memory(AllocError)),
        };
        for i in 0..size {
            product.push(product_at(alloc, p, q, i)?)?;
        }
        Ok(Poly::trimmed(product))
    }

    /// `c` times the polynomial.
    pub fn scale(&self, alloc: Global, c: &F) -> Result<Poly<F>, Stop>
        ensures value { IfOk result (λ r. polynomial F.val r ≡ constant (F.val c.now) *ᵖ polynomial F.val self.now) }
        ensures shorter { IfOk result (λ r. length r ≤ length self.now) }
        ensures wide { IfErr result KeepsWideStep }
    {
        let p = self.coeffs.as_slice();
        let mut scaled = Row::new(alloc);
        for i in 0..p.len() {
            scaled.push(c.mul(alloc, &p[i])?)?;
        }
        Ok(Poly::trimmed(scaled))
    }

    /// An equal polynomial.
    pub fn copy(&self, alloc: Global) -> Result<Poly<F>, Stop>
        ensures value { IfOk result (λ r. polynomial F.val r ≡ polynomial F.val self.now) }
        ensures wide { IfErr result KeepsWideStep }
    {
        let coeffs = copies_of(alloc, self.coeffs.as_slice())?;
        Ok(Poly::trimmed(coeffs))
    }

    /// Whether the two are equal: they have as many coefficients, and equal ones.
    pub fn same(&self, alloc: Global, other: &Poly<F>) -> Result<bool, Stop>
        ensures value { IfOk result (λ r. IsTrue r ↔ (polynomial F.val self.now ≡ polynomial F.val other.now)) }
        ensures wide { IfErr result KeepsWideStep }
    {
        let p = self.coeffs();
        let q = other.coeffs();
        if p.len() != q.len() {
            return Ok(false);
        }
        let r = rows_same(alloc, p, q)?;
        Ok(r)
    }

    /// The value at `x`, by Horner's rule.
    pub fn eval(&self, alloc: Global, x: &F) -> Result<F, Stop>
        ensures value { IfOk result (λ r. F.val r ≡ polynomial_at F.val self.now (F.val x.now)) }
        ensures wide { IfErr result KeepsWideStep }
    {
        let value = horner(alloc, self.coeffs.as_slice(), x)?;
        Ok(value)
    }
}
