ghost use Rattle.std.specs.Prelude.{◌≡◌, ℕ, suc, ◌+◌, ◌-◌, ◌<◌, ◌≤◌, List, [], ◌∷◌, length, map, drop, reverse, IfOk, IfErr, ◌↔◌, pos, ℤ};
ghost use Rattle.sg_algebra.specs.Coefficients.{eval};
ghost use Rattle.sg_algebra.proofs.Value.{Value, ◌+ᵛ◌, ◌-ᵛ◌, ◌*ᵛ◌, ◌/ᵛ◌, zero_value, one_value, inv_value};
ghost use Rattle.sg_algebra.proofs.ValueField.{ValueR};
ghost use Rattle.sg_algebra.proofs.Rational.{whole_value};
ghost use Rattle.sg_algebra.proofs.Shift.{moved};
ghost use Rattle.sg_algebra.proofs.Polynomial.{Polynomial, poly, coefficient, ◌+ᵖ◌, ◌*ᵖ◌, zero_polynomial, constant, EndsNonzero};
ghost use Rattle.sg_num.specs.Stopped.{KeepsWideStep};
ghost use Rattle.sg_poly.specs.Divisors.{◌∣ᵖ◌, IsMonic, IsQuotient, IsOnlyDivision, IsStep};
ghost use Rattle.sg_poly.specs.Polynomials.{polynomial, polynomial_at, over_lead};

use crate::poly::Poly;
use sg_num::{Field, Rat, Row, Stop, copies_of};
use std::alloc::Global;

impl<F: Field> Poly<F> {
    /// The quotient and the rest of the division by `other`, which isn't 0; the rest has a lower degree than `other`, or is 0.
    pub fn div_rem(&self, alloc: Global, other: &Poly<F>) -> Result<(Poly<F>, Poly<F>), Stop>
        requires { ¬ (polynomial F.val other.now ≡ zero_polynomial) }
        ensures value { IfOk result (λ r. IsQuotient F.val self.now other.now r.0 r.1) }
        ensures smaller { IfOk result (λ r. length r.1 < length other.now) }
        ensures unique { IfOk result (λ r. IsOnlyDivision F.val self.now other.now r.0 r.1) }
        ensures wide { IfErr result KeepsWideStep }
    {
        let parts = divided(alloc, self.coeffs(), other.coeffs())?;
        let quotient = Poly::trimmed(parts.quotient);
        let rest = Poly::trimmed(parts.rest);
        Ok((quotient, rest))
    }

    /// The polynomial over a divisor of it, which isn't 0.
    pub fn exact(&self, alloc: Global, other: &Poly<F>) -> Result<Poly<F>, Stop>
        requires some { ¬ (polynomial F.val other.now ≡ zero_polynomial) }
        requires divides { polynomial F.val other.now ∣ᵖ polynomial F.val self.now }
        ensures value { IfOk result (λ r. polynomial F.val self.now ≡ polynomial F.val r *ᵖ polynomial F.val other.now) }
        ensures wide { IfErr result KeepsWideStep }
    {
        let _divisor = other.coeffs();
        let (quotient, _rest) = self.div_rem(alloc, other)?;
        Ok(quotient)
    }

    /// The polynomial, which isn't 0, over its last coefficient.
    pub fn monic(&self, alloc: Global) -> Result<Poly<F>, Stop>
        requires { ¬ (polynomial F.val self.now ≡ zero_polynomial) }
        ensures value { IfOk result (λ r. polynomial F.val r ≡ over_lead F.val self.now) }
        ensures monic { IfOk result (λ r. IsMonic (map F.val r)) }
        ensures divisors { IfOk result (λ r. (c : Polynomial F.vars) → (c ∣ᵖ polynomial F.val r) ↔ (c ∣ᵖ polynomial F.val self.now)) }
        ensures some { IfOk result (λ r. ¬ (polynomial F.val r ≡ zero_polynomial)) }
        ensures shorter { IfOk result (λ r. length r ≤ length self.now) }
        ensures wide { IfErr result KeepsWideStep }
    {
        let r = over_last(alloc, self)?;
        Ok(r)
    }

    /// The polynomial at k + m, by Horner's rule.
    pub fn shift_by(&self, alloc: Global, m: i128) -> Result<Poly<F>, Stop>
        ensures value { IfOk result (λ r. polynomial F.val r ≡ poly (moved (ValueR F.vars) (whole_value F.vars m) (map F.val self.now))) }
        ensures at { IfOk result (λ r. (x : Value F.vars) → polynomial_at F.val r x ≡ polynomial_at F.val self.now (x +ᵛ whole_value F.vars m)) }
        ensures wide { IfErr result KeepsWideStep }
    {
        let p = self.coeffs();
        let by = F::from_rat(alloc, Rat::whole(m))?;
        let mut row = Row::new(alloc);
        let mut i = p.len();
        while i > 0 {
            i -= 1;
            row = raised(alloc, &p[i], &by, row.as_slice())?;
        }
        Ok(Poly::trimmed(row))
    }
}

// The division of rows.
fn divided<F: Field>(alloc: Global, p: &[F], w: &[F]) -> Result<Parts<F>, Stop>
    requires ends { EndsNonzero (map F.val w.now) }
    requires some { 0 < length w.now }
    ensures value { IfOk result (λ r. IsQuotient F.val p.now w.now r.quotient r.rest) }
    ensures size { IfOk result (λ r. length r.rest < length w.now) }
    ensures wide { IfErr result KeepsWideStep }
{
    if p.len() < w.len() {
        let rest = copies_of(alloc, p)?;
        let quotient = Row::new(alloc);
        return Ok(Parts { quotient, rest });
    }
    divided_long(alloc, p, w)
}

// A quotient and a rest.
#[derive(Drop)]
struct Parts<F: Field> {
    quotient: Row<F>,
    rest: Row<F>,
}

// The division of a row that is at least as long as the divisor: from the last coefficients on, one quotient's coefficient
// at a time.
fn divided_long<F: Field>(alloc: Global, p: &[F], w: &[F]) -> Result<Parts<F>, Stop>
    requires ends { EndsNonzero (map F.val w.now) }
    requires some { 0 < length w.now }
    requires long { length w.now ≤ length p.now }
    ensures value { IfOk result (λ r. IsQuotient F.val p.now w.now r.quotient r.rest) }
    ensures size { IfOk result (λ r. length r.rest < length w.now) }
    ensures wide { IfErr result KeepsWideStep }
{
    let degree = w.len() - 1;
    let mut quotient = Row::new(alloc);
    let mut i = p.len() - degree;
    let mut rest = copies_of(alloc, &p[i..])?;
    while i > 0 {
        i -= 1;
        let a = &p[i];
        let t = behind(a, rest.as_slice(), degree).div(alloc, &w[degree])?;
        rest = reduced(alloc, a, rest.as_slice(), &t, w)?;
        quotient.push(t)?;
    }
    quotient.reverse();
    Ok(Parts { quotient, rest })
}

// `a` and then `rest`, less `t` times `w`, below the last coefficient of `w`.
fn reduced<F: Field>(alloc: Global, a: &F, rest: &[F], t: &F, w: &[F]) -> Result<Row<F>, Stop>
    requires { length w.now ≡ suc (length rest.now) }
    ensures size { IfOk result (λ r. length r ≡ length rest.now) }
    ensures value { IfOk result (IsStep F.val a.now rest.now t.now w.now) }
    ensures wide { IfErr result KeepsWideStep }
{
    let mut row = Row::new(alloc);
    for i in 0..rest.len() {
        let c = behind(a, rest, i).sub(alloc, &t.mul(alloc, &w[i])?)?;
        row.push(c)?;
    }
    Ok(row)
}

// The coefficient at `k` of `a` and then `rest`.
fn behind<'a, F: Field>(a: &'a F, rest: &'a [F], k: usize) -> &'a F
    requires { k ≤ length rest.now }
    ensures { F.val result.now ≡ coefficient (F.val a.now ∷ map F.val rest.now) k }
{
    if k == 0 { a } else { &rest[k - 1] }
}

// The polynomial over its last coefficient.
fn over_last<F: Field>(alloc: Global, p: &Poly<F>) -> Result<Poly<F>, Stop>
    requires { ¬ (polynomial F.val p.now ≡ zero_polynomial) }
    ensures value { IfOk result (λ r. polynomial F.val r ≡ over_lead F.val p.now) }
    ensures shorter { IfOk result (λ r. length r ≤ length p.now) }
    ensures last { IfOk result (λ _. ¬ (coefficient (map F.val p.now) (length p.now - 1) ≡ zero_value)) }
    ensures wide { IfErr result KeepsWideStep }
{
    let list = p.coeffs();
    let lead = &list[list.len() - 1];
    let c = F::one(alloc)?.div(alloc, lead)?;
    let r = p.scale(alloc, &c)?;
    Ok(r)
}

// The row a + (k + m) r.
fn raised<F: Field>(alloc: Global, a: &F, m: &F, r: &[F]) -> Result<Row<F>, Stop>
    ensures value { IfOk result (λ s. polynomial F.val s ≡ constant (F.val a.now) +ᵖ poly (F.val m.now ∷ one_value ∷ []) *ᵖ polynomial F.val r.now) }
    ensures wide { IfErr result KeepsWideStep }
{
    let mut row = Row::new(alloc);
    for i in 0..r.len() {
        row.push(raised_at(alloc, a, m, r, i)?)?;
    }
    row.push(behind(a, r, r.len()).copy(alloc)?)?;
    Ok(row)
}

// A coefficient of a + (k + m) r.
fn raised_at<F: Field>(alloc: Global, a: &F, m: &F, r: &[F], i: usize) -> Result<F, Stop>
    requires { i < length r.now }
    ensures value { IfOk result (λ x. F.val x ≡ coefficient (F.val a.now ∷ map F.val r.now) i +ᵛ F.val m.now *ᵛ coefficient (map F.val r.now) i) }
    ensures wide { IfErr result KeepsWideStep }
{
    let x = behind(a, r, i).add(alloc, &m.mul(alloc, &r[i])?)?;
    Ok(x)
}
