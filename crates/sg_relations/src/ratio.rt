//! The rational function r whose r(k+1)/r(k) is a product of powers.
ghost use Rattle.std.specs.Prelude.{◌≡◌, ℕ, suc, ◌<◌, length, map, ℤ, pos, ◌*ℤ◌, All, IfOk, IfErr};
ghost use Rattle.sg_algebra.proofs.Ring.{pow};
ghost use Rattle.sg_algebra.proofs.Value.{◌*ᵛ◌, inv_value, zero_value, one_value};
ghost use Rattle.sg_algebra.proofs.ValueField.{ValueF};
ghost use Rattle.sg_algebra.proofs.Embedding.{constant_value};
ghost use Rattle.sg_algebra.proofs.Polynomial.{PolynomialR, ◌*ᵖ◌, zero_polynomial};
ghost use Rattle.sg_num.specs.Stopped.{KeepsWideStep};
ghost use Rattle.sg_poly.specs.Polynomials.{polynomial};
ghost use Rattle.sg_first_order_theory.proofs.ValueFractions.{whole};
ghost use Rattle.sg_ratfun.specs.Fractions.{ratio};
ghost use Rattle.sg_tower_theory.specs.Powers.{powers};
ghost use Rattle.sg_relations_theory.specs.Relations.{IsRatio, Holds};
ghost use Rattle.sg_relations_theory.proofs.NullVectors.{dot, number_at};
ghost use Rattle.sg_relations_theory.proofs.Generators.{up_part};
ghost use Rattle.sg_relations.specs.Factors.{HasWidth, IsFactor, product_at};
ghost use Rattle.sg_relations.specs.Parts.{lead};
ghost use Rattle.sg_relations.specs.Relating.{IsMonicFraction};
ghost use Rattle.sg_relations.specs.Combined.{AreCombined, up_value};

use crate::factors::{Factor, Shifts, refined};
use crate::monic::factors_of;
use sg_num::{Field, Row, Stop, whole_product, whole_sum};
use sg_poly::Poly;
use sg_ratfun::RatFun;
use sg_rational::solve_first;
use std::alloc::Global;

/// The rational function r, with leading coefficients 1, for which r(k+1)/r(k) is the product of the powers of these rational
/// functions: there is one, and the product of the powers of their leading coefficients is 1. It is solved for, as a first-order
/// equation without right sides.
pub(crate) fn ratio_of<F: Field>(
    alloc: Global,
    all: &Row<RatFun<F>>,
    exps: &[i128],
) -> Result<RatFun<F>, Stop>
    requires some { All (λ r. ¬ (ratio F.val r ≡ zero_value)) all.now }
    requires sized { length exps.now ≡ length all.now }
    requires one { powers (ValueF F.vars) (map (lead F.val) all.now) exps.now ≡ one_value }
    requires holds { Holds (map (ratio F.val) all.now) exps.now }
    ensures value { IfOk result (λ r. IsRatio (powers (ValueF (suc F.vars)) (map (ratio F.val) all.now) exps.now) (ratio F.val r)) }
    ensures monic { IfOk result (IsMonicFraction F.val) }
    ensures wide { IfErr result KeepsWideStep }
{
    let factor = inverse_product(alloc, all, exps)?;
    let none = Row::new(alloc);
    let mut solutions = solve_first(alloc, &factor, &none)?;
    let found = solutions.remove(0);
    let r = over_lead(alloc, &found.value)?;
    Ok(r)
}

// The rational function over its leading coefficient.
fn over_lead<F: Field>(alloc: Global, r: &RatFun<F>) -> Result<RatFun<F>, Stop>
    requires { ¬ (ratio F.val r.now ≡ zero_value) }
    ensures value { IfOk result (λ q. ratio F.val q ≡ constant_value F.vars (inv_value (lead F.val r.now)) *ᵛ ratio F.val r.now) }
    ensures monic { IfOk result (IsMonicFraction F.val) }
    ensures wide { IfErr result KeepsWideStep }
{
    let num = r.num(alloc)?;
    let _ends = num.coeffs();
    let upper = num.monic(alloc)?;
    let lower = r.den(alloc)?;
    let q = RatFun::new(alloc, upper, lower)?;
    Ok(q)
}

// One over the product of the powers, where that of the leading coefficients is 1: what is common is taken out before the powers
// are multiplied.
fn inverse_product<F: Field>(
    alloc: Global,
    all: &Row<RatFun<F>>,
    exps: &[i128],
) -> Result<RatFun<F>, Stop>
    requires some { All (λ r. ¬ (ratio F.val r ≡ zero_value)) all.now }
    requires sized { length exps.now ≡ length all.now }
    requires one { powers (ValueF F.vars) (map (lead F.val) all.now) exps.now ≡ one_value }
    ensures value { IfOk result (λ q. ratio F.val q *ᵛ powers (ValueF (suc F.vars)) (map (ratio F.val) all.now) exps.now ≡ one_value) }
    ensures wide { IfErr result KeepsWideStep }
{
    let factors = factors_of(alloc, all)?;
    let row = combined(alloc, &factors, exps)?;
    let basis = refined(alloc, Shifts::Zero, 1, row)?;
    let num = product(alloc, &basis, -1)?;
    let den = product(alloc, &basis, 1)?;
    let q = RatFun::new(alloc, num, den)?;
    Ok(q)
}

// The factors with one exponent each: the sum of their exponents in the elements, each times that of the element.
fn combined<F: Field>(
    alloc: Global,
    factors: &Row<Factor<F>>,
    exps: &[i128],
) -> Result<Row<Factor<F>>, Stop>
    requires monic { All (IsFactor F.val) factors.now }
    requires width { All (HasWidth (length exps.now)) factors.now }
    ensures value { IfOk result (AreCombined F.val factors.now exps.now) }
    ensures wide { IfErr result KeepsWideStep }
{
    let mut row = Row::new(alloc);
    for i in 0..factors.len() {
        let factor = factors.get(i);
        let base = factor.base.copy(alloc)?;
        let total = total_of(factor.exps.as_slice(), exps)?;
        let mut own = Row::new(alloc);
        own.push(total)?;
        row.push(Factor { base, exps: own })?;
    }
    Ok(row)
}

// The sum of the products of the items.
fn total_of(a: &[i128], b: &[i128]) -> Result<i128, Stop>
    requires { length a.now ≡ length b.now }
    ensures value { IfOk result (λ t. t ≡ dot a.now (number_at b.now)) }
    ensures wide { IfErr result KeepsWideStep }
{
    let mut total = 0;
    for i in 0..a.len() {
        let x = a[i];
        let y = b[i];
        let more = whole_product(x, y)?;
        let sum = whole_sum(total, more)?;
        total = sum;
    }
    Ok(total)
}

// The product of the factors to their exponents times `sign`, where these are positive.
fn product<F: Field>(alloc: Global, factors: &Row<Factor<F>>, sign: i128) -> Result<Poly<F>, Stop>
    requires { All (HasWidth 1) factors.now }
    ensures value { IfOk result (λ p. polynomial F.val p ≡ up_value F.val sign factors.now) }
    ensures wide { IfErr result KeepsWideStep }
{
    let mut product = Poly::one(alloc)?;
    for i in 0..factors.len() {
        let factor = factors.get(i);
        let exponent = *factor.exps.get(0);
        let e = whole_product(sign, exponent)?;
        product = multiplied(alloc, product, &factor.base, e)?;
    }
    Ok(product)
}

// The polynomial times a power of another one, where the exponent is positive.
fn multiplied<F: Field>(alloc: Global, p: Poly<F>, base: &Poly<F>, e: i128) -> Result<Poly<F>, Stop>
    ensures value { IfOk result (λ r. polynomial F.val r ≡ pow (PolynomialR F.vars) (polynomial F.val base.now) (up_part e) *ᵖ polynomial F.val p) }
    ensures wide { IfErr result KeepsWideStep }
{
    let mut product = p;
    let mut left = positive_part(e);
    while left > 0 {
        product = product.mul(alloc, base)?;
        left -= 1;
    }
    Ok(product)
}

// The number, where it is positive; else 0.
fn positive_part(e: i128) -> u128
    ensures value { result ≡ up_part e }
{
    if e < 0 {
        return 0;
    }
    e.unsigned_abs()
}
