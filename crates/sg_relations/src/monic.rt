//! Rational functions as constants times products of powers of monic polynomials.
ghost use Rattle.std.specs.Prelude.{◌≡◌, ℕ, suc, ◌<◌, length, map, All, OnOk, IfOk, IfErr};
ghost use Rattle.sg_algebra.proofs.Value.{zero_value, one_value};
ghost use Rattle.sg_algebra.proofs.ValueField.{ValueF};
ghost use Rattle.sg_algebra.proofs.Embedding.{constant_value};
ghost use Rattle.sg_num.specs.Stopped.{KeepsWideStep};
ghost use Rattle.sg_poly.specs.Divisors.{IsMonic};
ghost use Rattle.sg_poly.specs.Polynomials.{polynomial};
ghost use Rattle.sg_first_order_theory.proofs.ValueFractions.{whole};
ghost use Rattle.sg_ratfun.specs.Fractions.{ratio};
ghost use Rattle.sg_tower_theory.specs.Powers.{power};
ghost use Rattle.sg_relations.specs.Factors.{HasWidth};
ghost use Rattle.sg_relations.specs.Parts.{lead, IsLead, IsGrown, AreFactors, row_at, joined_from};

use crate::factors::Factor;
use crate::numbers::unit;
use sg_num::{Field, Row, Stop};
use sg_poly::Poly;
use sg_ratfun::RatFun;
use std::alloc::Global;

/// The leading coefficients of the numerators of rational functions, none of which is 0; the denominators are monic.
pub(crate) fn leads_of<F: Field>(alloc: Global, list: &Row<RatFun<F>>) -> Result<Row<F>, Stop>
    requires { All (λ r. ¬ (ratio F.val r ≡ zero_value)) list.now }
    ensures value { IfOk result (λ ls. map F.val ls ≡ map (lead F.val) list.now) }
    ensures leads { IfOk result (λ _. All (λ r. IsLead (lead F.val r) (ratio F.val r)) list.now) }
    ensures wide { IfErr result KeepsWideStep }
{
    let mut leads = Row::new(alloc);
    for i in 0..list.len() {
        let lead = lead_of(alloc, list.get(i))?;
        leads.push(lead)?;
    }
    Ok(leads)
}

// The leading coefficient of the numerator.
fn lead_of<F: Field>(alloc: Global, r: &RatFun<F>) -> Result<F, Stop>
    requires { ¬ (ratio F.val r.now ≡ zero_value) }
    ensures value { IfOk result (λ c. F.val c ≡ lead F.val r.now) }
    ensures lead { IfOk result (λ _. IsLead (lead F.val r.now) (ratio F.val r.now)) }
    ensures wide { IfErr result KeepsWideStep }
{
    let num = r.num(alloc)?;
    let list = num.coeffs();
    let last = list[list.len() - 1].copy(alloc)?;
    Ok(last)
}

/// Monic polynomials with their exponents in each of some rational functions, none of which is 0: each is its leading coefficient
/// times the product of these powers. Linear factors that the field guesses are split off.
pub(crate) fn factors_of<F: Field>(
    alloc: Global,
    list: &Row<RatFun<F>>,
) -> Result<Row<Factor<F>>, Stop>
    requires { All (λ r. ¬ (ratio F.val r ≡ zero_value)) list.now }
    ensures value { IfOk result (AreFactors F.val list.now) }
    ensures wide { IfErr result KeepsWideStep }
{
    let mut factors = Row::new(alloc);
    for i in 0..list.len() {
        let r = list.get(i);
        add_parts(alloc, list.len(), i, r, &mut factors)?;
    }
    Ok(factors)
}

// Adds the numerator, made monic, with the exponent 1 and the denominator with -1, at `place`.
fn add_parts<F: Field>(
    alloc: Global,
    count: usize,
    place: usize,
    r: &RatFun<F>,
    factors: &mut Row<Factor<F>>,
) -> Result<(), Stop>
    requires inside { place < count }
    requires some { ¬ (ratio F.val r.now ≡ zero_value) }
    ensures value { OnOk result (IsGrown F.val count place (constant_value F.vars (lead F.val r.now)) (ratio F.val r.now) factors.old factors.new) }
    ensures wide { IfErr result KeepsWideStep }
{
    let num = r.num(alloc)?;
    let _ends = num.coeffs();
    let upper = num.monic(alloc)?;
    let lower = r.den(alloc)?;
    add_power(alloc, count, place, upper, 1, factors)?;
    add_power(alloc, count, place, lower, -1, factors)?;
    Ok(())
}

// Adds a monic polynomial with an exponent at `place`, the linear factors that the field guesses one by one.
fn add_power<F: Field>(
    alloc: Global,
    count: usize,
    place: usize,
    p: Poly<F>,
    e: i128,
    factors: &mut Row<Factor<F>>,
) -> Result<(), Stop>
    requires inside { place < count }
    requires monic { IsMonic (map F.val p) }
    ensures value { OnOk result (IsGrown F.val count place one_value (power (ValueF (suc F.vars)) (whole (polynomial F.val p)) e) factors.old factors.new) }
    ensures wide { IfErr result KeepsWideStep }
{
    let roots = p.rational_roots(alloc)?;
    let mut rest = p;
    for i in 0..roots.len() {
        rest = add_linear(alloc, count, place, rest, roots.get(i), e, factors)?;
    }
    let exps = unit(alloc, count, place, e)?;
    factors.push(Factor { base: rest, exps })?;
    Ok(())
}

// Adds k - root as often as it divides a monic polynomial; what is left of that.
fn add_linear<F: Field>(
    alloc: Global,
    count: usize,
    place: usize,
    p: Poly<F>,
    root: &F,
    e: i128,
    factors: &mut Row<Factor<F>>,
) -> Result<Poly<F>, Stop>
    requires inside { place < count }
    requires monic { IsMonic (map F.val p) }
    ensures monic { IfOk result (λ q. IsMonic (map F.val q)) }
    ensures value { IfOk result (λ q. IsGrown F.val count place (power (ValueF (suc F.vars)) (whole (polynomial F.val q)) e)
        (power (ValueF (suc F.vars)) (whole (polynomial F.val p)) e) factors.old factors.new) }
    ensures wide { IfErr result KeepsWideStep }
{
    let turns = p.coeffs().len();
    let mut rest = p;
    'dividing: for _ in 0..turns {
        let base = Poly::linear(alloc, root)?;
        let (quotient, left) = rest.div_rem(alloc, &base)?;
        if !left.is_zero() {
            return Ok(rest);
        }
        let exps = unit(alloc, count, place, e)?;
        factors.push(Factor { base, exps })?;
        rest = quotient;
    }
    Ok(rest)
}

/// For each element its exponents at all factors, and then its other row.
pub(crate) fn joined_rows<F: Field>(
    alloc: Global,
    factors: &Row<Factor<F>>,
    others: &Row<Row<i128>>,
) -> Result<Row<Row<i128>>, Stop>
    requires { All (HasWidth (length others.now)) factors.now }
    ensures value { IfOk result (λ r. r ≡ joined_from factors.now 0 others.now) }
    ensures wide { IfErr result KeepsWideStep }
{
    let mut rows = Row::new(alloc);
    for i in 0..others.len() {
        let mut row = exponents_at(alloc, factors, others.len(), i)?;
        row.extend_from_slice(others.get(i).as_slice())?;
        rows.push(row)?;
    }
    Ok(rows)
}

// The exponents of one element at all factors.
fn exponents_at<F: Field>(
    alloc: Global,
    factors: &Row<Factor<F>>,
    count: usize,
    place: usize,
) -> Result<Row<i128>, Stop>
    requires inside { place < count }
    requires width { All (HasWidth count) factors.now }
    ensures value { IfOk result (λ r. r ≡ row_at factors.now place) }
    ensures wide { IfErr result KeepsWideStep }
{
    let mut row = Row::new(alloc);
    for c in 0..factors.len() {
        let exponent = *factors.get(c).exps.get(place);
        row.push(exponent)?;
    }
    Ok(row)
}
