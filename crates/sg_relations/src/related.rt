//! What a product is over others: free, expressed by them, or dependent on them.
ghost use Rattle.std.specs.Prelude.{◌≡◌, ◌<◌, [], ◌∷◌, ◌++◌, length, map, All, IfOk, IfErr};
ghost use Rattle.sg_algebra.proofs.Value.{zero_value};
ghost use Rattle.sg_algebra.proofs.ValueField.{ValueF};
ghost use Rattle.sg_num.specs.Stopped.{KeepsWideStep};
ghost use Rattle.sg_num.specs.Value.{number};
ghost use Rattle.sg_ratfun.specs.Fractions.{ratio};
ghost use Rattle.sg_tower_theory.specs.Powers.{powers};
ghost use Rattle.sg_relations_theory.specs.Rows.{multiple_row};
ghost use Rattle.sg_relations_theory.specs.Relations.{IsSign, OnlyZeros};
ghost use Rattle.sg_relations_theory.proofs.NullVectors.{as_value};
ghost use Rattle.sg_relations_theory.proofs.Transposed.{column_in};
ghost use Rattle.sg_relations.specs.Parts.{lead};
ghost use Rattle.sg_relations.specs.Relating.{AreLeadRows, width_of, IsTable, IsSigned, IsNamed, IsRelation};

use crate::answer::Relation;
use crate::consts::Consts;
use crate::factors::{Shifts, refined};
use crate::monic::{factors_of, joined_rows, leads_of};
use crate::primitive::shortest;
use crate::ratio::ratio_of;
use sg_matrix::null_basis;
use sg_num::{Field, Rat, Row, Stop, copies_of, whole_product};
use sg_ratfun::RatFun;
use std::alloc::Global;

/// What the product with the factor `new` is over those with the factors `alphas`, which are free over one another: whether it is
/// free, expressed by them, or a power of it is (Karr 1981; Schneider 2005). The exponents are those in the null space of the rows
/// that the factors have over a common list of polynomials, no two of which meet at a shift, and over their constants. In the
/// ratio the leading coefficients are 1. It stops at a kept step that doesn't fit or because it is out of memory.
pub fn relation<F: Consts>(
    alloc: Global,
    alphas: &Row<RatFun<F>>,
    new: &RatFun<F>,
) -> Result<Relation<F>, Stop>
    requires some { All (λ a. ¬ (ratio F.val a ≡ zero_value)) alphas.now }
    requires nonzero { ¬ (ratio F.val new.now ≡ zero_value) }
    requires free { OnlyZeros (map (ratio F.val) alphas.now) }
    ensures value { IfOk result (IsRelation F.val (map (ratio F.val) alphas.now) (ratio F.val new.now)) }
    ensures wide { IfErr result KeepsWideStep }
{
    let all = with_last(alloc, alphas, new)?;
    let leads = leads_of(alloc, &all)?;
    let rows = rows_of(alloc, &all, &leads)?;
    let table = equations(alloc, &rows)?;
    let basis = null_basis(alloc, &table, all.len())?;
    if basis.is_empty() {
        return Ok(Relation::Free);
    }
    let least = shortest(alloc, basis.get(0).as_slice())?;
    let exps = signed(alloc, &leads, least)?;
    let ratio = ratio_of(alloc, &all, exps.as_slice())?;
    let answer = answered(alloc, exps, ratio)?;
    Ok(answer)
}

// The alphas and the new one.
fn with_last<F: Field>(
    alloc: Global,
    alphas: &Row<RatFun<F>>,
    new: &RatFun<F>,
) -> Result<Row<RatFun<F>>, Stop>
    ensures value { IfOk result (λ all. map (ratio F.val) all ≡ map (ratio F.val) alphas.now ++ ratio F.val new.now ∷ []) }
    ensures wide { IfErr result KeepsWideStep }
{
    let mut all = copies_of(alloc, alphas.as_slice())?;
    let last = new.copy(alloc)?;
    all.push(last)?;
    Ok(all)
}

// For each rational function its exponents: a product of powers of them is r(k+1)/r(k), up to its sign, exactly where the sum
// of the rows, each times its exponent, is 0.
fn rows_of<F: Consts>(
    alloc: Global,
    all: &Row<RatFun<F>>,
    leads: &Row<F>,
) -> Result<Row<Row<i128>>, Stop>
    requires some { All (λ r. ¬ (ratio F.val r ≡ zero_value)) all.now }
    requires leads { map F.val leads.now ≡ map (lead F.val) all.now }
    requires leads_some { All (λ x. ¬ (F.val x ≡ zero_value)) leads.now }
    ensures value { IfOk result (AreLeadRows (map (ratio F.val) all.now) (map F.val leads.now)) }
    ensures wide { IfErr result KeepsWideStep }
{
    let factors = factors_of(alloc, all)?;
    let basis = refined(alloc, Shifts::All, all.len(), factors)?;
    let constants = F::exponents(alloc, leads)?;
    let rows = joined_rows(alloc, &basis, &constants)?;
    Ok(rows)
}

// The columns of the rows, as equations.
fn equations(alloc: Global, rows: &Row<Row<i128>>) -> Result<Row<Row<Rat>>, Stop>
    requires some { 0 < length rows.now }
    requires sized { All (λ r. length r ≡ width_of rows.now) rows.now }
    ensures value { IfOk result (IsTable rows.now) }
    ensures wide { IfErr result KeepsWideStep }
{
    let mut table = Row::new(alloc);
    let width = rows.get(0).len();
    for j in 0..width {
        let equation = column(alloc, rows, j)?;
        table.push(equation)?;
    }
    Ok(table)
}

// The items of all rows at one place.
fn column(alloc: Global, rows: &Row<Row<i128>>, j: usize) -> Result<Row<Rat>, Stop>
    requires { All (λ r. j < length r) rows.now }
    ensures value { IfOk result (λ c. map number c ≡ map as_value (column_in rows.now j)) }
    ensures wide { IfErr result KeepsWideStep }
{
    let mut row = Row::new(alloc);
    for i in 0..rows.len() {
        let n = *rows.get(i).get(j);
        row.push(Rat::whole(n))?;
    }
    Ok(row)
}

// The exponents, twice where the product of the powers of the leading coefficients is -1.
fn signed<F: Consts>(alloc: Global, leads: &Row<F>, exps: Row<i128>) -> Result<Row<i128>, Stop>
    requires some { All (λ x. ¬ (F.val x ≡ zero_value)) leads.now }
    requires sized { length exps ≡ length leads.now }
    requires sign { IsSign (powers (ValueF F.vars) (map F.val leads.now) exps) }
    ensures value { IfOk result (IsSigned (map F.val leads.now) exps) }
    ensures wide { IfErr result KeepsWideStep }
{
    if !F::is_minus_one(alloc, leads, exps.as_slice())? {
        return Ok(exps);
    }
    let twice = multiples(alloc, 2, exps.as_slice())?;
    Ok(twice)
}

// Each exponent times a number.
fn multiples(alloc: Global, t: i128, exps: &[i128]) -> Result<Row<i128>, Stop>
    ensures value { IfOk result (λ r. r ≡ multiple_row t exps.now) }
    ensures wide { IfErr result KeepsWideStep }
{
    let mut row = Row::new(alloc);
    for i in 0..exps.len() {
        let x = exps[i];
        let product = whole_product(t, x)?;
        row.push(product)?;
    }
    Ok(row)
}

// Expressed, where the last exponent is 1; else dependent.
fn answered<F: Field>(alloc: Global, exps: Row<i128>, ratio: RatFun<F>) -> Result<Relation<F>, Stop>
    requires { 0 < length exps }
    ensures value { IfOk result (IsNamed exps ratio) }
    ensures wide { IfErr result KeepsWideStep }
{
    let n = exps.len() - 1;
    let last = *exps.get(n);
    if last != 1 {
        return Ok(Relation::Dependent { exps, ratio });
    }
    let others = multiples(alloc, -1, &exps.as_slice()[..n])?;
    Ok(Relation::Expressed {
        exps: others,
        ratio,
    })
}
