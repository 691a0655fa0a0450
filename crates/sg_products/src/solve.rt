ghost use Rattle.std.specs.Prelude.{◌≡◌, ◌<◌, suc, [], length, map, drop, IfOk, IfErr};
ghost use Rattle.sg_algebra.specs.Coefficients.{Each};
ghost use Rattle.sg_algebra.proofs.Place.{Pairwise};
ghost use Rattle.sg_algebra.proofs.Value.{zero_value};
ghost use Rattle.sg_num.specs.Stopped.{KeepsWideStep};
ghost use Rattle.sg_tower_theory.proofs.Formal.{IndependentFactors};
ghost use Rattle.sg_ratfun.specs.Fractions.{ratio};
ghost use Rattle.sg_tower.specs.Elements.{AllSolve, IsComplete};
ghost use Rattle.sg_products.specs.Readings.{laurents};
ghost use Rattle.sg_products.specs.Solving.{State, IsSide, IsNextRow, IsFinished};

use crate::partial::Partial;
use crate::powers::factor;
use crate::rows::{combined, difference_of, power_of, start, sum_of};
use crate::shift::shifted;
use crate::supports::supports;
use sg_laurent::Laurent;
use sg_matrix::Solution;
use sg_num::{Field, Row, Stop};
use sg_ratfun::RatFun;
use sg_rational::solve_first;
use std::alloc::Global;

/// All solutions of σ(g) - g = c₀ f₀ + c₁ f₁ + .. with constants c, by a first-order equation for each list of exponents that the
/// right sides have (Karr 1981, Abramov 1989).
pub fn solved<F: Field>(
    alloc: Global,
    alphas: &[RatFun<F>],
    fs: &Row<Laurent<RatFun<F>>>,
) -> Result<Row<Solution<F, Laurent<RatFun<F>>>>, Stop>
    requires some { Each (λ a. ¬ (ratio F.val a ≡ zero_value)) alphas.now }
    requires free { IndependentFactors (map (ratio F.val) alphas.now) }
    ensures sound { IfOk result (AllSolve (laurents F.val alphas.now) F.val fs.now) }
    ensures complete { IfOk result (IsComplete (laurents F.val alphas.now) F.val fs.now) }
    ensures wide { IfErr result KeepsWideStep }
{
    let es = supports(alloc, alphas, fs)?;
    let rows = start(alloc, alphas, fs)?;
    let last = all_lowered(alloc, alphas, fs, &es, rows)?;
    let answer = finished(alloc, last)?;
    Ok(answer)
}

// The rows that leave nothing, from those that leave nothing outside the lists of exponents: one list after the other.
fn all_lowered<F: Field>(
    alloc: Global,
    alphas: &[RatFun<F>],
    fs: &Row<Laurent<RatFun<F>>>,
    es: &Row<Row<i128>>,
    rows: Row<Partial<F>>,
) -> Result<Row<Partial<F>>, Stop>
    requires some { Each (λ a. ¬ (ratio F.val a ≡ zero_value)) alphas.now }
    requires free { IndependentFactors (map (ratio F.val) alphas.now) }
    requires fit { Each (λ e. length e ≡ length alphas.now) es.now }
    requires before { State F.val alphas.now fs.now es.now rows }
    ensures value { IfOk result (State F.val alphas.now fs.now []) }
    ensures wide { IfErr result KeepsWideStep }
{
    let mut last = rows;
    for i in 0..es.len() {
        last = lowered(alloc, alphas, fs, es, i, &last)?;
    }
    Ok(last)
}

// The rows without the exponents at `i`, from those without the exponents before: the coefficients at x^e solve a first-order
// equation with the factor that x^e gains at a step, and its solutions, times x^e, leave a problem without these exponents (Karr
// 1981, Abramov 1989).
fn lowered<F: Field>(
    alloc: Global,
    alphas: &[RatFun<F>],
    fs: &Row<Laurent<RatFun<F>>>,
    es: &Row<Row<i128>>,
    i: usize,
    rows: &Row<Partial<F>>,
) -> Result<Row<Partial<F>>, Stop>
    requires some { Each (λ a. ¬ (ratio F.val a ≡ zero_value)) alphas.now }
    requires free { IndependentFactors (map (ratio F.val) alphas.now) }
    requires fit { Each (λ e. length e ≡ length alphas.now) es.now }
    requires inside { i < length es.now }
    requires before { State F.val alphas.now fs.now (drop i es.now) rows.now }
    ensures value { IfOk result (State F.val alphas.now fs.now (drop (suc i) es.now)) }
    ensures wide { IfErr result KeepsWideStep }
{
    let list = es.get(i);
    let e = list.as_slice();
    let ls = sides(alloc, alphas, e, rows)?;
    let a = factor(alloc, alphas, e)?;
    let inner = solve_first(alloc, &a, &ls)?;
    let new = all_next(alloc, alphas, e, rows, &inner)?;
    Ok(new)
}

// The coefficients at the exponents of what is left.
fn sides<F: Field>(
    alloc: Global,
    alphas: &[RatFun<F>],
    e: &[i128],
    rows: &Row<Partial<F>>,
) -> Result<Row<RatFun<F>>, Stop>
    requires { length e.now ≡ length alphas.now }
    ensures value { IfOk result (Pairwise (IsSide F.val alphas.now e.now) rows.now) }
    ensures wide { IfErr result KeepsWideStep }
{
    let mut ls = Row::new(alloc);
    for i in 0..rows.len() {
        let row = rows.get(i);
        let x = row.left.coefficient(alloc, alphas.len(), e)?;
        ls.push(x)?;
    }
    Ok(ls)
}

// The rows that go on by the solutions of the inner problem.
fn all_next<F: Field>(
    alloc: Global,
    alphas: &[RatFun<F>],
    e: &[i128],
    rows: &Row<Partial<F>>,
    inner: &Row<Solution<F, RatFun<F>>>,
) -> Result<Row<Partial<F>>, Stop>
    requires some { Each (λ a. ¬ (ratio F.val a ≡ zero_value)) alphas.now }
    requires fit { length e.now ≡ length alphas.now }
    ensures value { IfOk result (Pairwise (IsNextRow F.val alphas.now e.now rows.now) inner.now) }
    ensures wide { IfErr result KeepsWideStep }
{
    let mut new = Row::new(alloc);
    for i in 0..inner.len() {
        let r = next(alloc, alphas, e, rows, inner.get(i))?;
        new.push(r)?;
    }
    Ok(new)
}

// The row that goes on by w x^e.
fn next<F: Field>(
    alloc: Global,
    alphas: &[RatFun<F>],
    e: &[i128],
    rows: &Row<Partial<F>>,
    w: &Solution<F, RatFun<F>>,
) -> Result<Partial<F>, Stop>
    requires some { Each (λ a. ¬ (ratio F.val a ≡ zero_value)) alphas.now }
    requires fit { length e.now ≡ length alphas.now }
    ensures value { IfOk result (IsNextRow F.val alphas.now e.now rows.now w.now) }
    ensures wide { IfErr result KeepsWideStep }
{
    let sum = combined(alloc, alphas, &w.coeffs, rows)?;
    let power = power_of(alloc, alphas, e, &w.value)?;
    let moved = shifted(alloc, alphas, &power)?;
    let difference = difference_of(alloc, alphas, &moved, &power)?;
    let value = sum_of(alloc, alphas, &sum.value, &power)?;
    let left = difference_of(alloc, alphas, &sum.left, &difference)?;
    Ok(Partial {
        coeffs: sum.coeffs,
        value,
        left,
    })
}

// The rows without what is left.
fn finished<F: Field>(
    alloc: Global,
    rows: Row<Partial<F>>,
) -> Result<Row<Solution<F, Laurent<RatFun<F>>>>, Stop>
    ensures value { IfOk result (Pairwise IsFinished rows) }
    ensures wide { IfErr result KeepsWideStep }
{
    let mut answer = Row::new(alloc);
    for row in rows.into_vec() {
        answer.push(Solution {
            coeffs: row.coeffs,
            value: row.value,
        })?;
    }
    Ok(answer)
}
