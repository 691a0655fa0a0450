ghost use Rattle.std.specs.Prelude.{◌≡◌, ℕ, ◌<◌, ◌≤◌, ◌+◌, IfOk, IfErr, length, map};
ghost use Rattle.sg_algebra.specs.Coefficients.{Each};
ghost use Rattle.sg_algebra.proofs.Value.{Value, ◌+ᵛ◌, ◌*ᵛ◌, zero_value, one_value};
ghost use Rattle.sg_algebra.proofs.Polynomial.{coefficient as coefficient_at};
ghost use Rattle.sg_algebra.proofs.Place.{Pairwise};
ghost use Rattle.sg_num.specs.Stopped.{KeepsWideStep};
ghost use Rattle.sg_tower_theory.proofs.Formal.{shifted, elements, one_more};
ghost use Rattle.sg_tower_theory.proofs.Difference.{Solves, Spanned};
ghost use Rattle.sg_tower.specs.Elements.{raised, AllSolve, IsComplete, IsShifted};
ghost use Rattle.sg_sums.specs.Polynomials.{IsPlace, IsExtended, IsCombined, State, Sides, IsNextRow, StartRows, IsFinished};

use crate::constants::all_solutions;
use crate::partial::Partial;
use crate::poly1::Poly1;
use crate::polys::{added, behind, coefficient, joined, low_difference, monomial, scaled, times};
use sg_matrix::{Solution, constant, plus_constants, unit_row};
use sg_num::{Field, Row, Stop};
use sg_tower::Tower;
use std::alloc::Global;

// The polynomial at t + β with k + 1 for k, by Horner's rule.
pub(crate) fn shifted_poly<T: Tower>(
    alloc: Global,
    below: &T,
    beta: &T::Elem,
    x: &Row<T::Elem>,
) -> Result<Row<T::Elem>, Stop>
    ensures value { IfOk result (IsShifted (raised (T.reading T.K.vars T.K.val below.now) beta.now) x.now) }
    ensures wide { IfErr result KeepsWideStep }
{
    let mut r = Row::new(alloc);
    for i in 0..x.len() {
        let a = below.shift(alloc, x.get(x.len() - 1 - i))?;
        let product = times(alloc, below, beta, &r)?;
        let moved = behind(a, r)?;
        r = joined(alloc, below, moved, product)?;
    }
    Ok(r)
}

// The unit rows: no value yet, and all is left.
pub(crate) fn start<T: Tower>(
    alloc: Global,
    below: &T,
    beta: &T::Elem,
    fs: &Row<Poly1<T::Elem>>,
) -> Result<Row<Partial<T::K, T::Elem>>, Stop>
    ensures value { IfOk result (StartRows (T.reading T.K.vars T.K.val below.now) T.K.val beta.now fs.now) }
    ensures wide { IfErr result KeepsWideStep }
{
    let mut rows = Row::new(alloc);
    for i in 0..fs.len() {
        let coeffs = unit_row(alloc, fs.len(), i)?;
        let none = Row::new(alloc);
        let left = added(alloc, below, &none, fs.get(i).row())?;
        rows.push(Partial {
            coeffs,
            value: none,
            left,
        })?;
    }
    Ok(rows)
}

// The rows without the power t^n, from those without the powers above it.
pub(crate) fn lowered<T: Tower>(
    alloc: Global,
    below: &T,
    beta: &T::Elem,
    fs: &Row<Poly1<T::Elem>>,
    n: usize,
    rows: &Row<Partial<T::K, T::Elem>>,
) -> Result<Row<Partial<T::K, T::Elem>>, Stop>
    requires { State (T.reading T.K.vars T.K.val below.now) T.K.val beta.now fs.now (n + 1) rows.now }
    ensures value { IfOk result (State (T.reading T.K.vars T.K.val below.now) T.K.val beta.now fs.now n) }
    ensures wide { IfErr result KeepsWideStep }
{
    let ls = sides(alloc, below, beta, fs, n, rows)?;
    let inner = all_solutions(alloc, below, &ls)?;
    let new = all_next(alloc, below, beta, n, rows, &inner)?;
    Ok(new)
}

// The rows without what is left.
pub(crate) fn finished<K: Drop, E: Drop>(
    alloc: Global,
    rows: Row<Partial<K, E>>,
) -> Result<Row<Solution<K, Poly1<E>>>, Stop>
    ensures value { IfOk result (Pairwise IsFinished rows) }
    ensures wide { IfErr result KeepsWideStep }
{
    let mut answer = Row::new(alloc);
    for row in rows.into_vec() {
        answer.push(Solution {
            coeffs: row.coeffs,
            value: Poly1::of(row.value),
        })?;
    }
    Ok(answer)
}

// The coefficients at `n` of what is left.
pub(crate) fn sides<T: Tower>(
    alloc: Global,
    below: &T,
    beta: &T::Elem,
    fs: &Row<Poly1<T::Elem>>,
    n: usize,
    rows: &Row<Partial<T::K, T::Elem>>,
) -> Result<Row<T::Elem>, Stop>
    ensures value { IfOk result (Sides (T.reading T.K.vars T.K.val below.now) T.K.val beta.now fs.now n rows.now) }
    ensures wide { IfErr result KeepsWideStep }
{
    let mut ls = Row::new(alloc);
    for i in 0..rows.len() {
        let row = rows.get(i);
        ls.push(coefficient(alloc, below, &row.left, n)?)?;
    }
    Ok(ls)
}

// One power of t: the rows that go on by the solutions below.
fn all_next<T: Tower>(
    alloc: Global,
    below: &T,
    beta: &T::Elem,
    n: usize,
    rows: &Row<Partial<T::K, T::Elem>>,
    inner: &Row<Solution<T::K, T::Elem>>,
) -> Result<Row<Partial<T::K, T::Elem>>, Stop>
    ensures value { IfOk result (λ new. Pairwise (IsNextRow (T.reading T.K.vars T.K.val below.now) T.K.val beta.now n rows.now) inner.now new) }
    ensures wide { IfErr result KeepsWideStep }
{
    let mut new = Row::new(alloc);
    for i in 0..inner.len() {
        new.push(next(alloc, below, beta, n, rows, inner.get(i))?)?;
    }
    Ok(new)
}

// The row that goes on by v t^n. What it leaves has no power from n on, so only the powers below are computed.
fn next<T: Tower>(
    alloc: Global,
    below: &T,
    beta: &T::Elem,
    n: usize,
    rows: &Row<Partial<T::K, T::Elem>>,
    v: &Solution<T::K, T::Elem>,
) -> Result<Partial<T::K, T::Elem>, Stop>
    ensures value { IfOk result (IsNextRow (T.reading T.K.vars T.K.val below.now) T.K.val beta.now n rows.now v.now) }
    ensures wide { IfErr result KeepsWideStep }
{
    let sum = combined(alloc, below, beta, &v.coeffs, rows)?;
    let power = monomial(alloc, below, n, &v.value)?;
    let moved = shifted_poly(alloc, below, beta, &power)?;
    let value = joined(alloc, below, sum.value, power)?;
    let left = low_difference(alloc, below, n, &sum.left, &moved)?;
    Ok(Partial {
        coeffs: sum.coeffs,
        value,
        left,
    })
}

// The sum of the rows with constants as factors.
pub(crate) fn combined<T: Tower>(
    alloc: Global,
    below: &T,
    beta: &T::Elem,
    cs: &Row<T::K>,
    rows: &Row<Partial<T::K, T::Elem>>,
) -> Result<Partial<T::K, T::Elem>, Stop>
    ensures value { IfOk result (IsCombined (T.reading T.K.vars T.K.val below.now) T.K.val beta.now (coefficient_at (map T.K.val cs.now)) rows.now) }
    ensures wide { IfErr result KeepsWideStep }
{
    let mut sum = Partial {
        coeffs: Row::new(alloc),
        value: Row::new(alloc),
        left: Row::new(alloc),
    };
    for i in 0..rows.len() {
        let c = constant(alloc, cs, i)?;
        sum = extended(alloc, below, sum, &c, rows.get(i))?;
    }
    Ok(sum)
}

// acc + c row.
fn extended<T: Tower>(
    alloc: Global,
    below: &T,
    acc: Partial<T::K, T::Elem>,
    c: &T::K,
    row: &Partial<T::K, T::Elem>,
) -> Result<Partial<T::K, T::Elem>, Stop>
    ensures value { IfOk result (IsExtended (T.reading T.K.vars T.K.val below.now) T.K.val acc (T.K.val c.now) row.now) }
    ensures wide { IfErr result KeepsWideStep }
{
    if c.is_zero() {
        return Ok(acc);
    }
    let coeffs = plus_constants(alloc, &acc.coeffs, c, &row.coeffs)?;
    let more = scaled(alloc, below, c, &row.value)?;
    let value = joined(alloc, below, acc.value, more)?;
    let rest = scaled(alloc, below, c, &row.left)?;
    let left = joined(alloc, below, acc.left, rest)?;
    Ok(Partial {
        coeffs,
        value,
        left,
    })
}
