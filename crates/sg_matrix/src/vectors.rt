ghost use Rattle.std.specs.Prelude.{◌≡◌, ℕ, ◌<◌, ◌≤◌, [], length, map, get_or, IfOk, IfErr, IfSome, IfNone};
ghost use Rattle.sg_algebra.proofs.Value.{Value, zero_value};
ghost use Rattle.sg_algebra.proofs.Polynomial.{coefficient};
ghost use Rattle.sg_algebra.proofs.Linear.{row_times, row, Span, table, Form};
ghost use Rattle.sg_num.specs.Stopped.{KeepsWideStep};
ghost use Rattle.sg_matrix.specs.NullBasis.{AreNull, SpanNull};
ghost use Rattle.sg_matrix.specs.Systems.{LeadsAt, IsEchelon, IsSystem};
ghost use Rattle.sg_matrix.specs.Steps.{IsFree, IsVector, image};

use crate::rows::leads_at;
use sg_num::{Field, Row, Stop};
use std::alloc::Global;

// The vectors of all free columns.
pub(crate) fn vectors<F: Field>(
    alloc: Global,
    rows: &Row<Row<F>>,
    width: usize,
) -> Result<Row<Row<F>>, Stop>
    requires { IsSystem F.val width rows.now }
    ensures sized { IfOk result (λ basis. (i : ℕ) → i < length basis → length (get_or basis i []) ≡ width) }
    ensures sound { IfOk result (AreNull F.val rows.now) }
    ensures form { IfOk result (λ basis. Form F.val basis) }
    ensures complete { IfOk result (SpanNull F.val width rows.now) }
    ensures full { IfOk result (λ basis. length rows.now ≡ width → basis ≡ []) }
    ensures wide { IfErr result KeepsWideStep }
{
    let mut basis = Row::new(alloc);
    for k in 0..width {
        match row_at(rows, k) {
            Some(_row) => {}
            None => basis.push(vector(alloc, rows, width, k)?)?,
        }
    }
    Ok(basis)
}

// The row that leads at the column `k`; None where the column is free.
fn row_at<F: Field>(rows: &Row<Row<F>>, k: usize) -> Option<usize>
    ensures none { IfNone result (IsFree F.val rows.now k) }
    ensures some { IfSome result (λ l. LeadsAt (row F.val rows.now l) k) }
    ensures within { IfSome result (λ l. l < length rows.now) }
{
    for i in 0..rows.len() {
        if leads_at(rows.get(i).as_slice(), k) {
            return Some(i);
        }
    }
    None
}

// The vector of the free column `k`.
fn vector<F: Field>(
    alloc: Global,
    rows: &Row<Row<F>>,
    width: usize,
    k: usize,
) -> Result<Row<F>, Stop>
    requires free { IsFree F.val rows.now k }
    requires inside { k < width }
    requires system { IsSystem F.val width rows.now }
    ensures value { IfOk result (λ r. (e : IsEchelon F.val rows.now) → IsVector F.val rows.now e.pivot width k r) }
    ensures wide { IfErr result KeepsWideStep }
{
    let mut r = Row::new(alloc);
    for i in 0..width {
        r.push(entry(alloc, rows, k, i)?)?;
    }
    Ok(r)
}

// The entry at `i` of the vector of the free column `k`: 1 in this column, 0 in the other free ones, and in the column of a
// pivot what makes its row send the vector to 0.
fn entry<F: Field>(alloc: Global, rows: &Row<Row<F>>, k: usize, i: usize) -> Result<F, Stop>
    requires free { IsFree F.val rows.now k }
    requires inside { (l : ℕ) → l < length rows.now → k < length (get_or rows.now l []) }
    ensures value { IfOk result (λ x. (e : IsEchelon F.val rows.now) → F.val x ≡ image F.val rows.now e.pivot k i) }
    ensures wide { IfErr result KeepsWideStep }
{
    match row_at(rows, i) {
        Some(l) => {
            let zero = F::zero(alloc)?;
            let x = zero.sub(alloc, &rows.get(l).as_slice()[k])?;
            Ok(x)
        }
        None if i == k => {
            let one = F::one(alloc)?;
            Ok(one)
        }
        None => {
            let zero = F::zero(alloc)?;
            Ok(zero)
        }
    }
}
