//! A polynomial that is 0 at each shift at which two monic polynomials have a common divisor.
ghost use Rattle.std.specs.Prelude.{◌≡◌, ℕ, ◌+◌, ◌*◌, ◌-◌, ◌<◌, [], length, map, get_or, OnOk, IfOk, IfErr, IfSome, IsTrue};
ghost use Rattle.sg_algebra.proofs.ValueField.{ValueR};
ghost use Rattle.sg_algebra.proofs.Polynomial.{coefficient};
ghost use Rattle.sg_algebra.proofs.Rows.{Builds};
ghost use Rattle.sg_num.specs.Stopped.{KeepsWideStep};
ghost use Rattle.sg_num.specs.Value.{number};
ghost use Rattle.sg_spread.specs.Powers.{ArePowers, AreColumns, IsNullBasis, IsSome, IsCertificate};

use crate::horner::vanishes;
use crate::power_sums::guessed;
use crate::step::{first_row, row_after};
use sg_matrix::null_basis;
use sg_num::{Rat, Row, Stop};
use std::alloc::{AllocError, Global};

/// The coefficients, not all 0, of a polynomial that is 0 at each shift m at which a(k) and b(k+m) have a common divisor of
/// positive degree. `a` and `b` are the coefficients of monic polynomials of positive degree. It is guessed by sums of powers,
/// and where that fails it comes of an elimination.
pub(crate) fn certificate(alloc: Global, a: &[Rat], b: &[Rat]) -> Result<Row<Rat>, Stop>
    requires some { 1 < length a.now }
    requires others { 1 < length b.now }
    ensures some { IfOk result (λ r. IsSome (map number r)) }
    ensures certificate { IfOk result (IsCertificate a.now b.now) }
    ensures wide { IfErr result KeepsWideStep }
{
    let Some(size) = (a.len() - 1).checked_mul(b.len() - 1) else {
        // more numbers than a memory has room for
        return Err(Stop::Memory(AllocError));
    };
    if let Some(list) = tried(alloc, a, b, size)? {
        return Ok(list);
    }
    let list = dependence(alloc, a, b, size)?;
    Ok(list)
}

// The guess where it serves; none where a step towards it is wide.
fn tried(alloc: Global, a: &[Rat], b: &[Rat], size: usize) -> Result<Option<Row<Rat>>, Stop>
    requires some { 1 < length a.now }
    requires others { 1 < length b.now }
    requires size { size ≡ (length a.now - 1) * (length b.now - 1) }
    ensures some { IfOk result (λ o. IfSome o (λ r. IsSome (map number r))) }
    ensures certificate { IfOk result (λ o. IfSome o (IsCertificate a.now b.now)) }
    ensures wide { IfErr result KeepsWideStep }
{
    match serving(alloc, a, b, size) {
        Ok(found) => Ok(found),
        Err(Stop::Wide(_)) => Ok(None),
        Err(stop) => Err(stop),
    }
}

// The guess where it serves.
fn serving(alloc: Global, a: &[Rat], b: &[Rat], size: usize) -> Result<Option<Row<Rat>>, Stop>
    requires some { 1 < length a.now }
    requires others { 1 < length b.now }
    requires size { size ≡ (length a.now - 1) * (length b.now - 1) }
    ensures some { IfOk result (λ o. IfSome o (λ r. IsSome (map number r))) }
    ensures certificate { IfOk result (λ o. IfSome o (IsCertificate a.now b.now)) }
    ensures wide { IfErr result KeepsWideStep }
{
    let list = guessed(alloc, a, b, size)?;
    if !ends_nonzero(list.as_slice()) {
        return Ok(None);
    }
    if !vanishes(alloc, a, b, size, list.as_slice())? {
        return Ok(None);
    }
    Ok(Some(list))
}

// Whether there is a last item other than 0.
fn ends_nonzero(list: &[Rat]) -> bool
    ensures { IsTrue result → IsSome (map number list.now) }
{
    if list.is_empty() {
        return false;
    }
    !list[list.len() - 1].is_zero()
}

// The first linear dependence of the powers of j - k, where k is a root of a and j one of b.
fn dependence(alloc: Global, a: &[Rat], b: &[Rat], size: usize) -> Result<Row<Rat>, Stop>
    requires some { 1 < length a.now }
    requires others { 1 < length b.now }
    requires size { size ≡ (length a.now - 1) * (length b.now - 1) }
    ensures some { IfOk result (λ r. IsSome (map number r)) }
    ensures certificate { IfOk result (IsCertificate a.now b.now) }
    ensures wide { IfErr result KeepsWideStep }
{
    let mut rows = Row::new(alloc);
    rows.push(first_row(alloc, size)?)?;
    for _ in 0..size {
        grow(alloc, a, b, &mut rows)?;
        let mut basis = dependences(alloc, a, b, &rows, size)?;
        if !basis.is_empty() {
            return Ok(basis.remove(0));
        }
    }
    // not reached: one more row than they have items are dependent
    Ok(Row::new(alloc))
}

// The row after one more step.
fn grow(alloc: Global, a: &[Rat], b: &[Rat], rows: &mut Row<Row<Rat>>) -> Result<(), Stop>
    requires some { 1 < length a.now }
    requires others { 1 < length b.now }
    requires begun { 0 < length rows.old }
    requires powers { ArePowers (length a.now - 1) (length b.now - 1) (map number a.now) (map number b.now) rows.old }
    ensures powers { OnOk result (ArePowers (length a.now - 1) (length b.now - 1) (map number a.now) (map number b.now) rows.new) }
    ensures longer { OnOk result (length rows.new ≡ length rows.old + 1) }
    ensures wide { IfErr result KeepsWideStep }
{
    let next = row_after(alloc, a, b, rows.get(rows.len() - 1).as_slice())?;
    rows.push(next)?;
    Ok(())
}

// The dependences of these rows.
fn dependences(
    alloc: Global,
    a: &[Rat],
    b: &[Rat],
    rows: &Row<Row<Rat>>,
    size: usize,
) -> Result<Row<Row<Rat>>, Stop>
    requires some { 1 < length a.now }
    requires others { 1 < length b.now }
    requires size { size ≡ (length a.now - 1) * (length b.now - 1) }
    requires powers { ArePowers (length a.now - 1) (length b.now - 1) (map number a.now) (map number b.now) rows.now }
    ensures basis { IfOk result (λ basis. IsNullBasis (length a.now - 1) (length b.now - 1) (map number a.now) (map number b.now) (length rows.now) basis) }
    ensures wide { IfErr result KeepsWideStep }
{
    let all = table(alloc, rows.as_slice(), size)?;
    let basis = null_basis(alloc, &all, rows.len())?;
    Ok(basis)
}

// The rows as the columns of a table with this many rows.
fn table(alloc: Global, rows: &[Row<Rat>], size: usize) -> Result<Row<Row<Rat>>, AllocError>
    requires { (t : ℕ) → t < length rows.now → length (get_or rows.now t []) ≡ size }
    ensures size { IfOk result (λ r. length r ≡ size) }
    ensures rows { IfOk result (AreColumns rows.now size) }
{
    let mut all = Row::new(alloc);
    for p in 0..size {
        let row = column(alloc, rows, p)?;
        all.push(row)?;
    }
    Ok(all)
}

// The items of all rows at one place.
fn column(alloc: Global, rows: &[Row<Rat>], p: usize) -> Result<Row<Rat>, AllocError>
    requires { (t : ℕ) → t < length rows.now → p < length (get_or rows.now t []) }
    ensures { IfOk result (λ r. Builds number (λ t. coefficient (map number (get_or rows.now t [])) p) (length rows.now) r) }
{
    let mut new = Row::new(alloc);
    for t in 0..rows.len() {
        new.push(*rows[t].get(p))?;
    }
    Ok(new)
}
