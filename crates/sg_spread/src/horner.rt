//! Polynomials in j - k, modulo two monic polynomials a(k) and b(j).
ghost use Rattle.std.specs.Prelude.{◌≡◌, ℕ, ◌*◌, ◌-◌, ◌<◌, [], ◌∷◌, length, map, IfOk, IfErr, IsTrue};
ghost use Rattle.sg_algebra.proofs.Polynomial.{coefficient};
ghost use Rattle.sg_algebra.proofs.Rows.{Builds};
ghost use Rattle.sg_algebra.proofs.Value.{zero_value, ◌+ᵛ◌};
ghost use Rattle.sg_num.specs.Stopped.{KeepsWideStep};
ghost use Rattle.sg_num.specs.Value.{number};
ghost use Rattle.sg_spread.specs.Powers.{step_of, IsCertificate};

use crate::step::row_after;
use sg_num::{Field, Rat, Row, Stop};
use std::alloc::{AllocError, Global};

/// Whether D(j - k) is 0 modulo a(k) and b(j), by Horner's scheme: the list has the coefficients of D, the constant one first.
pub(crate) fn vanishes(
    alloc: Global,
    a: &[Rat],
    b: &[Rat],
    size: usize,
    list: &[Rat],
) -> Result<bool, Stop>
    requires some { 1 < length a.now }
    requires others { 1 < length b.now }
    requires size { size ≡ (length a.now - 1) * (length b.now - 1) }
    ensures certificate { IfOk result (λ r. IsTrue r → IsCertificate a.now b.now list.now) }
    ensures wide { IfErr result KeepsWideStep }
{
    let mut row = zeros(alloc, size)?;
    for t in 0..list.len() {
        let c = list[list.len() - 1 - t];
        row = next(alloc, a, b, row.as_slice(), c)?;
    }
    Ok(are_zero(row.as_slice()))
}

// The row of the polynomial 0.
fn zeros(alloc: Global, size: usize) -> Result<Row<Rat>, AllocError>
    ensures { IfOk result (λ r. Builds number (λ p. zero_value) size r) }
{
    let mut row = Row::new(alloc);
    for p in 0..size {
        row.push(zero_item(p))?;
    }
    Ok(row)
}

fn zero_item(p: usize) -> Rat
    ensures { number result ≡ zero_value }
{
    let _ = p;
    Rat::whole(0)
}

// The row after a step, and a constant.
fn next(alloc: Global, a: &[Rat], b: &[Rat], row: &[Rat], c: Rat) -> Result<Row<Rat>, Stop>
    requires some { 1 < length a.now }
    requires others { 1 < length b.now }
    requires size { length row.now ≡ (length a.now - 1) * (length b.now - 1) }
    ensures built { IfOk result (λ r. Builds number (λ p. step_of a.now b.now row.now p +ᵛ coefficient (number c ∷ []) p) (length row.now) r) }
    ensures wide { IfErr result KeepsWideStep }
{
    let moved = row_after(alloc, a, b, row)?;
    let sum = with_constant(alloc, moved.as_slice(), c)?;
    Ok(sum)
}

// The row of a polynomial and a constant.
fn with_constant(alloc: Global, row: &[Rat], c: Rat) -> Result<Row<Rat>, Stop>
    ensures built { IfOk result (λ r. Builds number (λ p. coefficient (map number row.now) p +ᵛ coefficient (number c ∷ []) p) (length row.now) r) }
    ensures wide { IfErr result KeepsWideStep }
{
    let mut new = Row::new(alloc);
    for p in 0..row.len() {
        let item = item_with(alloc, row[p], c, p)?;
        new.push(item)?;
    }
    Ok(new)
}

// The item at a place; at the place 0 the constant is added.
fn item_with(alloc: Global, item: Rat, c: Rat, p: usize) -> Result<Rat, Stop>
    ensures value { IfOk result (λ r. number r ≡ number item +ᵛ coefficient (number c ∷ []) p) }
    ensures wide { IfErr result KeepsWideStep }
{
    if p == 0 {
        let sum = item.add(alloc, &c)?;
        return Ok(sum);
    }
    Ok(item)
}

// Whether all items are 0.
fn are_zero(row: &[Rat]) -> bool
    ensures { IsTrue result → (p : ℕ) → coefficient (map number row.now) p ≡ zero_value }
{
    for i in 0..row.len() {
        if !row[i].is_zero() {
            return false;
        }
    }
    true
}
