//! The polynomials k^i j^l with i < d and l < e, and times j - k, reduced by two monic polynomials a(k) and b(j) of degrees d
//! and e. A row has the coefficients, line by line: that of k^i j^l stands at the place l d + i.
ghost use Rattle.std.specs.Prelude.{◌≡◌, ◌*◌, ◌-◌, ◌<◌, ◌≤◌, [], ◌∷◌, length, map, IfOk, IfErr};
ghost use Rattle.sg_algebra.proofs.Value.{zero_value, one_value, ◌+ᵛ◌, ◌*ᵛ◌, neg_value};
ghost use Rattle.sg_algebra.proofs.ValueField.{ValueR};
ghost use Rattle.sg_algebra.proofs.Polynomial.{coefficient};
ghost use Rattle.sg_algebra.proofs.Rows.{Builds};
ghost use Rattle.sg_num.specs.Stopped.{KeepsWideStep};
ghost use Rattle.sg_num.specs.Value.{number};
ghost use Rattle.sg_spread.specs.Powers.{step_of};

use sg_num::{Field, Rat, Row, Stop};
use std::alloc::{AllocError, Global};

/// The row after a step.
pub(crate) fn row_after(alloc: Global, a: &[Rat], b: &[Rat], row: &[Rat]) -> Result<Row<Rat>, Stop>
    requires some { 1 < length a.now }
    requires others { 1 < length b.now }
    requires size { length row.now ≡ (length a.now - 1) * (length b.now - 1) }
    ensures built { IfOk result (λ r. Builds number (step_of a.now b.now row.now) (length row.now) r) }
    ensures wide { IfErr result KeepsWideStep }
{
    let mut new = Row::new(alloc);
    for p in 0..row.len() {
        let item = item_after(alloc, a, b, row, p)?;
        new.push(item)?;
    }
    Ok(new)
}

/// The row of the polynomial 1.
pub(crate) fn first_row(alloc: Global, size: usize) -> Result<Row<Rat>, AllocError>
    ensures { IfOk result (λ r. Builds number (coefficient (one_value ∷ [])) size r) }
{
    let mut row = Row::new(alloc);
    for p in 0..size {
        row.push(unit_item(p))?;
    }
    Ok(row)
}

// The item at a place after a step.
fn item_after(alloc: Global, a: &[Rat], b: &[Rat], row: &[Rat], p: usize) -> Result<Rat, Stop>
    requires some { 1 < length a.now }
    requires others { 1 < length b.now }
    requires size { length row.now ≡ (length a.now - 1) * (length b.now - 1) }
    requires within { p < length row.now }
    ensures value { IfOk result (λ r. number r ≡ step_of a.now b.now row.now p) }
    ensures wide { IfErr result KeepsWideStep }
{
    let d = a.len() - 1;
    let line = p / d;
    let column = p % d;
    let up = item_above(row, p, d);
    let left = item_left(row, p, column);
    let low = item(row, row.len() - d + column);
    let last = item(row, line * d + (d - 1));
    let r = combined(alloc, up, item(b, line), low, left, item(a, column), last)?;
    Ok(r)
}

// The item d places before this one; 0 where there is none.
fn item_above(row: &[Rat], p: usize, d: usize) -> Rat
    requires { p < length row.now }
    ensures none { p < d → number result ≡ zero_value }
    ensures some { d ≤ p → number result ≡ coefficient (map number row.now) (p - d) }
{
    if p < d {
        return Rat::whole(0);
    }
    item(row, p - d)
}

// The item at a place.
fn item(row: &[Rat], p: usize) -> Rat
    requires { p < length row.now }
    ensures { number result ≡ coefficient (map number row.now) p }
{
    row[p]
}

// The item before this one; 0 at the start of a line.
fn item_left(row: &[Rat], p: usize, column: usize) -> Rat
    requires within { p < length row.now }
    requires before { column ≤ p }
    ensures none { column ≡ 0 → number result ≡ zero_value }
    ensures some { 0 < column → number result ≡ coefficient (map number row.now) (p - 1) }
{
    if column == 0 {
        return Rat::whole(0);
    }
    item(row, p - 1)
}

// What a step puts at a place: up - b low - left + a last.
fn combined(
    alloc: Global,
    up: Rat,
    b: Rat,
    low: Rat,
    left: Rat,
    a: Rat,
    last: Rat,
) -> Result<Rat, Stop>
    ensures value { IfOk result (λ r. number r ≡ number up +ᵛ neg_value (number b *ᵛ number low) +ᵛ neg_value (number left) +ᵛ number a *ᵛ number last) }
    ensures wide { IfErr result KeepsWideStep }
{
    let less = b.mul(alloc, &low)?;
    let x = up.sub(alloc, &less)?;
    let y = x.sub(alloc, &left)?;
    let more = a.mul(alloc, &last)?;
    let r = y.add(alloc, &more)?;
    Ok(r)
}

// 1 at the place 0, and 0 elsewhere.
fn unit_item(p: usize) -> Rat
    ensures { number result ≡ coefficient (one_value ∷ []) p }
{
    if p == 0 {
        return Rat::whole(1);
    }
    Rat::whole(0)
}
