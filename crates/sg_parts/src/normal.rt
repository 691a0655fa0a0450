ghost use Rattle.std.specs.Prelude.{◌≡◌, ◌≢◌, ◌<◌, ◌^◌, ℕ, ℤ, pos, ◌*ℤ◌, [], get_or, unsigned_abs, IfOk};
ghost use Rattle.std.specs.Int.{◌∣◌};
ghost use Rattle.sg_algebra.specs.Divisor.{gcd};
ghost use Rattle.sg_parts.specs.Planes.{IsLight, entry, coefficient, unless_none};
ghost use Rattle.sg_parts.specs.Normal.{row_gcd, plane_gcd, row_lead, plane_lead, IsDividedBy, IsNormal};

use crate::line::Line;
use crate::planes::{row_at, width_of};
use sg_num::{Row, gcd_of};
use std::alloc::{AllocError, Global};

/// The polynomial in its normal form: over the powers of the variable rows over the powers of the parameter, without a common divisor
/// above 1, and with a leading coefficient above 0, that of the highest power of the variable, and there of the parameter. The zero
/// polynomial has no rows.
pub fn normal_rows(alloc: Global, plane: &[Line]) -> Result<Row<Row<i128>>, AllocError>
    requires { IsLight plane.now }
    ensures { IfOk result (λ q. IsNormal q plane.now) }
{
    let size = whole_content(plane);
    if size == 0 {
        return Ok(Row::new(alloc));
    }
    let rows = divided(alloc, plane, size)?;
    if lead_of(rows.as_slice()) >= 0 {
        return Ok(rows);
    }
    let rows = divided(alloc, plane, -size)?;
    Ok(rows)
}

// The greatest common divisor of all coefficients, which is no greater than their sizes together.
fn whole_content(plane: &[Line]) -> i128
    requires { IsLight plane.now }
    ensures { result ≡ pos (plane_gcd 0 plane.now) }
{
    content(plane) as i128
}

// The greatest common divisor of all coefficients.
fn content(plane: &[Line]) -> u128
    ensures { result ≡ plane_gcd 0 plane.now }
{
    let mut g = 0;
    for row in plane {
        g = row_content(g, row.as_slice());
    }
    g
}

// The greatest common divisor of `known` and of all numbers of the list.
fn row_content(known: u128, list: &[i128]) -> u128
    ensures { result ≡ row_gcd known list.now }
{
    let mut g = known;
    for c in list {
        g = gcd_of(g, c.unsigned_abs());
    }
    g
}

// The last number other than 0 of the last row that has one.
fn lead_of(rows: &[Row<i128>]) -> i128
    ensures { result ≡ plane_lead rows.now }
{
    let mut lead = 0;
    for row in rows {
        lead = unless_none(row_lead_of(row.as_slice()), lead);
    }
    lead
}

// The last number other than 0.
fn row_lead_of(list: &[i128]) -> i128
    ensures { result ≡ row_lead list.now }
{
    let mut lead = 0;
    for c in list {
        lead = unless_none(*c, lead);
    }
    lead
}

// The number, or where it is 0 the earlier one.
fn unless_none(c: i128, earlier: i128) -> i128
    ensures { result ≡ unless_none c earlier }
{
    if c == 0 { earlier } else { c }
}

// All coefficients divided, by the powers of the variable first.
fn divided(alloc: Global, plane: &[Line], divisor: i128) -> Result<Row<Row<i128>>, AllocError>
    requires some { divisor ≢ pos 0 }
    requires light { IsLight plane.now }
    requires divides { (i j : ℕ) → unsigned_abs divisor ∣ unsigned_abs (coefficient plane.now i j) }
    ensures { IfOk result (λ q. IsDividedBy divisor q plane.now) }
{
    let mut rows = Row::new(alloc);
    for j in 0..width_of(plane) {
        let row = column(alloc, plane, j, divisor)?;
        rows.push(row)?;
    }
    Ok(rows)
}

// The coefficients at this power of the variable, each divided.
fn column(alloc: Global, plane: &[Line], j: usize, divisor: i128) -> Result<Row<i128>, AllocError>
    requires some { divisor ≢ pos 0 }
    requires light { IsLight plane.now }
    requires divides { (i : ℕ) → unsigned_abs divisor ∣ unsigned_abs (coefficient plane.now i j) }
    ensures { IfOk result (λ row. (i : ℕ) → entry row i *ℤ divisor ≡ coefficient plane.now i j) }
{
    let mut row = Row::new(alloc);
    for i in 0..plane.len() {
        let c = exact(coefficient_at(plane, i, j), divisor);
        row.push(c)?;
    }
    Ok(row)
}

// The coefficient at a power of the parameter and one of the variable; 0 past the end.
fn coefficient_at(plane: &[Line], i: usize, j: usize) -> i128
    ensures { result ≡ coefficient plane.now i j }
{
    let row = row_at(plane, i);
    if j < row.len() { row[j] } else { 0 }
}

// The quotient, which is whole.
fn exact(a: i128, b: i128) -> i128
    requires some { b ≢ pos 0 }
    requires small { unsigned_abs a < 2 ^ 127 }
    requires divides { unsigned_abs b ∣ unsigned_abs a }
    ensures { result *ℤ b ≡ a }
{
    a / b
}
