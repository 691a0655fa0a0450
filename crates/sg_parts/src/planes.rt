ghost use Rattle.std.specs.Prelude.{◌≡◌, [], ◌∷◌, ◌+◌, ◌*◌, ◌<◌, ◌≤◌, ◌^◌, ℕ, pos, negsuc, ◌*ℤ◌, ◌+ℤ◌, length, map, max, get_or, unsigned_abs, IfOk, IfSome};
ghost use Rattle.sg_spec.specs.Parts.{plane_one, plane_mul, plane_power};
ghost use Rattle.sg_parts.specs.Planes.{row_size, plane_size, entry, coefficient, moved_row, row_product, SamePlane};

use crate::line::Line;
use crate::rows::{add_product, add_times, trimmed, zeros};
use sg_num::Row;
use std::alloc::{AllocError, Global};

/// No more coefficients than that are made: the answer is out of memory for more.
const MOST: usize = 0x10_0000;

/// 1.
pub fn one(alloc: Global) -> Result<Row<Line>, AllocError>
    ensures { IfOk result (λ r. r ≡ plane_one) }
{
    let row = single(alloc, 1)?;
    let mut rows = Row::new(alloc);
    rows.push(row)?;
    Ok(rows)
}

/// One coefficient.
pub fn single(alloc: Global, c: i128) -> Result<Line, AllocError>
    ensures { IfOk result (λ r. r ≡ c ∷ []) }
{
    let mut row = Vec::new(alloc);
    row.push(c)?;
    Ok(Line::of(row))
}

/// The sum of `p` and of `c` times `q`.
pub fn plane_sum(alloc: Global, p: &[Line], c: i128, q: &[Line]) -> Result<Row<Line>, AllocError>
    requires light { plane_size p.now + unsigned_abs c * plane_size q.now < 2 ^ 127 }
    ensures { IfOk result (λ r. (i j : ℕ) → coefficient r i j ≡ coefficient p.now i j +ℤ c *ℤ coefficient q.now i j) }
{
    let mut rows = Row::new(alloc);
    for place in 0..p.len().max(q.len()) {
        let row = sum_row(alloc, row_at(p, place), c, row_at(q, place))?;
        rows.push(row)?;
    }
    Ok(rows)
}

// The sum of `p` and of `c` times `q`.
fn sum_row(alloc: Global, p: &[i128], c: i128, q: &[i128]) -> Result<Line, AllocError>
    requires light { row_size p.now + unsigned_abs c * row_size q.now < 2 ^ 127 }
    ensures { IfOk result (λ r. (j : ℕ) → entry r j ≡ entry p.now j +ℤ c *ℤ entry q.now j) }
{
    let mut row = zeros(alloc, p.len().max(q.len()))?;
    add_times(&mut row, 0, 1, p);
    add_times(&mut row, 0, c, q);
    Ok(trimmed(row))
}

/// The row at a place; past the last one it is empty.
pub fn row_at(plane: &[Line], place: usize) -> &[i128]
    ensures { result.now ≡ get_or plane.now place [] }
{
    if place < plane.len() {
        plane[place].as_slice()
    } else {
        &[]
    }
}

/// The product. No more than a million coefficients are made.
pub fn plane_product(alloc: Global, p: &[Line], q: &[Line]) -> Result<Row<Line>, AllocError>
    requires light { plane_size p.now * plane_size q.now < 2 ^ 127 }
    ensures { IfOk result (λ r. SamePlane r (plane_mul p.now q.now)) }
{
    let width = together(width_of(p), width_of(q))?;
    let height = together(p.len(), q.len())?.saturating_sub(1);
    if height.saturating_mul(width) > MOST {
        return Err(AllocError);
    }
    let mut rows = Row::new(alloc);
    for place in 0..height {
        let row = product_row(alloc, p, q, place, width)?;
        rows.push(row)?;
    }
    Ok(rows)
}

// The sum, if it isn't far too large.
fn together(left: usize, right: usize) -> Result<usize, AllocError>
    ensures { IfOk result (λ s. s ≡ left + right) }
{
    if left > MOST || right > MOST {
        return Err(AllocError);
    }
    Ok(left + right)
}

/// A number of coefficients that no row exceeds.
pub fn width_of(plane: &[Line]) -> usize
    ensures { (i : ℕ) → length (get_or plane.now i []) ≤ result }
{
    let mut width = 0;
    for row in plane {
        width = row.as_slice().len().max(width);
    }
    width
}

// The row of the product at a place.
fn product_row(
    alloc: Global,
    p: &[Line],
    q: &[Line],
    place: usize,
    width: usize,
) -> Result<Line, AllocError>
    requires room { (i j : ℕ) → length (get_or p.now i []) + length (get_or q.now j []) ≤ width }
    requires light { plane_size p.now * plane_size q.now < 2 ^ 127 }
    ensures { IfOk result (λ r. (j : ℕ) → entry r j ≡ coefficient (plane_mul p.now q.now) place j) }
{
    let mut row = zeros(alloc, width)?;
    for i in 0..p.len() {
        add_row(&mut row, p[i].as_slice(), i, q, place);
    }
    Ok(trimmed(row))
}

// Adds what a row, moved up to its place, contributes to the product at a place.
fn add_row(row: &mut Vec<i128>, p: &[i128], i: usize, q: &[Line], place: usize)
    requires room { (j : ℕ) → length p.now + length (get_or q.now j []) ≤ length row.old.items }
    requires light { row_size row.old.items + row_size p.now * plane_size q.now < 2 ^ 127 }
    ensures size { length row.new.items ≡ length row.old.items }
    ensures sum { (j : ℕ) → entry row.new.items j ≡ entry row.old.items j +ℤ entry (moved_row i (map (row_product p.now) q.now) place) j }
    ensures light { row_size row.new.items ≤ row_size row.old.items + row_size p.now * plane_size q.now }
{
    if i <= place {
        add_product(row, p, row_at(q, place - i));
    }
}

/// The power.
pub fn plane_power(alloc: Global, base: &[Line], exponent: u128) -> Result<Row<Line>, AllocError>
    requires light { max 1 (plane_size base.now) ^ exponent < 2 ^ 127 }
    ensures { IfOk result (λ r. SamePlane r (plane_power base.now exponent)) }
{
    if exponent > MOST as u128 {
        return Err(AllocError);
    }
    let mut power = one(alloc)?;
    for _i in 0..exponent {
        power = plane_product(alloc, base, power.as_slice())?;
    }
    Ok(power)
}
