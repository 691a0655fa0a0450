ghost use Rattle.std.specs.Prelude.{◌≡◌, [], ◌∷◌, ◌+◌, ◌*◌, ◌<◌, ◌≤◌, ◌^◌, ℕ, pos, ◌*ℤ◌, ◌+ℤ◌, length, unsigned_abs, IfOk};
ghost use Rattle.sg_parts.specs.Planes.{row_size, entry, moved, row_product, SameRow};

use crate::line::Line;
use crate::roots::sum;
use sg_num::length_of;
use std::alloc::{AllocError, Global};

// Adds the product of both lists.
pub fn add_product(row: &mut Vec<i128>, p: &[i128], q: &[i128])
    requires room { length p.now + length q.now ≤ length row.old.items }
    requires light { row_size row.old.items + row_size p.now * row_size q.now < 2 ^ 127 }
    ensures size { length row.new.items ≡ length row.old.items }
    ensures sum { (i : ℕ) → entry row.new.items i ≡ entry row.old.items i +ℤ entry (row_product p.now q.now) i }
    ensures light { row_size row.new.items ≤ row_size row.old.items + row_size p.now * row_size q.now }
{
    for i in 0..p.len() {
        add_times(row, i, p[i], q);
    }
}

// Adds `c` times the list, moved up to a place. Most coefficients of a sparse polynomial are 0.
pub fn add_times(row: &mut Vec<i128>, at: usize, c: i128, list: &[i128])
    requires room { at + length list.now ≤ length row.old.items }
    requires light { row_size row.old.items + unsigned_abs c * row_size list.now < 2 ^ 127 }
    ensures size { length row.new.items ≡ length row.old.items }
    ensures sum { (i : ℕ) → entry row.new.items i ≡ entry row.old.items i +ℤ c *ℤ moved at list.now i }
    ensures light { row_size row.new.items ≤ row_size row.old.items + unsigned_abs c * row_size list.now }
{
    if c == 0 {
        return;
    }
    for j in 0..list.len() {
        let term = product(c, list[j]);
        add_term(row, at + j, term);
    }
}

// Adds the term to the coefficient at a place.
fn add_term(row: &mut Vec<i128>, at: usize, term: i128)
    requires inside { at < length row.old.items }
    requires light { row_size row.old.items + unsigned_abs term < 2 ^ 127 }
    ensures size { length row.new.items ≡ length row.old.items }
    ensures sum { (i : ℕ) → entry row.new.items i ≡ entry row.old.items i +ℤ moved at (term ∷ []) i }
    ensures light { row_size row.new.items ≤ row_size row.old.items + unsigned_abs term }
{
    let before = row[at];
    row[at] = sum(before, term);
}

// The product.
fn product(a: i128, b: i128) -> i128
    requires { unsigned_abs a * unsigned_abs b < 2 ^ 127 }
    ensures { result ≡ a *ℤ b }
{
    a * b
}

// That many zeros.
pub fn zeros(alloc: Global, size: usize) -> Result<Vec<i128>, AllocError>
    ensures size { IfOk result (λ v. length v.items ≡ size) }
    ensures zeros { IfOk result (λ v. (i : ℕ) → entry v.items i ≡ pos 0) }
    ensures light { IfOk result (λ v. row_size v.items ≡ 0) }
{
    let mut row = Vec::with_capacity(alloc, size)?;
    for _i in 0..size {
        row.push(0)?;
    }
    Ok(row)
}

// The row without the zeros at its end.
pub fn trimmed(row: Vec<i128>) -> Line
    ensures { SameRow result row.items }
{
    let n = length_of(row.as_slice());
    let mut row = row;
    row.truncate(n);
    Line::of(row)
}
