ghost use Rattle.std.specs.Prelude.{◌≡◌, ◌≢◌, ℕ, suc, ◌<◌, ◌≤◌, [], List, length, get_or, take, IfOk, IfErr, ℤ, pos};
ghost use Rattle.sg_algebra.proofs.Value.{◌+ᵛ◌, ◌*ᵛ◌};
ghost use Rattle.sg_algebra.proofs.Rational.{whole_value};
ghost use Rattle.sg_num.specs.Stopped.{IsTooWide, IsMemory};
ghost use Rattle.sg_num.specs.Value.{number};
ghost use Rattle.sg_algebra.proofs.Tables.{Each};
ghost use Rattle.sg_poly.specs.Plane.{entry, row_at, plane_at, IsTrimmed, IsFront};

use sg_num::{Rat, Row, Stop, Wide, length_of};
use std::alloc::Global;
use std::marker::Model;

/// A polynomial in k and n with whole coefficients: a list over the powers of k of lists over the powers of n, none of which
/// ends in 0 or in an empty list.
#[derive(Drop)]
pub struct Poly2 {
    rows: Row<Row<i128>>,
}

impl Model for Poly2 {
    ghost use Rattle.std.specs.Prelude.{List, ℤ};
    ghost use Rattle.sg_poly.specs.Plane.{IsTrimmed};

    ghost Value = { List (List ℤ) };

    ghost view = { λ p. p.rows };

    ghost invariant = { λ p. IsTrimmed p.rows };
}

impl Poly2 {
    /// The polynomial of these lists; zeros at the end of a list and empty lists at the end are dropped.
    pub fn from_rows(alloc: Global, rows: Row<Row<i128>>) -> Result<Poly2, Stop>
        ensures value { IfOk result (λ p. (i j : ℕ) → entry p i j ≡ entry rows i j) }
        ensures trimmed { IfOk result IsTrimmed }
        ensures memory { IfErr result IsMemory }
    {
        let mut rows = fronts(alloc, rows.as_slice())?;
        let n = height_of(rows.as_slice());
        rows.truncate(n);
        Ok(Poly2 { rows })
    }

    /// The value at n and k, by Horner's rule. It takes no memory.
    pub fn value(&self, n: i64, k: i64) -> Result<Rat, Wide>
        ensures value { IfOk result (λ r. number r ≡ plane_at self.now n k) }
        ensures wide { IfErr result IsTooWide }
    {
        let rows = self.rows.as_slice();
        let at_n = Rat::whole(n as i128);
        let at_k = Rat::whole(k as i128);
        let mut value = Rat::whole(0);
        let mut i = rows.len();
        while i > 0 {
            i -= 1;
            let c = row_value(rows[i].as_slice(), at_n)?;
            value = stepped(c, at_k, value)?;
        }
        Ok(value)
    }

    /// The lists.
    pub fn rows(&self) -> &Row<Row<i128>>
        ensures value { result.now ≡ self.now }
        ensures trimmed { IsTrimmed self.now }
    {
        &self.rows
    }
}

// The rows, each without the zeros at its end.
fn fronts(alloc: Global, rows: &[Row<i128>]) -> Result<Row<Row<i128>>, Stop>
    ensures value { IfOk result (λ new. Each (λ j r. IsFront (get_or rows.now j []) r) (length rows.now) new) }
    ensures memory { IfErr result IsMemory }
{
    let mut new = Row::new(alloc);
    for i in 0..rows.len() {
        new.push(trimmed(alloc, rows[i].as_slice())?)?;
    }
    Ok(new)
}

// The row without the zeros at its end.
fn trimmed(alloc: Global, list: &[i128]) -> Result<Row<i128>, Stop>
    ensures value { IfOk result (IsFront list.now) }
    ensures memory { IfErr result IsMemory }
{
    let row = Row::from_slice(alloc, &list[..length_of(list)])?;
    Ok(row)
}

// How many rows there are up to the last that isn't empty.
fn height_of(rows: &[Row<i128>]) -> usize
    ensures within { result ≤ length rows.now }
    ensures none { (k : ℕ) → result ≤ k → get_or rows.now k [] ≡ [] }
    ensures last { (k : ℕ) → result ≡ suc k → get_or rows.now k [] ≢ [] }
{
    let mut n = rows.len();
    while n > 0 {
        if rows[n - 1].is_empty() {
            n -= 1;
        } else {
            return n;
        }
    }
    0
}

// The value of the row at `x`, by Horner's rule.
fn row_value(list: &[i128], x: Rat) -> Result<Rat, Wide>
    ensures value { IfOk result (λ r. number r ≡ row_at list.now (number x)) }
    ensures wide { IfErr result IsTooWide }
{
    let mut value = Rat::whole(0);
    let mut i = list.len();
    while i > 0 {
        i -= 1;
        let c = Rat::whole(list[i]);
        value = stepped(c, x, value)?;
    }
    Ok(value)
}

// One step of Horner's rule.
fn stepped(c: Rat, x: Rat, value: Rat) -> Result<Rat, Wide>
    ensures value { IfOk result (λ r. number r ≡ number c +ᵛ number x *ᵛ number value) }
    ensures wide { IfErr result IsTooWide }
{
    let product = x.times(value)?;
    let r = c.plus(product)?;
    Ok(r)
}
