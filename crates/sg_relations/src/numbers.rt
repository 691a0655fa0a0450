//! Exponents of fractions over pairwise coprime whole numbers.
ghost use Rattle.std.specs.Prelude.{◌≡◌, ℕ, ◌<◌, ◌≤◌, length, All, AllPairs, OnOk, IfOk, IfErr, IfSome, IsNone, get_or, slice_index_or, ◌≢◌, ◌+ℤ◌, ◌<ℤ◌, IsSome, IsTrue, ◌↔◌, pos, negsuc, map};
ghost use Rattle.sg_num.specs.Value.{fraction, number};
ghost use Rattle.sg_spec.specs.Width.{fits_num};
ghost use Rattle.sg_algebra.specs.Divisor.{gcd};
ghost use Rattle.sg_num.specs.Stopped.{IsTooWide, KeepsWideStep};
ghost use Rattle.sg_relations_theory.specs.Rows.{sum_row};
ghost use Rattle.sg_relations.specs.Columns.{product_at, IsPositive, IsProper, AreCoprime, HasWidth, IsStep, IsUnit, IsAdded, IsStart, row_at, rows_from};
ghost use Rattle.sg_relations_theory.specs.Relations.{AreExponents};
ghost use Rattle.sg_algebra.proofs.ValueField.{ValueF};
ghost use Rattle.sg_tower_theory.specs.Powers.{power, powers};
ghost use Rattle.sg_relations.specs.Signs.{HasSign};
ghost use Rattle.sg_relations.specs.declared.numbers.Column.{Column};

use sg_num::{Rat, Row, Stop, gcd_of, whole_sum};
use std::alloc::Global;

/// A whole number of at least 1, and its exponent in each of some elements.
#[derive(Drop)]
pub(crate) struct Column {
    pub(crate) base: u128,
    pub(crate) exps: Row<i128>,
}

// The first column whose number has a common divisor above 1 with w.
fn meeting(standing: &[Column], w: u128) -> Option<usize>
    ensures some { IfSome result (λ j. j < length standing.now) }
    ensures met { IfSome result (λ j. (d : Column) → ¬ (gcd w (get_or standing.now j d).base ≡ 1)) }
    ensures none { IsNone result → All (λ c. gcd w c.base ≡ 1) standing.now }
{
    for j in 0..standing.len() {
        if gcd_of(w, standing[j].base) != 1 {
            return Some(j);
        }
    }
    None
}

// The sum of two rows of one length.
pub(crate) fn sums(alloc: Global, a: &[i128], b: &[i128]) -> Result<Row<i128>, Stop>
    requires { length a.now ≡ length b.now }
    ensures value { IfOk result (λ r. r ≡ sum_row a.now b.now) }
    ensures wide { IfErr result KeepsWideStep }
{
    let mut row = Row::new(alloc);
    for i in 0..a.len() {
        let x = a[i];
        let y = b[i];
        let sum = whole_sum(x, y)?;
        row.push(sum)?;
    }
    Ok(row)
}

// One step: the column w is dropped where its number is 1; it stands from now on, where its number is coprime to all that
// stand; else it and the one that it meets are split by their greatest common divisor, and the pieces wait.
fn step(
    alloc: Global,
    count: usize,
    w: Column,
    waiting: &mut Row<Column>,
    standing: &mut Row<Column>,
) -> Result<(), Stop>
    requires some { 0 < w.base }
    requires positive { All IsPositive waiting.old }
    requires proper { All IsProper standing.old }
    requires coprime { AllPairs AreCoprime standing.old }
    requires own_width { HasWidth count w }
    requires waiting_width { All (HasWidth count) waiting.old }
    requires standing_width { All (HasWidth count) standing.old }
    ensures value { OnOk result (IsStep count w waiting.old standing.old waiting.new standing.new) }
    ensures wide { IfErr result KeepsWideStep }
{
    if w.base == 1 {
        return Ok(());
    }
    let Some(j) = meeting(standing.as_slice(), w.base) else {
        standing.push(w)?;
        return Ok(());
    };
    let b = standing.remove(j);
    let g = gcd_of(w.base, b.base);
    let exps = sums(alloc, w.exps.as_slice(), b.exps.as_slice())?;
    waiting.push(Column { base: g, exps })?;
    waiting.push(Column {
        base: b.base / g,
        exps: b.exps,
    })?;
    waiting.push(Column {
        base: w.base / g,
        exps: w.exps,
    })?;
    Ok(())
}

/// Pairwise coprime numbers above 1 with exponents, with the same products: of columns of numbers of at least 1 (Bernstein 2005
/// and others: a coprime base by greatest common divisors alone).
pub(crate) fn refined(
    alloc: Global,
    count: usize,
    columns: Row<Column>,
) -> Result<Row<Column>, Stop>
    requires positive { All IsPositive columns }
    requires width { All (HasWidth count) columns }
    ensures coprime { IfOk result (AllPairs AreCoprime) }
    ensures proper { IfOk result (All IsProper) }
    ensures width { IfOk result (All (HasWidth count)) }
    ensures kept { IfOk result (λ r. (i : ℕ) → product_at r i ≡ product_at columns i) }
    ensures wide { IfErr result KeepsWideStep }
{
    let mut waiting = columns;
    let mut standing = Row::new(alloc);
    while !waiting.is_empty() {
        let last = waiting.len() - 1;
        let w = waiting.remove(last);
        step(alloc, count, w, &mut waiting, &mut standing)?;
    }
    Ok(standing)
}

// The row of `count` exponents that are 0 but for `e` at `place`.
pub(crate) fn unit(alloc: Global, count: usize, place: usize, e: i128) -> Result<Row<i128>, Stop>
    requires { place < count }
    ensures value { IfOk result (IsUnit count place e) }
    ensures wide { IfErr result KeepsWideStep }
{
    let mut row = Row::new(alloc);
    for j in 0..count {
        row.push(if j == place { e } else { 0 })?;
    }
    Ok(row)
}

// Adds the numerator's size with the exponent 1 and the denominator with -1, at `place`.
fn add_parts(
    alloc: Global,
    count: usize,
    place: usize,
    r: Rat,
    columns: &mut Row<Column>,
) -> Result<(), Stop>
    requires inside { place < count }
    requires some { ¬ ((fraction r).num ≡ pos 0) }
    ensures value { OnOk result (IsAdded count place r columns.old columns.new) }
    ensures wide { IfErr result KeepsWideStep }
{
    let upper = unit(alloc, count, place, 1)?;
    columns.push(Column {
        base: r.num().unsigned_abs(),
        exps: upper,
    })?;
    let lower = unit(alloc, count, place, -1)?;
    columns.push(Column {
        base: r.den().unsigned_abs(),
        exps: lower,
    })?;
    Ok(())
}

// The numerators and denominators of all fractions, with their exponents.
fn started(alloc: Global, list: &Row<Rat>) -> Result<Row<Column>, Stop>
    requires { All (λ r. ¬ ((fraction r).num ≡ pos 0)) list.now }
    ensures value { IfOk result (IsStart (length list.now) (length list.now) list.now) }
    ensures wide { IfErr result KeepsWideStep }
{
    let mut columns = Row::new(alloc);
    for i in 0..list.len() {
        let r = *list.get(i);
        add_parts(alloc, list.len(), i, r, &mut columns)?;
    }
    Ok(columns)
}

// The exponents of all columns in one element.
fn row_of(
    alloc: Global,
    columns: &Row<Column>,
    count: usize,
    place: usize,
) -> Result<Row<i128>, Stop>
    requires inside { place < count }
    requires width { All (HasWidth count) columns.now }
    ensures value { IfOk result (λ r. r ≡ row_at columns.now place) }
    ensures wide { IfErr result KeepsWideStep }
{
    let mut row = Row::new(alloc);
    for c in 0..columns.len() {
        let exponent = *columns.get(c).exps.get(place);
        row.push(exponent)?;
    }
    Ok(row)
}

// The rows of all elements.
fn rows_of(alloc: Global, columns: &Row<Column>, count: usize) -> Result<Row<Row<i128>>, Stop>
    requires { All (HasWidth count) columns.now }
    ensures value { IfOk result (λ r. r ≡ rows_from columns.now 0 count) }
    ensures wide { IfErr result KeepsWideStep }
{
    let mut rows = Row::new(alloc);
    for i in 0..count {
        let row = row_of(alloc, columns, count, i)?;
        rows.push(row)?;
    }
    Ok(rows)
}

/// One row of exponents for each fraction, over pairwise coprime whole numbers above 1: a product of powers of the fractions,
/// none of which is 0, is 1 or -1 exactly where the sum of the rows, times the exponents, is 0.
pub fn exponents(alloc: Global, list: &Row<Rat>) -> Result<Row<Row<i128>>, Stop>
    requires { All (λ r. ¬ ((fraction r).num ≡ pos 0)) list.now }
    ensures value { IfOk result (AreExponents (map number list.now)) }
    ensures wide { IfErr result KeepsWideStep }
{
    let columns = started(alloc, list)?;
    let basis = refined(alloc, list.len(), columns)?;
    let rows = rows_of(alloc, &basis, list.len())?;
    Ok(rows)
}

/// Whether the product of the powers of some fractions, none of which is 0, is negative: whether an odd number of odd exponents
/// stands at negative ones. No power is multiplied out.
pub(crate) fn is_negative(list: &[Rat], exps: &[i128]) -> bool
    requires some { All (λ r. ¬ ((fraction r).num ≡ pos 0)) list.now }
    requires sized { length exps.now ≡ length list.now }
    ensures value { HasSign result (powers (ValueF 0) (map number list.now) exps.now) }
{
    let mut negative = false;
    for i in 0..list.len() {
        if is_odd_below(list[i], exps[i]) {
            negative = !negative;
        }
    }
    negative
}

// Whether the power of a fraction, which isn't 0, is negative: whether the fraction is negative and the exponent odd.
fn is_odd_below(r: Rat, e: i128) -> bool
    requires { ¬ ((fraction r).num ≡ pos 0) }
    ensures value { HasSign result (power (ValueF 0) (number r) e) }
{
    if !is_below(r.num()) {
        return false;
    }
    e.unsigned_abs() % 2 == 1
}

// Whether the number is below 0.
fn is_below(n: i128) -> bool
    ensures { IsTrue result ↔ (n <ℤ pos 0) }
{
    n < 0
}
