//! The shifts at which two polynomials over the fractions meet, without confirmation.
ghost use Rattle.std.specs.Prelude.{◌≡◌, ◌≤◌, ◌↔◌, ◌⊎◌, ℤ, pos, ◌<ℤ◌, ◌-ℤ◌, ◌*ℤ◌, AllPairs, Contains, length, map, take, drop, OnOk, IfOk, IfErr};
ghost use Rattle.sg_algebra.proofs.Degree.{Monic};
ghost use Rattle.sg_algebra.proofs.Polynomial.{poly, zero_polynomial};
ghost use Rattle.sg_algebra.proofs.Rational.{whole_value};
ghost use Rattle.sg_algebra.proofs.ValueField.{ValueR};
ghost use Rattle.sg_num.specs.Scaled.{scaled};
ghost use Rattle.sg_num.specs.Stopped.{KeepsWideStep};
ghost use Rattle.sg_num.specs.Value.{number};
ghost use Rattle.sg_spread.specs.Lists.{IsKept, IsQuotientKept};
ghost use Rattle.sg_spread.specs.Shifts.{Meets};

use crate::radical::eliminated_without_repeated;
use crate::split::split;
use sg_num::{Rat, Row, Stop, common_unit, in_unit, whole_difference, whole_quotient};
use sg_poly::Poly;
use std::alloc::{AllocError, Global};

// The shifts at which two polynomials other than 0 meet: the first n numbers are the coefficients of the one, the others
// those of the other.
pub(crate) fn shifts_of_values(alloc: Global, values: &[Rat], n: usize) -> Result<Row<i128>, Stop>
    requires inside { n ≤ length values.now }
    requires left { ¬ (poly (map number (take n values.now)) ≡ zero_polynomial) }
    requires right { ¬ (poly (map number (drop n values.now)) ≡ zero_polynomial) }
    ensures ascending { IfOk result (AllPairs ◌<ℤ◌) }
    ensures shifts { IfOk result (λ r. (m : ℤ) → Contains r m ↔ Meets (map number (take n values.now)) (map number (drop n values.now)) m) }
    ensures wide { IfErr result KeepsWideStep }
{
    let (a, b) = values.split_at(n);
    let c = common_unit(a, b);
    let left = scaled_poly(alloc, a, c)?;
    let right = scaled_poly(alloc, b, c)?;
    let list = meetings(alloc, &left, &right)?;
    let shifts = divided(alloc, list.as_slice(), c)?;
    Ok(shifts)
}

// The polynomial c^n p(k/c), where n is the degree.
fn scaled_poly(alloc: Global, list: &[Rat], c: i128) -> Result<Poly<Rat>, Stop>
    ensures value { IfOk result (λ r. poly (map number r) ≡ poly (scaled (ValueR 0) (whole_value 0 c) (map number list.now))) }
    ensures wide { IfErr result KeepsWideStep }
{
    let row = in_unit(alloc, list, Rat::whole(c))?;
    let p = Poly::from_coeffs(alloc, row)?;
    Ok(p)
}

// The shifts at which two polynomials over the fractions meet: the differences of their whole roots, and the shifts at
// which what is left of them meets.
pub(crate) fn meetings(alloc: Global, a: &Poly<Rat>, b: &Poly<Rat>) -> Result<Row<i128>, Stop>
    requires left { ¬ (poly (map number a.now) ≡ zero_polynomial) }
    requires right { ¬ (poly (map number b.now) ≡ zero_polynomial) }
    ensures ascending { IfOk result (AllPairs ◌<ℤ◌) }
    ensures shifts { IfOk result (λ r. (m : ℤ) → Contains r m ↔ Meets (map number a.now) (map number b.now) m) }
    ensures wide { IfErr result KeepsWideStep }
{
    let left = split(alloc, a)?;
    let right = split(alloc, b)?;
    let list = eliminated_without_repeated(alloc, &left.rest, &right.rest)?;
    let all = with_all_differences(alloc, list, left.roots.as_slice(), right.roots.as_slice())?;
    Ok(all)
}

// The list with the differences of numbers of `s` to numbers of `r`.
fn with_all_differences(
    alloc: Global,
    list: Row<i128>,
    r: &[i128],
    s: &[i128],
) -> Result<Row<i128>, Stop>
    requires { AllPairs ◌<ℤ◌ list }
    ensures ascending { IfOk result (AllPairs ◌<ℤ◌) }
    ensures items { IfOk result (λ l. (x : ℤ) → Contains l x ↔ (Contains list x ⊎ ((z : ℤ) × Contains r.now z × ((y : ℤ) × Contains s.now y × (x ≡ y -ℤ z))))) }
    ensures wide { IfErr result KeepsWideStep }
{
    let mut row = list;
    for i in 0..r.len() {
        let z = r[i];
        row = with_differences(alloc, row, z, s)?;
    }
    Ok(row)
}

// The list with the differences to `r` of these numbers.
fn with_differences(alloc: Global, list: Row<i128>, r: i128, s: &[i128]) -> Result<Row<i128>, Stop>
    requires { AllPairs ◌<ℤ◌ list }
    ensures ascending { IfOk result (AllPairs ◌<ℤ◌) }
    ensures items { IfOk result (λ l. (x : ℤ) → Contains l x ↔ (Contains list x ⊎ ((y : ℤ) × Contains s.now y × (x ≡ y -ℤ r)))) }
    ensures wide { IfErr result KeepsWideStep }
{
    let mut row = list;
    for i in 0..s.len() {
        let y = s[i];
        let m = whole_difference(y, r)?;
        row = inserted(alloc, row.as_slice(), m)?;
    }
    Ok(row)
}

// The list with this number in its place.
fn inserted(alloc: Global, list: &[i128], m: i128) -> Result<Row<i128>, AllocError>
    requires { AllPairs ◌<ℤ◌ list.now }
    ensures ascending { IfOk result (AllPairs ◌<ℤ◌) }
    ensures items { IfOk result (λ r. (x : ℤ) → Contains r x ↔ (Contains list.now x ⊎ (x ≡ m))) }
{
    let mut row = Row::new(alloc);
    for i in 0..list.len() {
        let v = list[i];
        keep_below(&mut row, v, m)?;
    }
    row.push(m)?;
    for i in 0..list.len() {
        let v = list[i];
        keep_above(&mut row, v, m)?;
    }
    Ok(row)
}

// Adds a number below `m`.
fn keep_below(row: &mut Row<i128>, v: i128, m: i128) -> Result<(), AllocError>
    ensures { OnOk result (IsKept (v <ℤ m) v row.old row.new) }
{
    if v < m {
        row.push(v)?;
    }
    Ok(())
}

// Adds a number above `m`.
fn keep_above(row: &mut Row<i128>, v: i128, m: i128) -> Result<(), AllocError>
    ensures { OnOk result (IsKept (m <ℤ v) v row.old row.new) }
{
    if m < v {
        row.push(v)?;
    }
    Ok(())
}

// The numbers whose products by `c` are in the list.
fn divided(alloc: Global, list: &[i128], c: i128) -> Result<Row<i128>, Stop>
    requires some { pos 0 <ℤ c }
    requires ascending { AllPairs ◌<ℤ◌ list.now }
    ensures ascending { IfOk result (AllPairs ◌<ℤ◌) }
    ensures items { IfOk result (λ r. (m : ℤ) → Contains r m ↔ Contains list.now (c *ℤ m)) }
    ensures wide { IfErr result KeepsWideStep }
{
    let mut row = Row::new(alloc);
    for i in 0..list.len() {
        let v = list[i];
        keep_quotient(&mut row, v, c)?;
    }
    Ok(row)
}

// Adds the quotient by `c`, where it is whole.
fn keep_quotient(row: &mut Row<i128>, v: i128, c: i128) -> Result<(), Stop>
    requires { pos 0 <ℤ c }
    ensures value { OnOk result (IsQuotientKept c v row.old row.new) }
    ensures wide { IfErr result KeepsWideStep }
{
    match whole_quotient(v, c)? {
        Some(q) => row.push(q)?,
        None => {}
    }
    Ok(())
}
