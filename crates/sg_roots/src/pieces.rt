//! Pieces of the whole numbers on each of which the values of a polynomial have one sign.
ghost use Rattle.std.specs.Prelude.{◌≡◌, ◌+◌, ◌<◌, ◌≤◌, ℤ, pos, neg_ℤ, ◌≤ℤ◌, ◌<ℤ◌, [], ◌∷◌, All, get_or, length, OnOk, IfOk, IfErr, IsTrue};
ghost use Rattle.sg_num.specs.Roots.{whole_at};
ghost use Rattle.sg_num.specs.Stopped.{IsTooWide, KeepsWideStep};
ghost use Rattle.sg_roots.specs.Signs.{IsSameSign, IsSmall, IsMonotone, KeepsSign, ArePieces, AreMonotonePieces, reach};

use crate::differences::differences;
use crate::signs::{have_same_sign, sign_at};
use sg_num::{Row, Stop, Wide, whole_product};
use std::alloc::{AllocError, Global};

// No root of a polynomial whose coefficients are small reaches this in size: 2^125.
const REACH: i128 = 42535295865117307932921825928971026432;

/// The starts of pieces from -2^125 on and below 2^125 on each of which the values have one sign. Where the differences of
/// neighbours have one sign the values don't fall, or don't rise, so their changes of sign are found by bisecting.
#[cycle(pieces)]
pub(crate) fn pieces(alloc: Global, list: &[i128]) -> Result<Row<i128>, Stop>
    ensures small { IfOk result (λ r. All IsSmall list.now) }
    ensures value { IfOk result (ArePieces list.now (neg_ℤ (pos reach)) (pos reach)) }
    ensures wide { IfErr result KeepsWideStep }
{
    are_small(list)?;
    if list.len() < 2 {
        let r = whole_reach(alloc)?;
        return Ok(r);
    }
    let slope = differences(alloc, list)?;
    let coarse = pieces(alloc, slope.as_slice())?;
    let r = refined(alloc, list, coarse.as_slice())?;
    Ok(r)
}

// Stops where eight times a coefficient doesn't fit: then it may not be small.
fn are_small(list: &[i128]) -> Result<(), Wide>
    ensures small { IfOk result (λ r. All IsSmall list.now) }
    ensures wide { IfErr result IsTooWide }
{
    for i in 0..list.len() {
        whole_product(list[i], 8)?;
    }
    Ok(())
}

// One piece.
fn whole_reach(alloc: Global) -> Result<Row<i128>, AllocError>
    ensures { IfOk result (λ r. r ≡ neg_ℤ (pos reach) ∷ []) }
{
    let mut row = Row::new(alloc);
    row.push(-REACH)?;
    Ok(row)
}

// The pieces cut where the sign of the values changes.
fn refined(alloc: Global, list: &[i128], coarse: &[i128]) -> Result<Row<i128>, Stop>
    requires small { All IsSmall list.now }
    requires pieces { AreMonotonePieces list.now (neg_ℤ (pos reach)) (pos reach) coarse.now }
    ensures value { IfOk result (ArePieces list.now (neg_ℤ (pos reach)) (pos reach)) }
    ensures wide { IfErr result KeepsWideStep }
{
    let mut row = Row::new(alloc);
    for i in 0..coarse.len() {
        cut(list, coarse[i], start_at(coarse, i + 1), &mut row)?;
    }
    Ok(row)
}

/// The start of a piece; past the last, where they end.
pub(crate) fn start_at(starts: &[i128], i: usize) -> i128
    ensures { result ≡ get_or starts.now i (pos reach) }
{
    if i < starts.len() { starts[i] } else { REACH }
}

// Adds the pieces of the numbers from `low` on and below `high`, where the values don't fall, or don't rise.
fn cut(list: &[i128], low: i128, high: i128, row: &mut Row<i128>) -> Result<(), Stop>
    requires small { All IsSmall list.now }
    requires up { low <ℤ high }
    requires from { neg_ℤ (pos reach) ≤ℤ low }
    requires to { high ≤ℤ pos reach }
    requires monotone { IsMonotone list.now low high }
    ensures value { OnOk result (ArePieces list.now (neg_ℤ (pos reach)) low row.old → ArePieces list.now (neg_ℤ (pos reach)) high row.new) }
    ensures wide { IfErr result KeepsWideStep }
{
    let mut at = low;
    while at < high {
        let next = change(list, at, high)?;
        row.push(at)?;
        at = next;
    }
    Ok(())
}

// A number above `low` below which the values have the sign of that at `low`: the greatest, where it is below `high`.
fn change(list: &[i128], low: i128, high: i128) -> Result<i128, Wide>
    requires small { All IsSmall list.now }
    requires up { low <ℤ high }
    requires from { neg_ℤ (pos reach) ≤ℤ low }
    requires to { high ≤ℤ pos reach }
    requires monotone { IsMonotone list.now low high }
    ensures above { IfOk result (λ r. low <ℤ r) }
    ensures within { IfOk result (λ r. r ≤ℤ high) }
    ensures keeps { IfOk result (KeepsSign list.now low) }
    ensures wide { IfErr result IsTooWide }
{
    let mut at = low;
    let mut step: u128 = REACH.unsigned_abs();
    while step > 0 {
        at = moved(list, low, high, at, step)?;
        step /= 2;
    }
    Ok(at + 1)
}

// The number `step` further on, if it is below `high` and the value has the sign of that at `low` there too.
fn moved(list: &[i128], low: i128, high: i128, at: i128, step: u128) -> Result<i128, Wide>
    requires small { All IsSmall list.now }
    requires to { high ≤ℤ pos reach }
    requires up { at <ℤ high }
    requires within { step ≤ reach }
    requires same { IsSameSign (whole_at list.now low) (whole_at list.now at) }
    ensures up { IfOk result (λ r. r <ℤ high) }
    ensures on { IfOk result (λ r. at ≤ℤ r) }
    ensures same { IfOk result (λ r. IsSameSign (whole_at list.now low) (whole_at list.now r)) }
    ensures wide { IfErr result IsTooWide }
{
    let next = at + step as i128;
    if next < high {
        let sign = sign_at(list, low)?;
        if have_same_sign(sign, sign_at(list, next)?) {
            return Ok(next);
        }
    }
    Ok(at)
}
