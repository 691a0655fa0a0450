ghost use Rattle.std.specs.Prelude.{◌≡◌, ℤ, pos, neg_ℤ, ◌≤ℤ◌, ◌<ℤ◌, ◌↔◌, map, All, AllPairs, Contains, OnOk, IfOk, IfErr};
ghost use Rattle.sg_algebra.proofs.Polynomial.{poly, zero_polynomial};
ghost use Rattle.sg_num.specs.Roots.{IsRoot, AreRoots};
ghost use Rattle.sg_num.specs.Stopped.{KeepsWideStep};
ghost use Rattle.sg_num.specs.Value.{number};
ghost use Rattle.sg_roots.specs.Signs.{IsSmall, KeepsSign, ArePieces, reach};

use crate::pieces::{pieces, start_at};
use crate::signs::sign_at;
use sg_num::{Rat, Row, Stop, cleared, common_denominator};
use std::alloc::Global;

/// The whole roots of the polynomial other than 0 with these coefficients, the lowest first, in ascending order, however far from
/// 0 they are. The coefficients are made whole. Where the differences of neighbours have one sign the values don't fall, or don't
/// rise, so the numbers are cut into pieces where the differences change their sign, and these pieces where the values do, which is
/// found by bisecting; the differences of the differences come first, and so on. It stops at a kept step that doesn't fit, which
/// none does where the coefficients, and those of the differences, fit eight times, but one on the way to the values at 0, 1 and -1.
pub fn far_roots(alloc: Global, list: &[Rat]) -> Result<Row<i128>, Stop>
    requires { ¬ (poly (map number list.now) ≡ zero_polynomial) }
    ensures ascending { IfOk result (AllPairs ◌<ℤ◌) }
    ensures roots { IfOk result (λ r. (m : ℤ) → Contains r m ↔ IsRoot (map number list.now) m) }
    ensures wide { IfErr result KeepsWideStep }
{
    let multiple = common_denominator(list)?;
    let whole = cleared(alloc, list, multiple)?;
    let starts = pieces(alloc, whole.as_slice())?;
    let r = zeros(alloc, whole.as_slice(), starts.as_slice())?;
    Ok(r)
}

// The numbers on the pieces where the values are 0.
fn zeros(alloc: Global, list: &[i128], starts: &[i128]) -> Result<Row<i128>, Stop>
    requires small { All IsSmall list.now }
    requires pieces { ArePieces list.now (neg_ℤ (pos reach)) (pos reach) starts.now }
    ensures value { IfOk result (AreRoots list.now (neg_ℤ (pos reach)) (pos reach)) }
    ensures wide { IfErr result KeepsWideStep }
{
    let mut row = Row::new(alloc);
    for i in 0..starts.len() {
        add_zeros(list, starts[i], start_at(starts, i + 1), &mut row)?;
    }
    Ok(row)
}

// Adds the numbers of a piece, if the values on it are 0.
fn add_zeros(list: &[i128], low: i128, high: i128, row: &mut Row<i128>) -> Result<(), Stop>
    requires small { All IsSmall list.now }
    requires up { low <ℤ high }
    requires from { neg_ℤ (pos reach) ≤ℤ low }
    requires keeps { KeepsSign list.now low high }
    ensures value { OnOk result (AreRoots list.now (neg_ℤ (pos reach)) low row.old → AreRoots list.now (neg_ℤ (pos reach)) high row.new) }
    ensures wide { IfErr result KeepsWideStep }
{
    if sign_at(list, low)? == 0 {
        for m in low..high {
            row.push(m)?;
        }
    }
    Ok(())
}
