//! Fractions that may be roots of a polynomial over the fractions: guesses, of which nothing is promised.
ghost use Rattle.std.specs.Prelude.{◌<◌, length, IfErr};
ghost use Rattle.sg_num.specs.Stopped.{KeepsWideStep};

use crate::clear::{cleared, common_denominator};
use crate::rat::Rat;
use crate::row::Row;
use crate::scan::{bound, scanned};
use crate::step::Stop;
use crate::unit::{common_unit, in_unit};
use std::alloc::Global;

// Numbers are tried below this: a greater bound finds hardly more, and takes longer.
const MOST: u32 = 8192;

/// The roots that are whole in the least unit that makes the coefficients whole once the last one is 1.
pub(crate) fn guessed(alloc: Global, p: &[Rat]) -> Result<Row<Rat>, Stop>
    ensures wide { IfErr result KeepsWideStep }
{
    let monic = over_last(alloc, p)?;
    let unit = common_unit(monic.as_slice(), &[]);
    let scaled = in_unit(alloc, monic.as_slice(), Rat::whole(unit))?;
    let list = scaled.as_slice();
    let multiple = common_denominator(list)?;
    let whole = cleared(alloc, list, multiple)?;
    if whole.is_empty() {
        return Ok(Row::new(alloc));
    }
    let roots = scanned_below(alloc, whole.as_slice())?;
    let r = over_unit(alloc, roots.as_slice(), unit)?;
    Ok(r)
}

// The coefficients over the last one; none where that is 0.
fn over_last(alloc: Global, p: &[Rat]) -> Result<Row<Rat>, Stop>
    ensures wide { IfErr result KeepsWideStep }
{
    let mut row = Row::new(alloc);
    if p.is_empty() {
        return Ok(row);
    }
    let lead = p[p.len() - 1];
    if lead.is_zero() {
        return Ok(row);
    }
    for i in 0..p.len() {
        row.push(p[i].over(lead)?)?;
    }
    Ok(row)
}

// The whole roots below the least bound that is found, or below the greatest that is tried.
fn scanned_below(alloc: Global, list: &[i128]) -> Result<Row<i128>, Stop>
    requires { 0 < length list.now }
    ensures wide { IfErr result KeepsWideStep }
{
    let b = match bound(list, MOST) {
        Some(b) => b,
        None => MOST,
    };
    let r = scanned(alloc, list, b)?;
    Ok(r)
}

// The numbers over the unit.
fn over_unit(alloc: Global, roots: &[i128], unit: i128) -> Result<Row<Rat>, Stop>
    ensures wide { IfErr result KeepsWideStep }
{
    let mut row = Row::new(alloc);
    for m in roots {
        if let Some(r) = Rat::new(*m, unit) {
            row.push(r)?;
        }
    }
    Ok(row)
}
