//! Lists of whole numbers. Each operation is a step of fractions, so that one that doesn't fit is kept.
ghost use Rattle.std.specs.Prelude.{◌≡◌, ◌*ℤ◌, neg_ℤ, map, IfOk, IfErr};
ghost use Rattle.sg_algebra.specs.Coefficients.{Each};
ghost use Rattle.sg_num.specs.Stopped.{IsMemory, KeepsWideStep};
ghost use Rattle.sg_canonical.specs.Whole.{IsSmall};

use sg_num::{Row, Stop, whole_difference, whole_product};
use std::alloc::Global;

/// The opposites of all numbers of a list.
pub fn opposites(alloc: Global, list: &[i128]) -> Result<Row<i128>, Stop>
    ensures value { IfOk result (λ r. r ≡ map neg_ℤ list.now) }
    ensures wide { IfErr result KeepsWideStep }
    ensures narrow { Each IsSmall list.now → IfErr result IsMemory }
{
    let mut result = Row::new(alloc);
    for a in list {
        let r = opposite(*a)?;
        result.push(r)?;
    }
    Ok(result)
}

/// The opposite of a number, Wide for -2^127 alone.
pub fn opposite(a: i128) -> Result<i128, Stop>
    ensures value { IfOk result (λ r. r ≡ neg_ℤ a) }
    ensures wide { IfErr result KeepsWideStep }
    ensures narrow { IsSmall a → IfErr result IsMemory }
{
    if a != i128::MIN {
        return Ok(-a);
    }
    let r = whole_difference(0, a)?;
    Ok(r)
}

/// All numbers of a list times b.
pub fn multiples(alloc: Global, list: &[i128], b: i128) -> Result<Row<i128>, Stop>
    ensures value { IfOk result (λ r. r ≡ map (λ a. a *ℤ b) list.now) }
    ensures wide { IfErr result KeepsWideStep }
{
    let mut result = Row::new(alloc);
    for a in list {
        let r = whole_product(*a, b)?;
        result.push(r)?;
    }
    Ok(result)
}
