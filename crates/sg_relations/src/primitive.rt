//! The shortest vector of whole numbers along a vector of fractions.
ghost use Rattle.std.specs.Prelude.{◌≡◌, pos, unsigned_abs, IfOk, IfErr};
ghost use Rattle.sg_num.specs.Stopped.{IsTooWide, KeepsWideStep};
ghost use Rattle.sg_relations.specs.Shortest.{IsShortest};

use sg_num::{Rat, Row, Stop, Wide, cleared, common_denominator, whole_difference};
use std::alloc::Global;

/// The vector times the least common multiple of its denominators.
pub(crate) fn shortest(alloc: Global, list: &[Rat]) -> Result<Row<i128>, Stop>
    ensures value { IfOk result (IsShortest list.now) }
    ensures wide { IfErr result KeepsWideStep }
{
    let multiple = common_denominator(list)?;
    let least = without_sign(multiple)?;
    let row = cleared(alloc, list, least)?;
    Ok(row)
}

// The size of a number.
fn without_sign(n: i128) -> Result<i128, Wide>
    ensures value { IfOk result (λ r. r ≡ pos (unsigned_abs n)) }
    ensures wide { IfErr result IsTooWide }
{
    if n >= 0 {
        return Ok(n);
    }
    let size = whole_difference(0, n)?;
    Ok(size)
}
