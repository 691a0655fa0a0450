ghost use Rattle.std.specs.Prelude.{IfOk, IfErr};
ghost use Rattle.sg_algebra.specs.Coefficients.{Each};
ghost use Rattle.sg_num.specs.Stopped.{KeepsWideStep};
ghost use Rattle.sg_tower.specs.Elements.{IsZero, AllSolve, IsComplete};
ghost use Rattle.sg_sums.specs.Polynomials.{IsTrivial};

use crate::sums::zero_from;
use sg_matrix::{Solution, unit_row};
use sg_num::{Row, Stop};
use sg_tower::Tower;
use std::alloc::Global;

// All solutions below. Where the right sides are 0 the tower isn't asked: only its constants have the difference 0.
pub(crate) fn all_solutions<T: Tower>(
    alloc: Global,
    below: &T,
    ls: &Row<T::Elem>,
) -> Result<Row<Solution<T::K, T::Elem>>, Stop>
    ensures sound { IfOk result (AllSolve (T.reading T.K.vars T.K.val below.now) T.K.val ls.now) }
    ensures complete { IfOk result (IsComplete (T.reading T.K.vars T.K.val below.now) T.K.val ls.now) }
    ensures wide { IfErr result KeepsWideStep }
{
    if zero_from(below, ls, 0) {
        let rows = constants(alloc, below, ls)?;
        return Ok(rows);
    }
    let rows = below.solve(alloc, ls)?;
    Ok(rows)
}

// The solutions where the right sides are 0: the element 1, and each constant with the element 0.
fn constants<T: Tower>(
    alloc: Global,
    below: &T,
    ls: &Row<T::Elem>,
) -> Result<Row<Solution<T::K, T::Elem>>, Stop>
    requires zero { Each (IsZero (T.reading T.K.vars T.K.val below.now)) ls.now }
    ensures value { IfOk result (IsTrivial (T.reading T.K.vars T.K.val below.now) T.K.val ls.now ls.now) }
    ensures wide { IfErr result KeepsWideStep }
{
    let one = below.one(alloc)?;
    let mut rows = Row::new(alloc);
    rows.push(Solution {
        coeffs: Row::new(alloc),
        value: one,
    })?;
    for i in 0..ls.len() {
        let coeffs = unit_row(alloc, ls.len(), i)?;
        let value = below.copy(alloc, ls.get(i))?;
        rows.push(Solution { coeffs, value })?;
    }
    Ok(rows)
}
