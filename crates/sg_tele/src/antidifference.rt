ghost use Rattle.std.specs.Prelude.{◌≡◌, IfOk, IfErr, IfSome, IfNone, [], ◌∷◌};
ghost use Rattle.sg_algebra.specs.Coefficients.{Each};
ghost use Rattle.sg_num.specs.Stopped.{KeepsWideStep};
ghost use Rattle.sg_tower.specs.Elements.{IsNewSum};
ghost use Rattle.sg_tele.specs.Telescoping.{IsAntidifference, IsScaledToOne, IsScaledOf, StartsWithZero};

use sg_matrix::Solution;
use sg_num::{Field, Row, Stop};
use sg_tower::Tower;
use std::alloc::Global;

/// An element g with σ(g) - g = f; None exactly where no element of the tower has this difference, so that a sum that grows
/// by f is a new one (Karr 1981).
pub fn telescope<T: Tower>(alloc: Global, tower: &T, f: &T::Elem) -> Result<Option<T::Elem>, Stop>
    ensures some { IfOk result (λ o. IfSome o (IsAntidifference (T.reading T.K.vars T.K.val tower.now) f.now)) }
    ensures none { IfOk result (λ o. IfNone o (IsNewSum (T.reading T.K.vars T.K.val tower.now) f.now)) }
    ensures wide { IfErr result KeepsWideStep }
{
    let copy = tower.copy(alloc, f)?;
    let fs = single(alloc, copy)?;
    let rows = tower.solve(alloc, &fs)?;
    let found = first_scaled(alloc, tower, &rows)?;
    Ok(found)
}

// The list of one item.
fn single<E: Drop>(alloc: Global, a: E) -> Result<Row<E>, Stop>
    ensures value { IfOk result (λ r. r ≡ a ∷ []) }
    ensures wide { IfErr result KeepsWideStep }
{
    let mut r = Row::new(alloc);
    r.push(a)?;
    Ok(r)
}

// The element of the first solution whose first constant isn't 0, over that constant; None where there is none.
fn first_scaled<T: Tower>(
    alloc: Global,
    tower: &T,
    rows: &Row<Solution<T::K, T::Elem>>,
) -> Result<Option<T::Elem>, Stop>
    ensures some { IfOk result (λ o. IfSome o (IsScaledOf (T.reading T.K.vars T.K.val tower.now) T.K.val rows.now)) }
    ensures none { IfOk result (λ o. IfNone o (Each (StartsWithZero T.K.val) rows.now)) }
    ensures wide { IfErr result KeepsWideStep }
{
    for i in 0..rows.len() {
        let found = scaled_to_one(alloc, tower, rows.get(i))?;
        match found {
            Some(g) => return Ok(Some(g)),
            None => {}
        }
    }
    Ok(None)
}

// The solution's element over its first constant; None where that is 0.
fn scaled_to_one<T: Tower>(
    alloc: Global,
    tower: &T,
    row: &Solution<T::K, T::Elem>,
) -> Result<Option<T::Elem>, Stop>
    ensures some { IfOk result (λ o. IfSome o (IsScaledToOne (T.reading T.K.vars T.K.val tower.now) T.K.val row.now)) }
    ensures none { IfOk result (λ o. IfNone o (StartsWithZero T.K.val row.now)) }
    ensures wide { IfErr result KeepsWideStep }
{
    if row.coeffs.is_empty() {
        return Ok(None);
    }
    let c = row.coeffs.get(0);
    if c.is_zero() {
        return Ok(None);
    }
    let one = T::K::one(alloc)?;
    let factor = one.div(alloc, c)?;
    let g = tower.scale(alloc, &factor, &row.value)?;
    Ok(Some(g))
}
