ghost use Rattle.std.specs.Prelude.{◌≡◌, ℕ, suc, ◌+◌, ◌<◌, length, get_or, map, All, IfOk, IfErr, IfSome, IfNone};
ghost use Rattle.sg_algebra.specs.Coefficients.{Each};
ghost use Rattle.sg_algebra.proofs.Value.{Value};
ghost use Rattle.sg_num.specs.Stopped.{KeepsWideStep};
ghost use Rattle.sg_spec.specs.Tree.{here};
ghost use Rattle.sg_expr.specs.Tree.{tree_of};
ghost use Rattle.sg_spec.specs.Worth.{HasWorth};
ghost use Rattle.sg_build.specs.Letters.{letter, HasNoLetter};
ghost use Rattle.sg_depth.specs.Commands.{AreSound, AreNewSums, StandsOverAll, sums_of};
ghost use Rattle.sg_depth.specs.Building.{IsBuilt, HasStart, IsConstant, IsLevelledTo, IsRaisedBy, AreStartValues, HasAtStart, HasNoneAtStart};

use crate::towers::Built;
use sg_build::{Letters, elem_at, value_in};
use sg_expr::Expr;
use sg_limits::Facts;
use sg_num::{Row, Stop};
use sg_tower::Tower;
use std::alloc::{AllocError, Global};

/// The element `y` with the constant that gives it at the start the value of the sum.
pub fn levelled<F: Letters, T: Tower<K = F>>(
    alloc: Global,
    built: &Built<'_, T>,
    sum: &Expr,
    y: T::Elem,
) -> Result<T::Elem, Stop>
    requires state { (r : ℕ) × IsBuilt built.now.facts.now (suc r) (T.reading F.vars F.val built.now.tower) built.now.free_gens built.now.known }
    requires next { get_or (sums_of built.now.facts.now) (length built.now.known) here ≡ tree_of sum.now }
    requires regular { HasStart built.now.facts.now (T.reading F.vars F.val built.now.tower) built.now.free_gens built.now.known y }
    ensures level { IfOk result (IsLevelledTo built.now.facts.now (T.reading F.vars F.val built.now.tower) built.now.free_gens built.now.known (tree_of sum.now) y) }
    ensures wide { IfErr result KeepsWideStep }
{
    let c = missing_constant(alloc, built, sum, &y)?;
    let h = plus_constant(alloc, &built.tower, y, &c)?;
    Ok(h)
}

/// The element and a constant. The error is out of memory, or a step that doesn't fit 128 bits.
pub fn plus_constant<F: Letters, T: Tower<K = F>>(
    alloc: Global,
    tower: &T,
    y: T::Elem,
    c: &F,
) -> Result<T::Elem, Stop>
    ensures sum { IfOk result (IsRaisedBy (T.reading F.vars F.val tower.now) (F.val c.now) y) }
    ensures wide { IfErr result KeepsWideStep }
{
    let one = tower.one(alloc)?;
    let constant = tower.scale(alloc, c, &one)?;
    let h = tower.add(alloc, &y, &constant)?;
    Ok(h)
}

// What the element lacks at the start of the value of the sum.
fn missing_constant<F: Letters, T: Tower<K = F>>(
    alloc: Global,
    built: &Built<'_, T>,
    sum: &Expr,
    y: &T::Elem,
) -> Result<F, Stop>
    requires state { (r : ℕ) × IsBuilt built.now.facts.now (suc r) (T.reading F.vars F.val built.now.tower) built.now.free_gens built.now.known }
    requires next { get_or (sums_of built.now.facts.now) (length built.now.known) here ≡ tree_of sum.now }
    requires regular { HasStart built.now.facts.now (T.reading F.vars F.val built.now.tower) built.now.free_gens built.now.known y.now }
    ensures constant { IfOk result (λ c. IsConstant built.now.facts.now (T.reading F.vars F.val built.now.tower) built.now.free_gens built.now.known (tree_of sum.now) y.now (F.val c)) }
    ensures wide { IfErr result KeepsWideStep }
{
    let gens: Row<F> = start_values(alloc, built.facts, &built.free_gens)?;
    let target: F = start_value(alloc, built.facts, sum)?;
    match start_of_element(alloc, built.facts, &built.tower, y, &gens)? {
        None => unreachable!(),
        Some(found) => {
            let c = target.sub(alloc, &found)?;
            Ok(c)
        }
    }
}

/// The value of the element at the start, where the sums of the tower have these values; None exactly where it has none. The error
/// is out of memory, or a step that doesn't fit 128 bits.
pub fn start_of_element<F: Letters, T: Tower<K = F>>(
    alloc: Global,
    facts: &Facts,
    tower: &T,
    e: &T::Elem,
    gens: &Row<F>,
) -> Result<Option<F>, Stop>
    requires one_each { length gens.now ≡ length (T.reading F.vars F.val tower.now).formal.products + (T.reading F.vars F.val tower.now).formal.sums }
    ensures some { IfOk result (λ o. IfSome o (λ x. HasAtStart facts.now (T.reading F.vars F.val tower.now) (map F.val gens.now) e.now (F.val x))) }
    ensures none { IfOk result (λ o. IfNone o (HasNoneAtStart facts.now (T.reading F.vars F.val tower.now) (map F.val gens.now) e.now)) }
    ensures wide { IfErr result KeepsWideStep }
{
    let v = elem_at(alloc, tower, e, facts.start, gens.as_slice())?;
    Ok(v)
}

/// The values at the start of the sums at these places.
pub fn start_values<F: Letters>(
    alloc: Global,
    facts: &Facts,
    places: &Row<u32>,
) -> Result<Row<F>, Stop>
    requires sound { AreSound (letter F.vars) facts.now }
    requires no_letter { All (HasNoLetter F.vars) (sums_of facts.now) }
    requires inside { Each (λ i. i < length (sums_of facts.now)) places.now }
    ensures values { IfOk result (λ r. AreStartValues facts.now places.now (map F.val r)) }
    ensures wide { IfErr result KeepsWideStep }
{
    let mut values = Row::new(alloc);
    for i in 0..places.len() {
        let sum = facts.sums.get(*places.get(i) as usize);
        let value: F = start_value(alloc, facts, sum)?;
        values.push(value)?;
    }
    Ok(values)
}

// The value of a sum at the start.
fn start_value<F: Letters>(alloc: Global, facts: &Facts, sum: &Expr) -> Result<F, Stop>
    requires no_letter { HasNoLetter F.vars (tree_of sum.now) }
    requires has { (v : Value F.vars) × HasWorth (letter F.vars) (tree_of sum.now) facts.now.start v }
    ensures value { IfOk result (λ x. HasWorth (letter F.vars) (tree_of sum.now) facts.now.start (F.val x)) }
    ensures wide { IfErr result KeepsWideStep }
{
    match value_in(alloc, sum, facts.start)? {
        None => unreachable!(),
        Some(x) => Ok(x),
    }
}

/// The new sums, those at the places `free_gens`, as expressions.
pub fn free_sums<F: Letters, T: Tower<K = F>>(
    alloc: Global,
    built: &Built<'_, T>,
) -> Result<Row<Expr>, AllocError>
    requires stands { StandsOverAll built.now.facts.now (T.reading F.vars F.val built.now.tower) built.now.free_gens built.now.known }
    ensures sums { IfOk result (λ r. AreNewSums built.now.facts.now built.now.free_gens (map tree_of r)) }
{
    let mut frees = Row::new(alloc);
    for i in 0..built.free_gens.len() {
        let sum = built.facts.sums.get(*built.free_gens.get(i) as usize);
        frees.push(sum.copy(alloc)?)?;
    }
    Ok(frees)
}
