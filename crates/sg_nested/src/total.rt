ghost use Rattle.std.specs.Prelude.{◌≡◌, IfOk, IfErr};
ghost use Rattle.sg_num.specs.Stopped.{KeepsWideStep};
ghost use Rattle.sg_num.specs.Value.{number};
ghost use Rattle.sg_spec.specs.Tree.{sum_from};
ghost use Rattle.sg_expr.specs.Tree.{tree_of};
ghost use Rattle.sg_build.specs.Letters.{letter};
ghost use Rattle.sg_depth.specs.Commands.{AreSound, StandsOverAll};
ghost use Rattle.sg_nested.specs.Summands.{IsSummand, HasStart, IsStartValue, IsSumBefore, IsTotal};

use sg_build::value_in;
use sg_depth::{Built, plus_constant, start_of_element, start_values};
use sg_expr::Expr;
use sg_limits::Facts;
use sg_num::{Field, Rat, Row, Stop};
use sg_tower::Tower;
use std::alloc::{AllocError, Global};

/// What the sum of f is where g telescopes f: g one place further, and the constant that gives it its value before the start.
pub fn total<T: Tower<K = Rat>>(
    alloc: Global,
    built: &Built<'_, T>,
    f: &Expr,
    lower: i64,
    g: &T::Elem,
) -> Result<T::Elem, Stop>
    requires stands { StandsOverAll built.now.facts.now (T.reading 0 number built.now.tower) built.now.free_gens built.now.known }
    requires summand { IsSummand built.now.facts.now (tree_of f.now) lower }
    requires regular { HasStart built.now.facts.now (T.reading 0 number built.now.tower) built.now.free_gens g.now }
    ensures total { IfOk result (IsTotal built.now.facts.now (T.reading 0 number built.now.tower) built.now.free_gens (tree_of f.now) lower g.now) }
    ensures wide { IfErr result KeepsWideStep }
{
    let before = sum_before(alloc, built.facts, f, lower)?;
    let found = value_at_start(alloc, built, g)?;
    let c = before.sub(alloc, &found)?;
    let next = built.tower.shift(alloc, g)?;
    let y = plus_constant(alloc, &built.tower, next, &c)?;
    Ok(y)
}

// The sum of f from the lower limit to the number before the start.
fn sum_before(alloc: Global, facts: &Facts, f: &Expr, lower: i64) -> Result<Rat, Stop>
    requires summand { IsSummand facts.now (tree_of f.now) lower }
    requires sound { AreSound (letter 0) facts.now }
    ensures value { IfOk result (λ x. IsSumBefore facts.now (tree_of f.now) lower (number x)) }
    ensures wide { IfErr result KeepsWideStep }
{
    let sum = sum_of(alloc, f, lower)?;
    match value_in(alloc, &sum, facts.start - 1)? {
        None => unreachable!(),
        Some(x) => Ok(x),
    }
}

// The sum of f from a lower limit on, as an expression.
fn sum_of(alloc: Global, f: &Expr, from: i64) -> Result<Expr, AllocError>
    ensures { IfOk result (λ t. tree_of t ≡ sum_from from (tree_of f.now)) }
{
    let body = Box::new(alloc, f.copy(alloc)?)?;
    Ok(Expr::Sum { from, body })
}

// The value of an element at the start.
fn value_at_start<T: Tower<K = Rat>>(
    alloc: Global,
    built: &Built<'_, T>,
    g: &T::Elem,
) -> Result<Rat, Stop>
    requires stands { StandsOverAll built.now.facts.now (T.reading 0 number built.now.tower) built.now.free_gens built.now.known }
    requires regular { HasStart built.now.facts.now (T.reading 0 number built.now.tower) built.now.free_gens g.now }
    ensures value { IfOk result (λ x. IsStartValue built.now.facts.now (T.reading 0 number built.now.tower) built.now.free_gens g.now (number x)) }
    ensures wide { IfErr result KeepsWideStep }
{
    let gens: Row<Rat> = start_values(alloc, built.facts, &built.free_gens)?;
    match start_of_element(alloc, built.facts, &built.tower, g, &gens)? {
        None => unreachable!(),
        Some(found) => Ok(found),
    }
}
