ghost use Rattle.std.specs.Prelude.{◌≡◌, ℕ, suc, length, get_or, IfOk, IfErr};
ghost use Rattle.sg_num.specs.Stopped.{KeepsWideStep};
ghost use Rattle.sg_spec.specs.Tree.{here, sum_from};
ghost use Rattle.sg_expr.specs.Tree.{tree_of};
ghost use Rattle.sg_depth.specs.Commands.{sums_of};
ghost use Rattle.sg_depth.specs.Building.{IsBuilt, IsPlacedNext};
ghost use Rattle.sg_depth.specs.Fates.{IsFate};

use crate::fate::Fate;
use crate::levels::levelled;
use crate::towers::Built;
use sg_build::{Letters, place};
use sg_expr::Expr;
use sg_num::Stop;
use sg_tele::telescope;
use sg_tower::Tower;
use std::alloc::Global;

/// What the next sum is over those before it (Karr 1981): new, where no element has its difference; else what telescopes that,
/// with the constant that gives it the value of the sum at the start.
pub fn next_sum<F: Letters, T: Tower<K = F>>(
    alloc: Global,
    built: &Built<'_, T>,
) -> Result<Fate<T::Elem>, Stop>
    requires state { (r : ℕ) × IsBuilt built.now.facts.now (suc r) (T.reading F.vars F.val built.now.tower) built.now.free_gens built.now.known }
    ensures fate { IfOk result (IsFate built.now.facts.now (T.reading F.vars F.val built.now.tower) built.now.free_gens built.now.known) }
    ensures wide { IfErr result KeepsWideStep }
{
    let sum = built.facts.sums.get(built.known.len());
    match sum {
        Expr::Sum { from, body } => fate_of(alloc, built, sum, from, body),
        Expr::Num(_) | Expr::Here | Expr::Param | Expr::Neg(_) | Expr::Pow(_, _) => unreachable!(),
        Expr::Add(_, _) | Expr::Mul(_, _) | Expr::Div(_, _) | Expr::Prod { .. } => unreachable!(),
    }
}

// What the sum with this body is over those before it.
fn fate_of<F: Letters, T: Tower<K = F>>(
    alloc: Global,
    built: &Built<'_, T>,
    sum: &Expr,
    from: &i64,
    body: &Expr,
) -> Result<Fate<T::Elem>, Stop>
    requires state { (r : ℕ) × IsBuilt built.now.facts.now (suc r) (T.reading F.vars F.val built.now.tower) built.now.free_gens built.now.known }
    requires next { get_or (sums_of built.now.facts.now) (length built.now.known) here ≡ sum_from from.now (tree_of body.now) }
    requires same { tree_of sum.now ≡ sum_from from.now (tree_of body.now) }
    ensures fate { IfOk result (IsFate built.now.facts.now (T.reading F.vars F.val built.now.tower) built.now.free_gens built.now.known) }
    ensures wide { IfErr result KeepsWideStep }
{
    let beta = difference(alloc, built, from, body)?;
    match telescope(alloc, &built.tower, &beta)? {
        None => Ok(Fate::New(beta)),
        Some(y) => {
            let h = levelled(alloc, built, sum, y)?;
            Ok(Fate::Known(h))
        }
    }
}

// The difference of the sum with this lower limit and this body: the body's element, one place further.
fn difference<F: Letters, T: Tower<K = F>>(
    alloc: Global,
    built: &Built<'_, T>,
    from: &i64,
    body: &Expr,
) -> Result<T::Elem, Stop>
    requires state { (r : ℕ) × IsBuilt built.now.facts.now (suc r) (T.reading F.vars F.val built.now.tower) built.now.free_gens built.now.known }
    requires next { get_or (sums_of built.now.facts.now) (length built.now.known) here ≡ sum_from from.now (tree_of body.now) }
    ensures step { IfOk result (IsPlacedNext built.now.facts.now (T.reading F.vars F.val built.now.tower) built.now.free_gens built.now.known (tree_of body.now)) }
    ensures wide { IfErr result KeepsWideStep }
{
    let _ = from;
    let (before, _) = built.facts.sums.as_slice().split_at(built.known.len());
    let placed = place(
        alloc,
        &built.tower,
        built.facts.prods.as_slice(),
        before,
        built.known.as_slice(),
        body,
    )?;
    let beta = built.tower.shift(alloc, &placed)?;
    Ok(beta)
}
