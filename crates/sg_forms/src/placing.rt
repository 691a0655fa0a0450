ghost use Rattle.std.specs.Prelude.{map, IfOk, IfErr};
ghost use Rattle.sg_num.specs.Stopped.{KeepsWideStep};
ghost use Rattle.sg_num.specs.Value.{number};
ghost use Rattle.sg_expr.specs.Tree.{tree_of};
ghost use Rattle.sg_depth.specs.Commands.{AreNewSums, StandsOverAll};
ghost use Rattle.sg_forms.specs.Listed.{IsListed, IsItem, IsSaid};

use sg_build::{express, place};
use sg_depth::Built;
use sg_expr::Expr;
use sg_num::{Rat, Row, Stop};
use sg_tower::Tower;
use std::alloc::Global;

/// The element of an expression over the sums.
pub fn placed<T: Tower<K = Rat>>(
    alloc: Global,
    built: &Built<'_, T>,
    f: &Expr,
) -> Result<T::Elem, Stop>
    requires stands { StandsOverAll built.now.facts.now (T.reading 0 number built.now.tower) built.now.free_gens built.now.known }
    requires listed { IsListed built.now.facts.now (tree_of f.now) }
    ensures value { IfOk result (IsItem built.now.facts.now (T.reading 0 number built.now.tower) built.now.known (tree_of f.now)) }
    ensures wide { IfErr result KeepsWideStep }
{
    let x = place(
        alloc,
        &built.tower,
        built.facts.prods.as_slice(),
        built.facts.sums.as_slice(),
        built.known.as_slice(),
        f,
    )?;
    Ok(x)
}

/// The expression of an element over the new sums.
pub fn expression_over<T: Tower<K = Rat>>(
    alloc: Global,
    built: &Built<'_, T>,
    frees: &Row<Expr>,
    x: &T::Elem,
) -> Result<Expr, Stop>
    requires stands { StandsOverAll built.now.facts.now (T.reading 0 number built.now.tower) built.now.free_gens built.now.known }
    requires frees { AreNewSums built.now.facts.now built.now.free_gens (map tree_of frees.now) }
    ensures said { IfOk result (λ h. IsSaid built.now.facts.now (T.reading 0 number built.now.tower) built.now.free_gens x.now (tree_of h)) }
    ensures wide { IfErr result KeepsWideStep }
{
    let none = Row::new(alloc);
    let h = express(alloc, &built.tower, none.as_slice(), frees.as_slice(), x)?;
    Ok(h)
}
