ghost use Rattle.std.specs.Prelude.{◌≡◌, ◌+◌, ◌≤◌, ◌++◌, length, map, Contains, IfOk, IfErr};
ghost use Rattle.sg_num.specs.Stopped.{KeepsWideStep};
ghost use Rattle.sg_expr.specs.Tree.{tree_of};
ghost use Rattle.sg_value_theory.proofs.Divisors.{IsPolynomial};
ghost use Rattle.sg_value_theory.proofs.TowerOf.{BuiltOver};
ghost use Rattle.sg_build.specs.Letters.{letter, HasNoLetter};
ghost use Rattle.sg_build.specs.Points.{AreUnits, HasPlace, IsPlaced};
ghost use Rattle.sg_build.specs.Placed.{IsItem, IsOpposite, IsPower, HasSomeValue, IsElementOf, IsElementOver, IsPlaceable, IsInvertible, IsInverted};

use crate::functions::{function_of, function_over};
use crate::letters::Letters;
use sg_expr::Expr;
use sg_num::{Field, Stop};
use sg_ratfun::RatFun;
use sg_tower::Tower;
use std::alloc::Global;

/// The element of an expression over the known elements of its products and sums, the products first: wherever these have the values
/// of theirs, it has each value of the expression (Karr 1981). What stands under an exponent 0 isn't placed. The error is out of
/// memory, or a step that doesn't fit 128 bits.
pub fn place<K: Letters, T: Tower<K = K>>(
    alloc: Global,
    tower: &T,
    prods: &[Expr],
    sums: &[Expr],
    known: &[T::Elem],
    e: &Expr,
) -> Result<T::Elem, Stop>
    requires built { BuiltOver (map tree_of prods.now) (map tree_of sums.now) (tree_of e.now) }
    requires no_letter { HasNoLetter K.vars (tree_of e.now) }
    requires units { AreUnits (T.reading K.vars K.val tower.now) (map tree_of prods.now) known.now }
    requires somewhere { HasPlace (letter K.vars) (T.reading K.vars K.val tower.now) (map tree_of prods.now ++ map tree_of sums.now) known.now (tree_of e.now) }
    ensures value { IfOk result (IsPlaced (letter K.vars) (T.reading K.vars K.val tower.now)
        (map tree_of prods.now ++ map tree_of sums.now) known.now (tree_of e.now)) }
    ensures wide { IfErr result KeepsWideStep }
{
    let r = element_of(alloc, tower, prods, sums, known, e)?;
    Ok(r)
}

// The element by the parts.
fn element_of<K: Letters, T: Tower<K = K>>(
    alloc: Global,
    tower: &T,
    prods: &[Expr],
    sums: &[Expr],
    known: &[T::Elem],
    e: &Expr,
) -> Result<T::Elem, Stop>
    requires { IsPlaceable (letter K.vars) (T.reading K.vars K.val tower.now) (map tree_of prods.now) (map tree_of sums.now) known.now (tree_of e.now) }
    ensures value { IfOk result (IsPlaced (letter K.vars) (T.reading K.vars K.val tower.now)
        (map tree_of prods.now ++ map tree_of sums.now) known.now (tree_of e.now)) }
    ensures wide { IfErr result KeepsWideStep }
{
    match e {
        Expr::Num(_) => {
            let r = polynomial(alloc, tower, e)?;
            Ok(r)
        }
        Expr::Here => {
            let r = polynomial(alloc, tower, e)?;
            Ok(r)
        }
        Expr::Param => {
            let r = polynomial(alloc, tower, e)?;
            Ok(r)
        }
        Expr::Add(a, b) => {
            let x = element_of(alloc, tower, prods, sums, known, a)?;
            let y = element_of(alloc, tower, prods, sums, known, b)?;
            let r = tower.add(alloc, &x, &y)?;
            Ok(r)
        }
        Expr::Neg(a) => {
            let x = element_of(alloc, tower, prods, sums, known, a)?;
            let r = opposite(alloc, tower, &x)?;
            Ok(r)
        }
        Expr::Mul(a, b) => {
            let x = element_of(alloc, tower, prods, sums, known, a)?;
            let y = element_of(alloc, tower, prods, sums, known, b)?;
            let r = tower.mul(alloc, &x, &y)?;
            Ok(r)
        }
        Expr::Div(a, b) => {
            let x = element_of(alloc, tower, prods, sums, known, a)?;
            let z = inverse(alloc, tower, prods, sums, known, b)?;
            let r = tower.mul(alloc, &x, &z)?;
            Ok(r)
        }
        Expr::Pow(a, e) => {
            if *e == 0 {
                let r = tower.one(alloc)?;
                return Ok(r);
            }
            let x = element_of(alloc, tower, prods, sums, known, a)?;
            let r = power(alloc, tower, &x, *e)?;
            Ok(r)
        }
        Expr::Sum { .. } => {
            let x = known_sum(prods, sums, known, e);
            let r = tower.copy(alloc, x)?;
            Ok(r)
        }
        Expr::Prod { .. } => {
            let x = item_of(prods, known, e);
            let r = tower.copy(alloc, x)?;
            Ok(r)
        }
    }
}

// 1 over a divisor.
fn inverse<K: Letters, T: Tower<K = K>>(
    alloc: Global,
    tower: &T,
    prods: &[Expr],
    sums: &[Expr],
    known: &[T::Elem],
    e: &Expr,
) -> Result<T::Elem, Stop>
    requires { IsInvertible (letter K.vars) (T.reading K.vars K.val tower.now) (map tree_of prods.now) (map tree_of sums.now) known.now (tree_of e.now) }
    ensures value { IfOk result (IsInverted (letter K.vars) (T.reading K.vars K.val tower.now)
        (map tree_of prods.now ++ map tree_of sums.now) known.now (tree_of e.now)) }
    ensures wide { IfErr result KeepsWideStep }
{
    match e {
        Expr::Num(_) => {
            let r = over_polynomial(alloc, tower, e)?;
            Ok(r)
        }
        Expr::Here => {
            let r = over_polynomial(alloc, tower, e)?;
            Ok(r)
        }
        Expr::Param => {
            let r = over_polynomial(alloc, tower, e)?;
            Ok(r)
        }
        Expr::Add(_, _) => {
            let r = over_polynomial(alloc, tower, e)?;
            Ok(r)
        }
        Expr::Neg(a) => {
            let z = inverse(alloc, tower, prods, sums, known, a)?;
            let r = opposite(alloc, tower, &z)?;
            Ok(r)
        }
        Expr::Mul(a, b) => {
            let x = inverse(alloc, tower, prods, sums, known, a)?;
            let y = inverse(alloc, tower, prods, sums, known, b)?;
            let r = tower.mul(alloc, &x, &y)?;
            Ok(r)
        }
        Expr::Pow(a, e) => {
            if *e == 0 {
                let r = tower.one(alloc)?;
                return Ok(r);
            }
            let z = inverse(alloc, tower, prods, sums, known, a)?;
            let r = power(alloc, tower, &z, *e)?;
            Ok(r)
        }
        Expr::Prod { .. } => {
            let x = item_of(prods, known, e);
            let found = tower.invert(alloc, x)?;
            match found {
                Some(r) => Ok(r),
                None => unreachable!(),
            }
        }
        // none of these is a divisor
        Expr::Div(_, _) | Expr::Sum { .. } => unreachable!(),
    }
}

// The element of a polynomial.
fn polynomial<K: Letters, T: Tower<K = K>>(
    alloc: Global,
    tower: &T,
    e: &Expr,
) -> Result<T::Elem, Stop>
    requires polynomial { IsPolynomial (tree_of e.now) }
    requires no_letter { HasNoLetter K.vars (tree_of e.now) }
    ensures value { IfOk result (IsElementOf (letter K.vars) (T.reading K.vars K.val tower.now) (tree_of e.now)) }
    ensures wide { IfErr result KeepsWideStep }
{
    let c: RatFun<K> = function_of(alloc, e)?;
    let r = tower.lift(alloc, &c)?;
    Ok(r)
}

// The element of 1 over a polynomial that somewhere has a value other than 0.
fn over_polynomial<K: Letters, T: Tower<K = K>>(
    alloc: Global,
    tower: &T,
    e: &Expr,
) -> Result<T::Elem, Stop>
    requires polynomial { IsPolynomial (tree_of e.now) }
    requires no_letter { HasNoLetter K.vars (tree_of e.now) }
    requires somewhere { HasSomeValue (letter K.vars) (tree_of e.now) }
    ensures value { IfOk result (IsElementOver (letter K.vars) (T.reading K.vars K.val tower.now) (tree_of e.now)) }
    ensures wide { IfErr result KeepsWideStep }
{
    let c: RatFun<K> = function_over(alloc, e)?;
    let r = tower.lift(alloc, &c)?;
    Ok(r)
}

// -x
fn opposite<K: Field, T: Tower<K = K>>(
    alloc: Global,
    tower: &T,
    x: &T::Elem,
) -> Result<T::Elem, Stop>
    ensures value { IfOk result (IsOpposite (T.reading K.vars K.val tower.now) x.now) }
    ensures wide { IfErr result KeepsWideStep }
{
    let none = tower.zero(alloc)?;
    let r = tower.sub(alloc, &none, x)?;
    Ok(r)
}

// x to the power e, by squaring.
fn power<K: Field, T: Tower<K = K>>(
    alloc: Global,
    tower: &T,
    x: &T::Elem,
    e: u128,
) -> Result<T::Elem, Stop>
    ensures value { IfOk result (IsPower (T.reading K.vars K.val tower.now) x.now e) }
    ensures wide { IfErr result KeepsWideStep }
{
    if e == 0 {
        let r = tower.one(alloc)?;
        return Ok(r);
    }
    let half = power(alloc, tower, x, e / 2)?;
    let square = tower.mul(alloc, &half, &half)?;
    if e % 2 == 0 {
        return Ok(square);
    }
    let r = tower.mul(alloc, &square, x)?;
    Ok(r)
}

// The known element of a sum.
fn known_sum<'a, E>(prods: &[Expr], sums: &[Expr], known: &'a [E], e: &Expr) -> &'a E
    requires one_each { length known.now ≡ length prods.now + length sums.now }
    requires listed { Contains (map tree_of sums.now) (tree_of e.now) }
    ensures { IsItem (map tree_of prods.now ++ map tree_of sums.now) known.now (tree_of e.now) result.now }
{
    item_of(sums, &known[prods.len()..], e)
}

// The item that stands where the expression stands among the others.
fn item_of<'a, E>(gens: &[Expr], items: &'a [E], e: &Expr) -> &'a E
    requires listed { Contains (map tree_of gens.now) (tree_of e.now) }
    requires enough { length gens.now ≤ length items.now }
    ensures { IsItem (map tree_of gens.now) items.now (tree_of e.now) result.now }
{
    for (i, g) in gens.iter().enumerate() {
        if g.same(e) {
            return &items[i];
        }
    }
    unreachable!()
}
